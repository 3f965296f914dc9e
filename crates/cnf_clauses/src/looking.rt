//! A look at the clause of a number.
ghost use Rattle.cnf_clauses.specs.Found.{FindsAt};

use crate::clause::{Found, look};
use crate::clauses::Clauses;
use crate::decided::Decided;

// Looks at a clause. Where there is no clause of the number nothing is refuted, and nothing derived.
pub(crate) fn look_at(clauses: &Clauses, decided: &Decided, number: u32) -> Found
    ensures { FindsAt clauses.now decided.now number result }
{
    match clauses.get(number as usize) {
        Some(literals) => look(decided, literals),
        None => Found::Open,
    }
}
