//! Clauses over numbered conditions, and whether they hold.
ghost use Rattle.std.specs.Prelude.{◌≡◌, ◌<◌, ◌↔◌, All, IsTrue};
ghost use Rattle.value_theory.specs.Clauses.{literal_holds, OnConditions};

use plain_lists::List;

/// That a condition is met, or that it isn't.
#[derive(Clone, Copy, PartialEq, Eq, Hash, Drop)]
pub struct Literal {
    /// The number of the condition in its list, counted from 0.
    pub pattern: u32,
    /// Whether the condition is to be met.
    pub holds: bool,
}

/// A clause: one of its literals is to hold.
pub type LiteralList = List<Literal>;

/// Clauses that are all to hold.
pub type ClauseList = List<LiteralList>;

// Whether the literal holds, where the answer says whether its condition is met.
pub(crate) fn literal_holds(answer: bool, literal: Literal) -> bool
    ensures { result ≡ literal_holds answer literal }
{
    if literal.holds { answer } else { !answer }
}

// Whether each literal of each clause is on one of the first `count` conditions.
pub(crate) fn are_in_range(count: usize, clauses: &[LiteralList]) -> bool
    ensures { IsTrue result ↔ OnConditions count clauses.now }
{
    for clause in clauses {
        if !is_in_range(count, clause.as_slice()) {
            return false;
        }
    }
    true
}

fn is_in_range(count: usize, clause: &[Literal]) -> bool
    ensures { IsTrue result ↔ All (λ l. l.pattern < count) clause.now }
{
    clause
        .iter()
        .all(|literal| (literal.pattern as usize) < count)
}
