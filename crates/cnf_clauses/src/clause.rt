//! A clause, and a look at it under decided variables.
ghost use Rattle.std.specs.Prelude.{◌≡◌, ◌++◌, ◌∷◌, List, ℕ, Bool};
ghost use Rattle.cnf_clauses.specs.Found.{Finds};
ghost use Rattle.cnf_clauses.specs.Scan.{found_after};

use crate::decided::Decided;
use plain_lists::List;

// A variable, and the value at which the literal is true.
pub(crate) type Literal = (u32, bool);

// The literals; one of them must be true.
pub(crate) type Clause = List<Literal>;

// What a look at a clause finds.
#[derive(Clone, Copy)]
pub(crate) enum Found {
    // each literal is false
    Refuted,
    // one literal is undecided, and the others are false
    Unit(u32, bool),
    // a literal is true, or two that differ are undecided
    Open,
}

// What one more literal makes of what was found.
pub(crate) fn found_after(found: Found, literal: Literal, value: Option<bool>) -> Found
    ensures { result ≡ found_after found literal value }
{
    match value {
        Some(value) => {
            if value == literal.1 {
                Found::Open
            } else {
                found
            }
        }
        None => match found {
            Found::Refuted => Found::Unit(literal.0, literal.1),
            Found::Unit(variable, value) => {
                if variable == literal.0 && value == literal.1 {
                    found
                } else {
                    Found::Open
                }
            }
            Found::Open => Found::Open,
        },
    }
}

// Looks at a clause.
pub(crate) fn look(decided: &Decided, literals: &[Literal]) -> Found
    ensures { Finds decided.now literals.now result }
{
    let mut found = Found::Refuted;
    'look: for literal in literals {
        found = found_after(found, *literal, decided.value(literal.0));
        if let Found::Open = found {
            return Found::Open;
        }
    }
    found
}
