//! How a number stands to a bound.
ghost use Rattle.std.specs.Prelude.{◌≡◌, ◌↔◌, IsTrue};
ghost use Rattle.std.proofs.Common.{rules};
ghost use Rattle.intervals.specs.Compare.{StandsTo, stands_to};

use crate::scaled::Scaled;
use plain_lists::EqualClone;

/// How a value stands to a bound.
#[derive(Clone, Copy, PartialEq, Eq, Hash, Drop)]
pub enum Compare {
    /// It is the bound.
    Equal,
    /// It is less than the bound.
    Less,
    /// It is at most the bound.
    LessOrEqual,
    /// It is greater than the bound.
    Greater,
    /// It is at least the bound.
    GreaterOrEqual,
}

impl EqualClone for Compare {
    ghost clones_are_equal = { Prim.search rules };
}

/// Whether the value stands to the bound as named. It takes no memory.
pub fn satisfies(compare: Compare, bound: Scaled, value: Scaled) -> bool
    ensures meaning { IsTrue result ↔ StandsTo compare bound value }
    ensures value { result ≡ stands_to compare bound value }
{
    let limit = bound.units();
    let number = value.units();
    match compare {
        Compare::Equal => number == limit,
        Compare::Less => number < limit,
        Compare::LessOrEqual => number <= limit,
        Compare::Greater => number > limit,
        Compare::GreaterOrEqual => number >= limit,
    }
}
