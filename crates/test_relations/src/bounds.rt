//! Bounds of numbers.
ghost use Rattle.std.specs.Prelude.{IsTrue};
ghost use Rattle.test_relations.specs.Parts.{BoundExcludes, BoundLeads};

use intervals::{Compare, Scaled, satisfies};

/// Whether each number that stands to the one bound as named stands to the other.
pub(crate) fn bound_leads(one: Compare, bound: Scaled, other: Compare, limit: Scaled) -> bool
    ensures { IsTrue result → BoundLeads one bound other limit }
{
    match (one, other) {
        (Compare::Less, Compare::Less) => satisfies(Compare::LessOrEqual, limit, bound),
        (Compare::Greater, Compare::Greater) => satisfies(Compare::GreaterOrEqual, limit, bound),
        (Compare::Equal, _)
        | (Compare::Less | Compare::LessOrEqual, Compare::Less | Compare::LessOrEqual)
        | (
            Compare::Greater | Compare::GreaterOrEqual,
            Compare::Greater | Compare::GreaterOrEqual,
        ) => satisfies(other, limit, bound),
        _ => false,
    }
}

/// Whether no number stands to both bounds as named.
pub(crate) fn bound_excludes(one: Compare, bound: Scaled, other: Compare, limit: Scaled) -> bool
    ensures { IsTrue result → BoundExcludes one bound other limit }
{
    match (one, other) {
        (Compare::Equal, _) => !satisfies(other, limit, bound),
        (_, Compare::Equal) => !satisfies(one, bound, limit),
        (Compare::LessOrEqual, Compare::GreaterOrEqual)
        | (Compare::GreaterOrEqual, Compare::LessOrEqual) => !satisfies(one, bound, limit),
        (Compare::Less | Compare::LessOrEqual, Compare::Greater | Compare::GreaterOrEqual) => {
            !satisfies(Compare::Less, bound, limit)
        }
        (Compare::Greater | Compare::GreaterOrEqual, Compare::Less | Compare::LessOrEqual) => {
            !satisfies(Compare::Greater, bound, limit)
        }
        _ => false,
    }
}
