//! What is asked of a value.
ghost use Rattle.std.specs.Prelude.{IsTrue};
ghost use Rattle.policy_model.specs.Conds.{SharesNoValue};
ghost use Rattle.test_relations.specs.Parts.{BlockLeads, CondLeads};

use crate::bounds::{bound_excludes, bound_leads};
use cidr_bits::{Block, contains};
use policy_model::{Cond, are_conds_apart};
use wildcard_lang::covers;

// Whether each address of the one block lies in the other.
fn block_leads(one: &Block, other: &Block) -> bool
    ensures { IsTrue result → BlockLeads one.now other.now }
{
    other.prefix <= one.prefix && contains(other, &one.first)
}

/// Whether each value that meets the one meets the other.
pub(crate) fn cond_leads(one: &Cond, other: &Cond) -> bool
    ensures { IsTrue result → CondLeads one.now other.now }
{
    match (one, other) {
        (Cond::Matches(first), Cond::Matches(second)) => covers(second, first),
        (Cond::Compares(first, bound), Cond::Compares(second, limit)) => {
            bound_leads(*first, *bound, *second, *limit)
        }
        (Cond::Inside(first), Cond::Inside(second)) => block_leads(first, second),
        (Cond::Flag(at_true, at_false), Cond::Flag(also_at_true, also_at_false)) => {
            (!*at_true || *also_at_true) && (!*at_false || *also_at_false)
        }
        (Cond::Equals(first), Cond::Equals(second)) => first == second,
        _ => false,
    }
}

/// Whether no value meets both.
pub(crate) fn cond_excludes(one: &Cond, other: &Cond) -> bool
    ensures { IsTrue result → SharesNoValue one.now other.now }
{
    match (one, other) {
        (Cond::Compares(first, bound), Cond::Compares(second, limit)) => {
            bound_excludes(*first, *bound, *second, *limit)
        }
        _ => are_conds_apart(one, other),
    }
}
