//! Predicates that plainly share no request.
ghost use Rattle.std.specs.Prelude.{IsTrue};
ghost use Rattle.strata.specs.Below.{ShareNoRequest};

use crate::predicate::Predicate;
use policy_model::{Slot, are_entries_apart};
use wildcard_lang::clashes;

/// Whether plainly no request meets both. It takes no memory, and mostly the first characters tell. Of a key with many
/// values nothing is plain: one value may meet the one and another value the other.
pub(crate) fn share_no_request(slot: &Slot, one: &Predicate, other: &Predicate) -> bool
    ensures { IsTrue result → ShareNoRequest slot.now one.now other.now }
{
    match (slot, one, other) {
        (Slot::Principal, Predicate::Principal(first), Predicate::Principal(second)) => {
            are_entries_apart(first, second)
        }
        (Slot::Action, Predicate::Word(first), Predicate::Word(second)) => clashes(first, second),
        (Slot::Resource, Predicate::Word(first), Predicate::Word(second)) => clashes(first, second),
        _ => false,
    }
}
