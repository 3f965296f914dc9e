//! The predicates of a dimension.
ghost use Rattle.std.specs.Prelude.{◌≡◌, IfOk};
ghost use Rattle.std.proofs.Common.{rules};
ghost use Rattle.strata.specs.Predicates.{test_of};

use plain_lists::{EqualClone, List, NoMemory};
use policy_model::{Cond, Entry, Slot, Test};
use wildcard_lang::Pattern;

/// What is asked of one dimension of a request: of the principal, the action, the resource, or the
/// values of a condition key.
#[derive(Clone, Drop, PartialEq, Eq, Hash)]
pub enum Predicate {
    /// Nothing: every request meets it.
    Every,
    /// The principal is one of the entry.
    Principal(Entry),
    /// The action or the resource matches.
    Word(Pattern),
    /// Some value of the key meets what is asked.
    Meets(Cond),
}

impl EqualClone for Predicate {
    ghost clones_are_equal = { Prim.search rules };
}

/// A list of predicates.
pub type PredicateList = List<Predicate>;

/// The test that a request passes where it meets the predicate in the slot. There is none for
/// `Every`, nor for a predicate that isn't of the slot's form.
pub fn test_of(slot: &Slot, predicate: &Predicate) -> Result<Option<Test>, NoMemory>
    ensures { IfOk result (λ t. t ≡ test_of slot.now predicate.now) }
{
    match (slot, predicate) {
        (Slot::Principal, Predicate::Principal(entry)) => Ok(Some(Test::Principal(entry.copy()?))),
        (Slot::Action, Predicate::Word(pattern)) => Ok(Some(Test::Action(pattern.copy()?))),
        (Slot::Resource, Predicate::Word(pattern)) => Ok(Some(Test::Resource(pattern.copy()?))),
        (Slot::Key(key), Predicate::Meets(cond)) => {
            Ok(Some(Test::SomeMeets(key.copy()?, cond.copy()?)))
        }
        _ => Ok(None),
    }
}
