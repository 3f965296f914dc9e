//! The predicates that tests name.
ghost use Rattle.std.specs.Prelude.{◌≡◌, [], ◌∷◌, IfOk, OnOk, map};
ghost use Rattle.strata.specs.declared.predicate.Predicate.TheVariants.{Every, Meets};
ghost use Rattle.strata.specs.Predicates.{AreNamed, Gathers, test_predicates, read_of};

use crate::predicate::{Predicate, PredicateList};
use indexmap::IndexSet;
use plain_lists::{EqualClone, List, NoMemory};
use policy_model::{Cond, Slot, Test};
use slot_theory::is_on;
use std::alloc::Global;

/// The most predicates that may be named in a dimension of `strata`, `Every` among them.
pub const MOST_PREDICATES: u32 = 128;

// Adds the predicate at the end, where it isn't had.
fn add(names: &mut IndexSet<Predicate>, predicate: Predicate) -> Result<(), NoMemory>
    ensures { OnOk result (Gathers names.old.keys (predicate ∷ []) names.new.keys) }
{
    names.insert_full(predicate)?;
    Ok(())
}

fn add_conds(names: &mut IndexSet<Predicate>, conds: &[Cond]) -> Result<(), NoMemory>
    ensures { OnOk result (Gathers names.old.keys (map Meets conds.now) names.new.keys) }
{
    for cond in conds {
        let copied = cond.copy()?;
        add(names, Predicate::Meets(copied))?;
    }
    Ok(())
}

// Adds what the test names.
fn add_all(names: &mut IndexSet<Predicate>, test: &Test) -> Result<(), NoMemory>
    ensures { OnOk result (Gathers names.old.keys (test_predicates test.now) names.new.keys) }
{
    match test {
        Test::Principal(entry) => add(names, Predicate::Principal(entry.copy()?)),
        Test::Action(pattern) => add(names, Predicate::Word(pattern.copy()?)),
        Test::Resource(pattern) => add(names, Predicate::Word(pattern.copy()?)),
        Test::Present(_) => Ok(()),
        Test::SomeMeets(_, cond) => add(names, Predicate::Meets(cond.copy()?)),
        Test::SomeMeetsNone(_, conds) => add_conds(names, conds.as_slice()),
    }
}

// Adds what the test names, where it is on the slot.
fn add_read(names: &mut IndexSet<Predicate>, slot: &Slot, test: &Test) -> Result<(), NoMemory>
    ensures { OnOk result (Gathers names.old.keys (read_of slot.now test.now) names.new.keys) }
{
    if is_on(slot, test) {
        add_all(names, test)
    } else {
        Ok(())
    }
}

// The set of `Every` alone.
fn every(alloc: Global) -> Result<IndexSet<Predicate>, NoMemory>
    ensures { IfOk result (λ names. names.keys ≡ Every ∷ []) }
{
    let mut names = IndexSet::new(alloc);
    names.insert_full(Predicate::Every)?;
    Ok(names)
}

// The predicates in the order in which they were put in.
fn listed(alloc: Global, names: IndexSet<Predicate>) -> Result<PredicateList, NoMemory>
    ensures { IfOk result (λ list. list ≡ names.keys) }
{
    let list: Vec<Predicate> = names.into_iter().collect(alloc)?;
    Ok(List::from_vec(list))
}

/// The predicates of the slot that are named: `Every`, and then those that the tests name, equal ones
/// once.
pub(crate) fn named(alloc: Global, slot: &Slot, tests: &[Test]) -> Result<PredicateList, NoMemory>
    ensures { IfOk result (AreNamed slot.now tests.now) }
{
    let mut names = every(alloc)?;
    for test in tests {
        add_read(&mut names, slot, test)?;
    }
    listed(alloc, names)
}
