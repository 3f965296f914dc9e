//! The slots that tests are on, the values that meet them, and what the schema and a test ask of a
//! value.
ghost use Rattle.std.specs.Prelude.{◌≡◌, ◌↔◌, IfOk, IsTrue};
ghost use Rattle.policy_model.specs.declared.schema.Schema.{Schema};
ghost use Rattle.policy_model.specs.Soundness.{TestSuits};
ghost use Rattle.set_operators.specs.declared.ask.KeyAsk.TheVariants.{SomeMeets, SomeMeetsNone};
ghost use Rattle.set_operators.specs.Asks.{AskHolds};
ghost use Rattle.slot_theory.specs.Slots.{IsWordSlot, ValueMeets, ask_of, fixed_at, is_on, pattern_of, shape_at, slot_of};

use crate::entries::{entry_pattern, fixed_answer};
use crate::outcome::SlotValue;
use plain_lists::{EqualClone, NoMemory};
use policy_model::{
    Cond, CondList, PrincipalKind, Schema, Slot, Test, ValueList, cond_meets, entry_names,
    meets_some,
};
use set_operators::KeyAsk;
use std::alloc::Global;
use wildcard_lang::{Pattern, matches};

/// The slot that the test is on.
pub fn slot_of(_alloc: Global, test: &Test) -> Result<Slot, NoMemory>
    ensures { IfOk result (λ s. s ≡ slot_of test.now) }
{
    match test {
        Test::Principal(_) => Ok(Slot::Principal),
        Test::Action(_) => Ok(Slot::Action),
        Test::Resource(_) => Ok(Slot::Resource),
        Test::Present(key) => Ok(Slot::Key(key.copy()?)),
        Test::SomeMeets(key, _) => Ok(Slot::Key(key.copy()?)),
        Test::SomeMeetsNone(key, _) => Ok(Slot::Key(key.copy()?)),
    }
}

/// Whether the test is on the slot.
pub fn is_on(slot: &Slot, test: &Test) -> bool
    ensures { result ≡ is_on slot.now test.now }
{
    match (slot, test) {
        (Slot::Principal, Test::Principal(_)) => true,
        (Slot::Action, Test::Action(_)) => true,
        (Slot::Resource, Test::Resource(_)) => true,
        (Slot::Key(name), Test::Present(key)) => name == key,
        (Slot::Key(name), Test::SomeMeets(key, _)) => name == key,
        (Slot::Key(name), Test::SomeMeetsNone(key, _)) => name == key,
        _ => false,
    }
}

/// Whether some of the values meets the condition.
fn some_meets(values: &ValueList, cond: &Cond) -> bool
    ensures { IsTrue result ↔ AskHolds values.now (SomeMeets cond.now) }
{
    values
        .as_slice()
        .iter()
        .any(|value| cond_meets(value, cond))
}

/// Whether some of the values meets none of the conditions.
fn some_meets_none(values: &ValueList, conds: &CondList) -> bool
    ensures { IsTrue result ↔ AskHolds values.now (SomeMeetsNone conds.now) }
{
    values
        .as_slice()
        .iter()
        .any(|value| !meets_some(value, conds))
}

/// Whether the value meets the test.
pub fn meets(value: &SlotValue, test: &Test) -> bool
    ensures { IsTrue result ↔ ValueMeets value.now test.now }
{
    match (value, test) {
        (SlotValue::Principal(kind, id), Test::Principal(entry)) => entry_names(entry, *kind, id),
        (SlotValue::Word(text), Test::Action(pattern)) => matches(pattern, text),
        (SlotValue::Word(text), Test::Resource(pattern)) => matches(pattern, text),
        (SlotValue::Values(values), Test::Present(_)) => !values.is_empty(),
        (SlotValue::Values(values), Test::SomeMeets(_, cond)) => some_meets(values, cond),
        (SlotValue::Values(values), Test::SomeMeetsNone(_, conds)) => {
            some_meets_none(values, conds)
        }
        _ => false,
    }
}

/// The answer of the test to every principal of the kind, where all get one answer.
pub fn fixed_at(test: &Test, kind: PrincipalKind) -> Option<bool>
    ensures { result ≡ fixed_at kind test.now }
{
    match test {
        Test::Principal(entry) => fixed_answer(entry, kind),
        _ => None,
    }
}

/// A copy of the test's pattern, where it has one.
pub fn pattern_of(alloc: Global, test: &Test) -> Result<Option<Pattern>, NoMemory>
    requires { (schema : Schema) × TestSuits schema test.now }
    ensures { IfOk result (λ p. p ≡ pattern_of test.now) }
{
    match test {
        Test::Principal(entry) => entry_pattern(alloc, entry),
        Test::Action(pattern) => Ok(Some(pattern.copy()?)),
        Test::Resource(pattern) => Ok(Some(pattern.copy()?)),
        Test::Present(_) | Test::SomeMeets(_, _) | Test::SomeMeetsNone(_, _) => Ok(None),
    }
}

/// What the test asks of the values of its key, as a copy. Of a test that is on no key nothing rests
/// on it.
pub fn ask_of(test: &Test) -> Result<KeyAsk, NoMemory>
    ensures { IfOk result (λ a. a ≡ ask_of test.now) }
{
    match test {
        Test::SomeMeets(_, cond) => Ok(KeyAsk::SomeMeets(cond.copy()?)),
        Test::SomeMeetsNone(_, conds) => Ok(KeyAsk::SomeMeetsNone(conds.copy()?)),
        _ => Ok(KeyAsk::Present),
    }
}

/// The shape that the schema gives the words of the slot, where one is given.
pub fn shape_at<'a>(schema: &'a Schema, slot: &Slot) -> &'a Option<Pattern>
    requires { IsWordSlot slot.now }
    ensures { result.now ≡ shape_at schema.now slot.now }
{
    match slot {
        Slot::Action => &schema.shapes.action,
        Slot::Resource => &schema.shapes.resource,
        _ => unreachable!(),
    }
}
