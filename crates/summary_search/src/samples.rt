//! Samples: values of a slot that are plain to see, and are tried before anything is searched.
ghost use Rattle.std.specs.Prelude.{◌∷◌, [], true, false, IfOk, IfSome, IsTrue};
ghost use Rattle.policy_model.specs.declared.test.Test.TheVariants.{Principal};
ghost use Rattle.policy_model.specs.Principals.{IsOfAccount};
ghost use Rattle.policy_model.specs.Requests.{FitsShape};
ghost use Rattle.policy_model.specs.Soundness.{SchemaIsSound};
ghost use Rattle.set_operators.specs.Asks.{AreValuesOf};
ghost use Rattle.slot_theory.specs.Possible.{IsPossible};
ghost use Rattle.slot_theory.specs.Slots.{Permits, SlotIsIn, ValueMeets};
ghost use Rattle.summary_search.specs.Questions.{IsTestOnSlot, MeetsOnKeys};

use plain_lists::{EqualClone, NoMemory};
use policy_model::{
    Cond, Entry, KeyRule, PrincipalKind, Schema, Shapes, Slot, Test, Value, ValueList, is_word,
    permits_values, shape_of,
};
use slot_theory::{SlotValue, meets, sample, stated_value};
use std::alloc::Global;
use wildcard_lang::{Pattern, Text};

// What stands before the account in an ARN whose other parts are empty.
const BEFORE_ACCOUNT: [char; 7] = ['a', 'r', 'n', ':', ':', ':', ':'];

// The shortest ARN of the account.
fn account_id(alloc: Global, account: &Text) -> Result<Text, NoMemory>
    ensures { IfOk result (IsOfAccount account.now) }
{
    let mut chars = Vec::from_slice(alloc, &BEFORE_ACCOUNT)?;
    chars.extend_from_slice(account.as_slice())?;
    chars.push(':')?;
    Ok(Text::from_chars(chars))
}

// A sample of the shape, or `x` where none is given.
fn shaped_text(alloc: Global, shape: &Option<Pattern>) -> Result<Text, NoMemory>
    ensures { IfOk result (FitsShape shape.now) }
{
    match shape {
        Some(pattern) => {
            let text = sample(alloc, pattern)?;
            Ok(text)
        }
        None => Text::of(alloc, "x"),
    }
}

// A principal of the entry.
fn principal_of(alloc: Global, shapes: &Shapes, entry: &Entry) -> Result<SlotValue, NoMemory>
    ensures { IfOk result (λ v. ValueMeets v (Principal entry.now)) }
{
    match entry {
        Entry::All => {
            let id = shaped_text(alloc, shape_of(shapes, PrincipalKind::Aws))?;
            Ok(SlotValue::Principal(PrincipalKind::Aws, id))
        }
        Entry::Kind(kind) => {
            let id = shaped_text(alloc, shape_of(shapes, *kind))?;
            Ok(SlotValue::Principal(*kind, id))
        }
        Entry::Account(account) => {
            let id = account_id(alloc, account)?;
            Ok(SlotValue::Principal(PrincipalKind::Aws, id))
        }
        Entry::Exact(kind, id) => Ok(SlotValue::Principal(*kind, id.copy()?)),
    }
}

// The list of one text that meets the condition, where it asks for texts.
fn text_of(alloc: Global, cond: &Cond) -> Result<Option<SlotValue>, NoMemory>
    ensures { IfOk result (λ o. IfSome o (MeetsOnKeys cond.now)) }
{
    match cond {
        Cond::Matches(pattern) => {
            let text = sample(alloc, pattern)?;
            let mut values = ValueList::new(alloc);
            values.push(Value::Word(text))?;
            Ok(Some(SlotValue::Values(values)))
        }
        _ => Ok(None),
    }
}

// A value that meets the test, where one is plain to see.
fn sample_of(alloc: Global, schema: &Schema, test: &Test) -> Result<Option<SlotValue>, NoMemory>
    ensures { IfOk result (λ o. IfSome o (λ v. ValueMeets v test.now)) }
{
    match test {
        Test::Principal(entry) => Ok(Some(principal_of(alloc, &schema.shapes, entry)?)),
        Test::Action(pattern) => Ok(Some(SlotValue::Word(sample(alloc, pattern)?))),
        Test::Resource(pattern) => Ok(Some(SlotValue::Word(sample(alloc, pattern)?))),
        Test::SomeMeets(_, cond) => text_of(alloc, cond),
        _ => Ok(None),
    }
}

// Whether a valid request may have these values, at least one, at a key of the rule.
fn may_be_values(rule: &KeyRule, values: &ValueList) -> bool
    ensures { IsTrue result → AreValuesOf rule.now values.now }
{
    if values.is_empty() {
        return false;
    }
    permits_values(rule, values)
}

// Whether the schema plainly permits the value in the slot.
fn permits(schema: &Schema, slot: &Slot, value: &SlotValue) -> bool
    ensures { IsTrue result → Permits schema.now slot.now value.now }
{
    let shapes = &schema.shapes;
    match (slot, value) {
        (Slot::Principal, SlotValue::Principal(kind, id)) => is_word(shape_of(shapes, *kind), id),
        (Slot::Action, SlotValue::Word(text)) => is_word(&shapes.action, text),
        (Slot::Resource, SlotValue::Word(text)) => is_word(&shapes.resource, text),
        (Slot::Key(name), SlotValue::Values(values)) => match schema.get(name) {
            Some(rule) => may_be_values(rule, values),
            None => false,
        },
        _ => false,
    }
}

/// Whether a sample of the test shows that some valid request passes it.
pub fn sample_passes(
    alloc: Global,
    schema: &Schema,
    slot: &Slot,
    test: &Test,
) -> Result<bool, NoMemory>
    requires sound { SchemaIsSound schema.now }
    requires suits { IsTestOnSlot schema.now slot.now test.now }
    ensures { IfOk result (λ is. IsTrue is →
        IsPossible schema.now (test.now ∷ []) ((0, true) ∷ [])) }
{
    // The schema's keys are in order, so a value that it permits is part of a valid request.
    // `len` shows that the keys are in order: the proof that the sample's request is valid rests on it.
    let _keys = schema.len();
    let Some(value) = sample_of(alloc, schema, test)? else {
        return Ok(false);
    };
    Ok(permits(schema, slot, &value))
}

/// Whether the value of a slot that nothing is asked of shows that some valid request misses the test.
pub fn stated_misses(
    alloc: Global,
    schema: &Schema,
    slot: &Slot,
    test: &Test,
) -> Result<bool, NoMemory>
    requires sound { SchemaIsSound schema.now }
    requires slot { SlotIsIn schema.now slot.now }
    requires suits { IsTestOnSlot schema.now slot.now test.now }
    ensures { IfOk result (λ is. IsTrue is →
        IsPossible schema.now (test.now ∷ []) ((0, false) ∷ [])) }
{
    // `len` shows that the keys are in order: the proof that the sample's request is valid rests on it.
    let _keys = schema.len();
    let value = stated_value(alloc, schema, slot)?;
    Ok(!meets(&value, test))
}

/// Whether a sample of the one test shows that some valid request passes it and not the other.
pub fn sample_escapes(
    alloc: Global,
    schema: &Schema,
    slot: &Slot,
    yes: &Test,
    no: &Test,
) -> Result<bool, NoMemory>
    requires sound { SchemaIsSound schema.now }
    requires yes_suits { IsTestOnSlot schema.now slot.now yes.now }
    requires no_suits { IsTestOnSlot schema.now slot.now no.now }
    ensures { IfOk result (λ is. IsTrue is → IsPossible schema.now
        (yes.now ∷ no.now ∷ []) ((0, true) ∷ (1, false) ∷ [])) }
{
    // `len` shows that the keys are in order: the proof that the sample's request is valid rests on it.
    let _keys = schema.len();
    let Some(value) = sample_of(alloc, schema, yes)? else {
        return Ok(false);
    };
    if meets(&value, no) {
        return Ok(false);
    }
    Ok(permits(schema, slot, &value))
}
