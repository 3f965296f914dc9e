//! The context from the values of keys.
ghost use Rattle.std.specs.Prelude.{◌≡◌, IfOk, OnOk, unwrap_or};
ghost use Rattle.policy_model.specs.Keys.{IsFolded};
ghost use Rattle.policy_model.specs.Soundness.{RuleIsSound, SchemaIsSound};
ghost use Rattle.text_table.specs.Table.{IsInOrder, item_at};
ghost use Rattle.slot_theory.specs.Unasked.{stated_values};
ghost use Rattle.request_build.specs.Taken.{HasFirstValues, IsWithFirst, context_in, values_at_key, values_under, with_some};

use plain_lists::{EqualClone, NoMemory};
use policy_model::{Context, KeyRule, Schema, Slot, ValueList};
use slot_theory::{SlotValue, stated_values};
use std::alloc::Global;
use text_table::Table;
use wildcard_lang::Text;

// Gives the key these values, unless it has some.
fn add_unless_there(
    found: &mut Table<ValueList>,
    key: &Text,
    values: &ValueList,
) -> Result<(), NoMemory>
    ensures { OnOk result
        (IsWithFirst found.old (λ name. values_under name key.now values.now) found.new) }
{
    if found.get(key).is_some() {
        return Ok(());
    }
    found.insert(key.copy()?, values.copy()?)?;
    Ok(())
}

// Gives the key, where the slot is one, these values, unless it has some.
fn add_first(found: &mut Table<ValueList>, slot: &Slot, value: &SlotValue) -> Result<(), NoMemory>
    ensures { OnOk result
        (IsWithFirst found.old (λ name. values_at_key name slot.now value.now) found.new) }
{
    match (slot, value) {
        (Slot::Key(key), SlotValue::Values(values)) => add_unless_there(found, key, values),
        _ => Ok(()),
    }
}

// The first values of each key among these: looked up there, the keys of a schema aren't looked for among
// all slots.
fn first_values(alloc: Global, values: &[(Slot, SlotValue)]) -> Result<Table<ValueList>, NoMemory>
    ensures { IfOk result (HasFirstValues values.now) }
{
    let mut found = Table::new(alloc);
    for (slot, value) in values {
        add_first(&mut found, slot, value)?;
    }
    Ok(found)
}

// The values that the key has there, or the stated ones.
fn key_values(
    alloc: Global,
    found: &Table<ValueList>,
    key: &Text,
    rule: &KeyRule,
) -> Result<ValueList, NoMemory>
    requires { RuleIsSound rule.now }
    ensures { IfOk result (λ vs.
        vs ≡ unwrap_or (item_at key.now found.now) (stated_values rule.now)) }
{
    match found.get(key) {
        Some(values) => values.copy(),
        None => stated_values(alloc, rule),
    }
}

// Gives the key these values, if there are any: a context has no key without a value.
fn add_values(context: &mut Context, key: &Text, values: ValueList) -> Result<(), NoMemory>
    requires { IsFolded key.now }
    ensures { OnOk result (context.new ≡ with_some context.old key.now values) }
{
    if !values.is_empty() {
        context.insert(key.copy()?, values)?;
    }
    Ok(())
}

/// The context that gives each key of the schema its values among these, or the stated ones.
pub fn context_in(
    alloc: Global,
    schema: &Schema,
    values: &[(Slot, SlotValue)],
) -> Result<Context, NoMemory>
    requires { SchemaIsSound schema.now }
    ensures value { IfOk result (λ c. c ≡ context_in values.now schema.now.keys) }
    ensures ordered { IsInOrder schema.now.keys }
{
    let keys = schema.iter();
    let found = first_values(alloc, values)?;
    let mut context = Context::new(alloc);
    for (key, rule) in keys {
        let own = key_values(alloc, &found, key, rule)?;
        add_values(&mut context, key, own)?;
    }
    Ok(context)
}
