//! What slots answer: values, and the cores that no value answers.
ghost use Rattle.policy_model.specs.Soundness.{SchemaIsSound};
ghost use Rattle.slot_theory.specs.Slots.{SlotIsIn};

use crate::asked::{answer_on_key, answer_to_question, key_slot};
use crate::cases::slot_named;
use crate::schemas::{key_schema_of, schema_of};
use policy_model::{Schema, Slot, Value, ValueList};
use slot_theory::{SlotValue, stated_value};
use std::alloc::Global;
use std::io;
use std::io::ErrorKind;
use wildcard_lang::Text;

fn push_word(text: &mut String, word: &Text) -> io::Result<()> {
    let word = word.to_utf8()?;
    write!(text, " {word}")?;
    Ok(())
}

fn push_value(text: &mut String, value: &Value) -> io::Result<()> {
    match value {
        Value::Word(word) => push_word(text, word),
        Value::Truth(truth) => Ok(write!(text, " {truth}")?),
        Value::Number(_) => Ok(text.push_str(" a number")?),
        Value::Address(_) => Ok(text.push_str(" an address")?),
        Value::Bytes(_) => Ok(text.push_str(" bytes")?),
    }
}

fn push_values(text: &mut String, values: &ValueList) -> io::Result<()> {
    text.push_str("values:")?;
    for value in values.as_slice() {
        push_value(text, value)?;
    }
    Ok(())
}

// The values of a key, each behind a blank. Of numbers, addresses and bytes the kind is enough.
fn written(alloc: Global, values: &ValueList) -> io::Result<String> {
    let mut text = String::new(alloc);
    push_values(&mut text, values)?;
    Ok(text)
}

fn text_of(alloc: Global, value: &SlotValue) -> io::Result<String> {
    match value {
        SlotValue::Principal(_, id) => Ok(id.to_utf8()?),
        SlotValue::Word(text) => Ok(text.to_utf8()?),
        SlotValue::Values(values) => written(alloc, values),
    }
}

// The stated value of the slot under the schema.
fn stated_of(alloc: Global, schema: &Schema, slot: &Slot) -> io::Result<String>
    requires sound { SchemaIsSound schema.now }
    requires slot { SlotIsIn schema.now slot.now }
{
    let value = stated_value(alloc, schema, slot)?;
    text_of(alloc, &value)
}

// The stated value of the slot.
fn stated(alloc: Global, slot: &str, shape: &str) -> io::Result<String> {
    let slot = slot_named(slot)?;
    let schema = schema_of(alloc, shape)?;
    stated_of(alloc, &schema, &slot)
}

// The stated values of the key `k`.
fn stated_key(alloc: Global, rule: [&str; 3]) -> io::Result<String> {
    let schema = key_schema_of(alloc, rule)?;
    let slot = key_slot(alloc, &schema)?;
    stated_of(alloc, &schema, &slot)
}

/// The word at an index of a line, or the empty text behind the last one.
fn word(line: &str, i: usize) -> &str {
    line.split(' ').nth(i).unwrap_or("")
}

fn answer_to_ask(alloc: Global, line: &str) -> io::Result<String> {
    let (slot, shape, states) = (word(line, 1), word(line, 2), word(line, 3));
    let tests = [word(line, 4), word(line, 5), word(line, 6)];
    answer_to_question(alloc, slot, shape, states, tests)
}

/// The three words of a key's rule.
fn rule_words(line: &str) -> [&str; 3] {
    [word(line, 1), word(line, 2), word(line, 3)]
}

fn answer_to_key(alloc: Global, line: &str) -> io::Result<String> {
    let tests = [word(line, 5), word(line, 6), word(line, 7)];
    answer_on_key(alloc, rule_words(line), word(line, 4), tests)
}

/// The answer to a line of slots.
pub(crate) fn slot_answer(alloc: Global, line: &str) -> io::Result<String> {
    match word(line, 0) {
        "stated" => stated(alloc, word(line, 1), word(line, 2)),
        "ask" => answer_to_ask(alloc, line),
        "stated-key" => stated_key(alloc, rule_words(line)),
        "key" => answer_to_key(alloc, line),
        _ => Err(ErrorKind::InvalidData.into()),
    }
}
