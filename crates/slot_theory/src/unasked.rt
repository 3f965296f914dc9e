//! The values of slots that no test asks anything of.
ghost use Rattle.std.specs.Prelude.{◌≡◌, ◌≢◌, ◌++◌, Some, [], pos, IfOk, OnOk, IsSome, codes};
ghost use Rattle.text_table.specs.Table.{item_at};
ghost use Rattle.wildcard_lang.specs.Matching.{Matches};
ghost use Rattle.wildcard_lang.specs.Text.{IsText};
ghost use Rattle.policy_model.specs.Requests.{IsOfKind, IsValueOf, IsWord, ValueFits};
ghost use Rattle.policy_model.specs.Soundness.{RuleIsSound, SchemaIsSound, WordShapeIsSound};
ghost use Rattle.policy_model.specs.declared.test.Slot.TheVariants as slot;
ghost use Rattle.set_operators.specs.Asks.{AreValuesOf};
ghost use Rattle.slot_theory.specs.Slots.{Permits, SlotIsIn};
ghost use Rattle.slot_theory.specs.Unasked.{or_x, plain_value, sample, sample_of_piece, shaped_or, stated_key, stated_value, stated_values, stated_word};

use crate::outcome::SlotValue;
use cidr_bits::Address;
use intervals::{ByteList, Scaled};
use plain_lists::{EqualClone, NoMemory};
use policy_model::{KeyRule, Kind, PrincipalKind, Schema, Slot, Value, ValueList};
use std::alloc::Global;
use wildcard_lang::{Pattern, Piece, Text};

/// Adds the characters that stand for a piece.
fn push_sampled(chars: &mut Vec<char>, piece: &Piece) -> Result<(), NoMemory>
    ensures { OnOk result (chars.new.items ≡ chars.old.items ++ sample_of_piece piece.now) }
{
    match piece {
        Piece::Lit(c) | Piece::LitFold(c) => chars.push(*c)?,
        Piece::One | Piece::OneNoColon => chars.push('x')?,
        Piece::Many | Piece::ManyNoColon => {}
    }
    Ok(())
}

/// A text that the pattern matches, the shortest but for folded letters, with `x` for any character.
pub fn sample(alloc: Global, pattern: &Pattern) -> Result<Text, NoMemory>
    ensures value { IfOk result (λ t. t ≡ sample pattern.now) }
    ensures text { IfOk result IsText }
    ensures matches { IfOk result (Matches pattern.now) }
{
    let mut chars = Vec::new(alloc);
    for piece in pattern.as_slice() {
        push_sampled(&mut chars, piece)?;
    }
    Ok(Text::from_chars(chars))
}

/// The text `x`.
fn text_x(alloc: Global) -> Result<Text, NoMemory>
    ensures { IfOk result (λ t. t ≡ codes "x") }
{
    Text::of(alloc, "x")
}

/// A sample of the shape, or `x` in place of the empty one.
fn word_of_shape(alloc: Global, shape: &Pattern) -> Result<Text, NoMemory>
    requires { shape.now ≢ [] }
    ensures value { IfOk result (λ t. t ≡ or_x (sample shape.now)) }
    ensures word { IfOk result (IsWord (Some shape.now)) }
{
    let text = sample(alloc, shape)?;
    if text.is_empty() {
        let x = text_x(alloc)?;
        return Ok(x);
    }
    Ok(text)
}

/// The word of a slot without a test.
fn stated_word(alloc: Global, shape: &Option<Pattern>) -> Result<Text, NoMemory>
    requires { WordShapeIsSound shape.now }
    ensures value { IfOk result (λ t. t ≡ stated_word shape.now) }
    ensures word { IfOk result (IsWord shape.now) }
{
    match shape {
        None => {
            let x = text_x(alloc)?;
            Ok(x)
        }
        Some(pattern) => word_of_shape(alloc, pattern),
    }
}

// The number 0.
fn zero() -> Scaled
    ensures { result ≡ pos 0 }
{
    let Ok(zero) = Scaled::from_units(0) else {
        unreachable!()
    };
    zero
}

// `x`, true, 0, 0.0.0.0 or no bytes.
fn plain_value(alloc: Global, kind: Kind) -> Result<Value, NoMemory>
    ensures value { IfOk result (λ v. v ≡ plain_value kind) }
    ensures kind { IfOk result (IsOfKind kind) }
{
    match kind {
        Kind::Text => Ok(Value::Word(text_x(alloc)?)),
        Kind::Truth => Ok(Value::Truth(true)),
        Kind::Number => Ok(Value::Number(zero())),
        Kind::Address => Ok(Value::Address(Address::V4(0))),
        Kind::Bytes => Ok(Value::Bytes(ByteList::new(alloc))),
    }
}

// A sample of the key's shape, or a plain value where no shape is given.
fn unlisted_value(alloc: Global, rule: &KeyRule) -> Result<Value, NoMemory>
    requires sound { RuleIsSound rule.now }
    ensures value { IfOk result (λ v. v ≡ shaped_or rule.now.shape (plain_value rule.now.kind)) }
    ensures kind { IfOk result (IsOfKind rule.now.kind) }
    ensures fits { IfOk result (ValueFits rule.now.shape) }
{
    match &rule.shape {
        Some(shape) => Ok(Value::Word(sample(alloc, shape)?)),
        None => plain_value(alloc, rule.kind),
    }
}

// A copy of the first of the listed values.
fn first_listed(rule: &KeyRule, listed: &ValueList) -> Result<Value, NoMemory>
    requires among { rule.now.among ≡ Some listed.now }
    requires sound { RuleIsSound rule.now }
    ensures value { IfOk result (λ v. v ≡ stated_key rule.now) }
    ensures permitted { IfOk result (IsValueOf rule.now) }
{
    match listed.get(0) {
        Some(first) => first.copy(),
        None => unreachable!(),
    }
}

// The value of a required key.
fn stated_key(alloc: Global, rule: &KeyRule) -> Result<Value, NoMemory>
    requires sound { RuleIsSound rule.now }
    ensures value { IfOk result (λ v. v ≡ stated_key rule.now) }
    ensures permitted { IfOk result (IsValueOf rule.now) }
{
    match &rule.among {
        Some(listed) => first_listed(rule, listed),
        None => unlisted_value(alloc, rule),
    }
}

/// The values of a key that nothing is asked of. A key that isn't required has none. A required key has one: its first
/// listed value, or else a sample of its shape, or else `x`, true, 0, 0.0.0.0 or no bytes by its kind.
///
/// The rule is sound. The only error is want of memory.
pub fn stated_values(alloc: Global, rule: &KeyRule) -> Result<ValueList, NoMemory>
    requires sound { RuleIsSound rule.now }
    ensures value { IfOk result (λ vs. vs ≡ stated_values rule.now) }
    ensures permitted { IfOk result (AreValuesOf rule.now) }
{
    let mut values = ValueList::new(alloc);
    if rule.required {
        values.push(stated_key(alloc, rule)?)?;
    }
    Ok(values)
}

/// The values of a key of the schema that nothing is asked of.
fn values_of_key(alloc: Global, schema: &Schema, key: &Text) -> Result<SlotValue, NoMemory>
    requires sound { SchemaIsSound schema.now }
    requires there { IsSome (item_at key.now schema.now.keys) }
    ensures value { IfOk result (λ v. v ≡ stated_value schema.now (slot.Key key.now)) }
    ensures permitted { IfOk result (Permits schema.now (slot.Key key.now)) }
{
    match schema.get(key) {
        Some(rule) => Ok(SlotValue::Values(stated_values(alloc, rule)?)),
        None => unreachable!(),
    }
}

/// The value of a slot that nothing is asked of: of the principal an `AWS` id. An id, an action and a
/// resource are a sample of the slot's shape, or `x` where the slot has no shape or its sample is empty.
/// A key has the values of `stated_values`.
///
/// The schema is sound, and has the key where the slot is one. The only error is want of memory.
pub fn stated_value(alloc: Global, schema: &Schema, slot: &Slot) -> Result<SlotValue, NoMemory>
    requires sound { SchemaIsSound schema.now }
    requires slot { SlotIsIn schema.now slot.now }
    ensures value { IfOk result (λ v. v ≡ stated_value schema.now slot.now) }
    ensures permitted { IfOk result (Permits schema.now slot.now) }
{
    let shapes = &schema.shapes;
    match slot {
        Slot::Principal => {
            let id = stated_word(alloc, &shapes.aws)?;
            Ok(SlotValue::Principal(PrincipalKind::Aws, id))
        }
        Slot::Action => Ok(SlotValue::Word(stated_word(alloc, &shapes.action)?)),
        Slot::Resource => Ok(SlotValue::Word(stated_word(alloc, &shapes.resource)?)),
        Slot::Key(key) => values_of_key(alloc, schema, key),
    }
}
