//! Which requests are valid.
ghost use Rattle.std.specs.Prelude.{◌≡◌, ◌<◌, ◌↔◌, IsTrue, All};
ghost use Rattle.intervals.specs.Scaled.{IsScaled};
ghost use Rattle.cidr_bits.specs.Numbers.{IsAddress};
ghost use Rattle.wildcard_lang.specs.Text.{IsText};
ghost use Rattle.policy_model.specs.Requests.{EntryIsValid, FitsShape, HasValue, IsValid, PermitsValues, IsListed, IsOfKind, IsThere, KeysAreValid, WordsAreValid, IsValueOf, IsWord, ValueFits, shape_of};

use crate::context::Context;
use crate::principal::PrincipalKind;
use crate::request::Request;
use crate::schema::{KeyRule, KeyRules, Schema, Shapes};
use crate::value::{Kind, Value, ValueList};
use cidr_bits::Address;
use intervals::{ByteList, Scaled};
use wildcard_lang::{Pattern, Text, matches};

fn fits_shape(shape: &Option<Pattern>, text: &Text) -> bool
    ensures { IsTrue result ↔ FitsShape shape.now text.now }
{
    match shape {
        None => true,
        Some(pattern) => matches(pattern, text),
    }
}

/// Whether the text is a word of the shape: it isn't empty, and the shape, where one is given, accepts it.
/// It takes no memory.
pub fn is_word(shape: &Option<Pattern>, text: &Text) -> bool
    ensures { IsTrue result ↔ IsWord shape.now text.now }
{
    !text.is_empty() && fits_shape(shape, text)
}

/// The shape of the ids of this kind of principals, where one is given.
pub fn shape_of(shapes: &Shapes, kind: PrincipalKind) -> &Option<Pattern>
    ensures { result.now ≡ shape_of shapes.now kind }
{
    match kind {
        PrincipalKind::Aws => &shapes.aws,
        PrincipalKind::Service => &shapes.service,
        PrincipalKind::Federated => &shapes.federated,
        PrincipalKind::CanonicalUser => &shapes.canonical_user,
    }
}

// The types keep numbers, addresses and bytes in their ranges. The comparisons, which are always true,
// are how a proof comes to know it.
fn is_scaled(number: Scaled) -> bool
    ensures { IsTrue result ↔ IsScaled number }
{
    number.units() <= i128::MAX
}

fn is_address(address: Address) -> bool
    ensures { IsTrue result ↔ IsAddress address }
{
    match address {
        Address::V4(number) => number <= u32::MAX,
        Address::V6(number) => number <= u128::MAX,
    }
}

fn are_bytes(bytes: &ByteList) -> bool
    ensures { IsTrue result ↔ All (λ b. b < 256) bytes.now }
{
    bytes.as_slice().iter().all(|byte| *byte <= u8::MAX)
}

fn is_of_kind(kind: Kind, value: &Value) -> bool
    ensures { IsTrue result ↔ IsOfKind kind value.now }
{
    match value {
        Value::Word(text) => kind == Kind::Text && is_text(text),
        Value::Truth(_) => kind == Kind::Truth,
        Value::Number(number) => kind == Kind::Number && is_scaled(*number),
        Value::Address(address) => kind == Kind::Address && is_address(*address),
        Value::Bytes(bytes) => kind == Kind::Bytes && are_bytes(bytes),
    }
}

fn value_fits(shape: &Option<Pattern>, value: &Value) -> bool
    ensures { IsTrue result ↔ ValueFits shape.now value.now }
{
    match value {
        Value::Word(text) => fits_shape(shape, text),
        _ => true,
    }
}

fn is_listed(among: &Option<ValueList>, value: &Value) -> bool
    ensures { IsTrue result ↔ IsListed among.now value.now }
{
    match among {
        None => true,
        Some(listed) => listed.as_slice().contains(value),
    }
}

/// Whether the rule of a key permits the value: it is of the rule's kind, of its shape and among its
/// listed values, where these are given. It takes no memory.
pub fn is_value_of(rule: &KeyRule, value: &Value) -> bool
    ensures { IsTrue result ↔ IsValueOf rule.now value.now }
{
    is_of_kind(rule.kind, value) && value_fits(&rule.shape, value) && is_listed(&rule.among, value)
}

/// Whether the rule of a key permits these values together: it permits each, and a key that isn't given
/// several has at most one. It takes no memory.
pub fn permits_values(rule: &KeyRule, values: &ValueList) -> bool
    ensures { IsTrue result ↔ PermitsValues rule.now values.now }
{
    (rule.many || values.len() <= 1)
        && values
            .as_slice()
            .iter()
            .all(|value| is_value_of(rule, value))
}

// A key that the schema lacks is refused.
fn entry_is_valid(keys: &KeyRules, key: &Text, values: &ValueList) -> bool
    ensures { IsTrue result ↔ EntryIsValid keys.now (key.now, values.now) }
{
    match keys.get(key) {
        None => false,
        Some(rule) => permits_values(rule, values),
    }
}

pub(crate) fn entries_are_valid(keys: &KeyRules, context: &Context) -> bool
    ensures { IsTrue result ↔ All (EntryIsValid keys.now) context.now }
{
    for (key, values) in context.iter() {
        if !entry_is_valid(keys, key, values) {
            return false;
        }
    }
    true
}

fn is_there(context: &Context, key: &Text, rule: &KeyRule) -> bool
    ensures { IsTrue result ↔ IsThere context.now (key.now, rule.now) }
{
    !rule.required || has_value(context, key)
}

pub(crate) fn has_value(context: &Context, key: &Text) -> bool
    ensures { IsTrue result ↔ HasValue context.now key.now }
{
    context.get(key).is_some()
}

fn required_are_there(keys: &KeyRules, context: &Context) -> bool
    ensures { IsTrue result ↔ All (IsThere context.now) keys.now }
{
    for (key, rule) in keys.iter() {
        if !is_there(context, key, rule) {
            return false;
        }
    }
    true
}

fn is_text(text: &Text) -> bool
    ensures { IsTrue result ↔ IsText text.now }
{
    text.len() <= usize::MAX
}

pub(crate) fn words_are_valid(shapes: &Shapes, request: &Request) -> bool
    ensures { IsTrue result ↔ WordsAreValid shapes.now request.now }
{
    is_word(shape_of(shapes, request.kind), &request.id)
        && is_word(&shapes.action, &request.action)
        && is_word(&shapes.resource, &request.resource)
}

fn keys_are_valid(keys: &KeyRules, context: &Context) -> bool
    ensures { IsTrue result ↔ KeysAreValid keys.now context.now }
{
    entries_are_valid(keys, context) && required_are_there(keys, context)
}

/// Whether the request is valid under the schema. It takes no memory.
pub fn valid(schema: &Schema, request: &Request) -> bool
    ensures { IsTrue result ↔ IsValid schema.now request.now }
{
    words_are_valid(&schema.shapes, request) && keys_are_valid(&schema.keys, &request.context)
}
