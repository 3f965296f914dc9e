//! The operators of conditions.
ghost use Rattle.std.specs.Prelude.{◌≡◌, false, IfOk, string_bytes};
ghost use Rattle.policy_json.specs.OperatorNames.{base_text, operator_text, operator_with, quantifier_text};
ghost use Rattle.policy_emit.specs.Emitted.{cond_base, has_several, key_quantifier, numeric_base, pattern_base};

use findings::{some_is_narrow, some_takes_either_case};
use intervals::Compare;
use plain_lists::NoMemory;
use policy_model::{Cond, Schema};
use std::alloc::Global;
use wildcard_lang::{Pattern, Text};

// The name of a pattern's operator.
fn pattern_operator(pattern: &Pattern) -> &'static str
    ensures { result.now ≡ base_text (pattern_base pattern.now) }
{
    if some_is_narrow(pattern.as_slice()) {
        return "ArnLike";
    }
    if some_takes_either_case(pattern.as_slice()) {
        return "StringEqualsIgnoreCase";
    }
    "StringLike"
}

// The name of a comparison's operator.
fn numeric_operator(compare: Compare) -> &'static str
    ensures { result.now ≡ base_text (numeric_base compare) }
{
    match compare {
        Compare::Equal => "NumericEquals",
        Compare::Less => "NumericLessThan",
        Compare::LessOrEqual => "NumericLessThanEquals",
        Compare::Greater => "NumericGreaterThan",
        Compare::GreaterOrEqual => "NumericGreaterThanEquals",
    }
}

// The name of the operator of what is asked of a value, without a prefix.
fn cond_operator(cond: &Cond) -> &'static str
    ensures { result.now ≡ base_text (cond_base cond.now) }
{
    match cond {
        Cond::Matches(pattern) => pattern_operator(pattern),
        Cond::Compares(compare, _) => numeric_operator(*compare),
        Cond::Inside(_) => "IpAddress",
        Cond::Flag(_, _) => "Bool",
        Cond::Equals(_) => "BinaryEquals",
    }
}

// Whether the schema gives the key several values.
fn has_several(schema: &Schema, key: &Text) -> bool
    ensures { result ≡ has_several schema.now key.now }
{
    match schema.get(key) {
        Some(rule) => rule.many,
        None => false,
    }
}

// The prefix of the operators on a key.
fn key_prefix(schema: &Schema, key: &Text) -> &'static str
    ensures { result.now ≡ quantifier_text (key_quantifier schema.now key.now) }
{
    if has_several(schema, key) {
        "ForAnyValue:"
    } else {
        ""
    }
}

/// The name of the operator by which a value of the key meets what is asked.
pub(crate) fn operator_name(
    alloc: Global,
    schema: &Schema,
    key: &Text,
    cond: &Cond,
) -> Result<String, NoMemory>
    ensures { IfOk result (λ s. string_bytes s ≡ operator_text
        (operator_with (cond_base cond.now) (key_quantifier schema.now key.now) false)) }
{
    let prefix = key_prefix(schema, key);
    let operator = cond_operator(cond);
    format!(in alloc; "{prefix}{operator}")
}
