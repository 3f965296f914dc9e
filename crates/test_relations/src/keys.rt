//! What a schema says of a key.
ghost use Rattle.std.specs.Prelude.{◌≡◌, IsTrue};
ghost use Rattle.policy_model.specs.Soundness.{IsKeyWith};
ghost use Rattle.test_relations.specs.Parts.{EachValueMeets, IsRequired, IsSingle};

use crate::words::matches_each;
use policy_model::{Cond, KeyRule, Kind, Schema};
use wildcard_lang::Text;

// Whether the schema has the key, and gives it one value at most.
fn is_single(schema: &Schema, key: &Text) -> bool
    ensures { IsTrue result → IsKeyWith schema.now IsSingle key.now }
{
    match schema.get(key) {
        Some(rule) => !rule.many,
        None => false,
    }
}

/// Whether the schema has the key, and requires it.
pub(crate) fn is_required(schema: &Schema, key: &Text) -> bool
    ensures { IsTrue result → IsKeyWith schema.now IsRequired key.now }
{
    match schema.get(key) {
        Some(rule) => rule.required,
        None => false,
    }
}

/// Whether both are one key.
pub(crate) fn is_one_key(key: &Text, also: &Text) -> bool
    ensures { IsTrue result → key.now ≡ also.now }
{
    key == also
}

/// Whether both are one key, to which the schema gives one value at most.
pub(crate) fn is_one_single_key(schema: &Schema, key: &Text, also: &Text) -> bool
    ensures { IsTrue result → (key.now ≡ also.now) × IsKeyWith schema.now IsSingle key.now }
{
    is_one_key(key, also) && is_single(schema, key)
}

// Whether each value that the rule permits meets what is asked.
fn each_value_meets(one: &Cond, rule: &KeyRule) -> bool
    ensures { IsTrue result → EachValueMeets one.now rule.now }
{
    match (rule.kind, one) {
        (Kind::Text, Cond::Matches(pattern)) => matches_each(pattern, &rule.shape),
        _ => false,
    }
}

/// Whether the schema has the key, and each value that it lets the key have meets what is asked.
pub(crate) fn is_met_by_each(schema: &Schema, key: &Text, one: &Cond) -> bool
    ensures { IsTrue result → IsKeyWith schema.now (EachValueMeets one.now) key.now }
{
    match schema.get(key) {
        Some(rule) => each_value_meets(one, rule),
        None => false,
    }
}
