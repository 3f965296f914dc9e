//! The conditions of a finding's statement.
ghost use Rattle.std.specs.Prelude.{◌≡◌, All, IfOk, OnOk, Some, fold};
ghost use Rattle.std.specs.Str.{encode_utf8_all};
ghost use Rattle.serde_json.specs.Data.{put};
ghost use Rattle.serde_json.specs.View.{members_view, view};
ghost use Rattle.wildcard_lang.specs.Text.{IsText};
ghost use Rattle.findings.specs.Findings.{IsFinding};
ghost use Rattle.policy_emit.specs.Emitted.{condition_on, conditions_in, key_conditions};
ghost use Rattle.policy_emit.specs.Written.{block_members, keys_under, members_in, with_condition};
ghost use Rattle.policy_emit.specs.Kept.{ConditionIsKept};

use crate::operators::operator_name;
use crate::part::{dimension_at, predicate_at};
use crate::texts::cond_json;
use findings::Finding;
use plain_lists::NoMemory;
use policy_model::{Cond, Schema, Slot};
use serde_json::{Map, Value as Json};
use std::alloc::Global;
use strata::{Predicate, Strata};
use wildcard_lang::Text;

// The members of an object, and none of any other value.
fn members_of(alloc: Global, value: Json) -> Map<String, Json>
    ensures { members_view result.entries ≡ members_in (Some (view value)) }
{
    match value {
        Json::Object(members) => members,
        _ => Map::new(alloc),
    }
}

// The keys that stand under an operator.
fn keys_under(
    alloc: Global,
    block: &Map<String, Json>,
    operator: &str,
) -> Result<Map<String, Json>, NoMemory>
    ensures { IfOk result (λ keys.
        members_view keys.entries ≡ keys_under operator.now (members_view block.now.entries)) }
{
    match block.get(operator) {
        Some(found) => Ok(members_of(alloc, found.clone()?)),
        None => Ok(Map::new(alloc)),
    }
}

// Puts a value at a key.
fn put_key(key: &Text, keys: &mut Map<String, Json>, value: Json) -> Result<(), NoMemory>
    ensures put { OnOk result (members_view keys.new.entries ≡
        put (encode_utf8_all key.now) (view value) (members_view keys.old.entries)) }
    ensures kept { IsText key.now }
{
    key.len();
    keys.insert(key.to_utf8()?, value)?;
    Ok(())
}

// Adds the condition that a value of the key meets what is asked.
fn add_condition(
    alloc: Global,
    schema: &Schema,
    key: &Text,
    cond: &Cond,
    block: &mut Map<String, Json>,
) -> Result<(), NoMemory>
    ensures added { OnOk result (members_view block.new.entries ≡
        with_condition (members_view block.old.entries)
        (condition_on schema.now key.now cond.now)) }
    ensures kept { OnOk result (ConditionIsKept (condition_on schema.now key.now cond.now)) }
{
    let operator = operator_name(alloc, schema, key, cond)?;
    let mut keys = keys_under(alloc, block, operator.as_str())?;
    put_key(key, &mut keys, cond_json(alloc, cond)?)?;
    block.insert(operator, Json::Object(keys))?;
    Ok(())
}

// Adds the condition of a dimension, where it is a key and the finding asks something of it.
fn add_dimension(
    alloc: Global,
    schema: &Schema,
    slot: &Slot,
    predicate: &Predicate,
    block: &mut Map<String, Json>,
) -> Result<(), NoMemory>
    ensures added { OnOk result (members_view block.new.entries ≡
        fold with_condition (members_view block.old.entries)
        (key_conditions schema.now slot.now predicate.now)) }
    ensures kept { OnOk result
        (All ConditionIsKept (key_conditions schema.now slot.now predicate.now)) }
{
    match (slot, predicate) {
        (Slot::Key(key), Predicate::Meets(cond)) => add_condition(alloc, schema, key, cond, block),
        _ => Ok(()),
    }
}

/// The operators of the finding's conditions, each with its keys.
pub(crate) fn conditions_block(
    alloc: Global,
    schema: &Schema,
    strata: &Strata,
    finding: &Finding,
) -> Result<Map<String, Json>, NoMemory>
    requires { IsFinding strata.now.dimensions finding.now }
    ensures block { IfOk result (λ block. members_view block.entries ≡
        block_members (conditions_in schema.now strata.now.dimensions finding.now)) }
    ensures kept { IfOk result (λ _. All ConditionIsKept
        (conditions_in schema.now strata.now.dimensions finding.now)) }
{
    let mut block = Map::new(alloc);
    'dimensions: for i in 0..finding.len() {
        let stratum = dimension_at(strata, i);
        let predicate = predicate_at(stratum, finding.as_slice()[i]);
        add_dimension(alloc, schema, &stratum.slot, predicate, &mut block)?;
    }
    Ok(block)
}
