//! Infers the schema of a run.
ghost use Rattle.std.specs.Prelude.{◌≡◌, All, IfOk, IfSome, OnOk, OnErr, option_map};
ghost use Rattle.std.specs.List.{flat_map};
ghost use Rattle.text_table.specs.Table.{item_at};
ghost use Rattle.policy_model.specs.Keys.{IsFolded};
ghost use Rattle.policy_model.specs.Soundness.{IsSound, SchemaFits, SchemaIsSound};
ghost use Rattle.request_schema.specs.BuiltIn.{with_rules};
ghost use Rattle.request_schema.specs.KeyUses.{AreUsesPassed, checks_by, rules_by, with_further};
ghost use Rattle.request_schema.specs.RunSchemas.{IsInferred, asks_one, expected_kind, is_named_plural, use_checks};
ghost use Rattle.request_schema.specs.Uses.{use_found, uses_found};

use crate::found::{FoundUse, uses_of};
use crate::infer_fault::{InferAnswer, infer_refusal};
use crate::key_use::{KeyUse, is_plain, kind_fixed, rule_made, summarise};
use policy_model::{EqualClone, Kind, NoMemory, Operator, PolicySet, Schema, takes_family};
use std::alloc::Global;
use text_table::Table;

// Whether the operator asks for a single value.
fn asks_one(operator: Operator) -> bool
    ensures { result ≡ asks_one operator }
{
    is_plain(operator.quantifier) && !operator.base.is_null()
}

// The kind of a named key, or else this one.
fn expected_kind(named: &Schema, fixed: Kind, found: &FoundUse) -> Kind
    ensures { result ≡ expected_kind named.now fixed (use_found found.now) }
{
    match named.get(&found.condition.key) {
        Some(rule) => rule.kind,
        None => fixed,
    }
}

// Whether the key is a named one that has several values.
fn is_named_plural(named: &Schema, found: &FoundUse) -> bool
    ensures { result ≡ is_named_plural named.now (use_found found.now) }
{
    match named.get(&found.condition.key) {
        Some(rule) => rule.many,
        None => false,
    }
}

// Whether a use fits its key, where its key's uses fix this kind.
fn check_use(named: &Schema, fixed: Kind, found: &FoundUse) -> Result<(), InferAnswer>
    ensures { AreUsesPassed (use_checks named.now fixed (use_found found.now)) result }
{
    let operator = found.condition.operator;
    if !takes_family(expected_kind(named, fixed, found), operator.base.family()) {
        return Err(infer_refusal(found, false));
    }
    if is_named_plural(named, found) && asks_one(operator) {
        return Err(infer_refusal(found, true));
    }
    Ok(())
}

// Whether each use fits its key.
fn check_uses(named: &Schema, table: &Table<KeyUse>, uses: &[FoundUse]) -> Result<(), InferAnswer>
    ensures { AreUsesPassed
        (flat_map (checks_by named.now table.now) (uses_found uses.now)) result }
{
    for found in uses {
        let fixed = kind_fixed(table, &found.condition.key);
        check_use(named, fixed, found)?;
    }
    Ok(())
}

// Gives a use's key its rule, where no named key is the use's.
fn add_further(
    named: &Schema,
    table: &Table<KeyUse>,
    schema: &mut Schema,
    found: &FoundUse,
) -> Result<(), NoMemory>
    requires { IsFolded found.now.condition.now.key }
    ensures { OnOk result (schema.new ≡ record schema.old {
      keys =
          with_further named.now.keys table.now schema.old.keys (use_found found.now);
    }) }
{
    let key = &found.condition.key;
    if named.get(key).is_none() {
        schema.insert(key.copy()?, rule_made(table, key))?;
    }
    Ok(())
}

// The named schema with each further key.
fn with_further(
    named: &Schema,
    table: &Table<KeyUse>,
    uses: &[FoundUse],
) -> Result<Schema, NoMemory>
    requires { All (λ u. IsFolded u.condition.key) (uses_found uses.now) }
    ensures { IfOk result (λ schema. schema ≡ record named.now {
      keys =
          with_rules named.now.keys (rules_by named.now.keys table.now (uses_found uses.now));
    }) }
{
    let mut schema = named.copy()?;
    for found in uses {
        add_further(named, table, &mut schema, found)?;
    }
    Ok(schema)
}

/// The schema of a run on one set or on two under named keys: each further key that a set uses has
/// a kind and a number of values by all operators on it. It fits the sets, and is sound where the
/// named schema is. `Refused` exactly where the sets have a condition that no such schema can
/// answer, with the first one in reading order. An operator that the key's kind doesn't take comes
/// before one without a prefix on several values. `NoMemory` only where there is no memory.
pub fn infer(
    alloc: Global,
    named: &Schema,
    first: &PolicySet,
    second: Option<&PolicySet>,
) -> Result<Schema, InferAnswer>
    requires first { IsSound first.now }
    requires second { IfSome second (λ set. IsSound set.now) }
    ensures value { IsInferred named.now first.now
        (option_map (λ set. set.now) second.entry) result }
    ensures fits { IfOk result (λ schema. SchemaFits schema first.now) }
    ensures fits_second { IfOk result (λ schema.
        IfSome second.entry (λ set. SchemaFits schema set.now)) }
    ensures sound { SchemaIsSound named.now → IfOk result SchemaIsSound }
{
    let uses = uses_of(alloc, first, second)?;
    let found = uses.as_slice();
    let table = summarise(alloc, found)?;
    check_uses(named, &table, found)?;
    let schema = with_further(named, &table, found)?;
    Ok(schema)
}
