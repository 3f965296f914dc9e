//! Reads schema files.
ghost use Rattle.std.specs.Prelude.{◌≡◌, [], IfOk, OnOk, if◌then◌else◌};
ghost use Rattle.serde_json.specs.View.{view, members_view};
ghost use Rattle.json_shapes.specs.Json.{pairs_of};
ghost use Rattle.text_table.specs.Table.{with_item};
ghost use Rattle.policy_model.specs.Soundness.{RuleIsSound, SchemaIsSound};
ghost use Rattle.request_schema.specs.BuiltIn.{RulesAreSound, built_in_rules, folded_name, with_rules};
ghost use Rattle.request_schema.specs.SchemaHeads.{is_second};
ghost use Rattle.request_schema.specs.SchemaFiles.{IsSchemaFrom, keys_in, schema_checks, schema_of};
ghost use Rattle.request_schema.specs.SchemaRules.{is_noted, keys_checks, rule_checks, rule_of, rules_of};
ghost use Rattle.json_shapes.specs.Checks.{IsReadOf};

use crate::global_keys::built_in_rules;
use crate::head::{check_file, is_second};
use crate::rules::read_rule;
use crate::schema_fault::{SchemaAnswer, SchemaCode, refusal};
use crate::words::read_words;
use json_shapes::read_json;
use policy_model::{KeyRules, Schema};
use serde_json::{Map, Value};
use std::alloc::Global;
use text_table::Table;
use wildcard_lang::Text;

// Reads a key of a file, notes its name, and puts its rule among the others.
fn add_rule(
    alloc: Global,
    second: bool,
    name: &str,
    rule: &Value,
    seen: &mut Table<()>,
    rules: &mut KeyRules,
) -> Result<(), SchemaAnswer>
    ensures read { IsReadOf
        (rule_checks second (is_noted seen.old name.now) (name.now, view rule.now)) tt result }
    ensures noted { OnOk result (seen.new ≡ with_item seen.old (folded_name name.now) tt) }
    ensures added { OnOk result (rules.new ≡
        with_item rules.old (folded_name name.now) (rule_of (view rule.now))) }
    ensures sound { OnOk result (RuleIsSound (rule_of (view rule.now))) }
{
    let key = Text::of(alloc, name)?.folded()?;
    let twice = seen.get(&key).is_some();
    seen.insert(key.copy()?, ())?;
    let rule = read_rule(alloc, second, twice, name, rule)?;
    rules.insert(key, rule)?;
    Ok(())
}

// Reads the keys of a file, and puts their rules among those of the built-in ones.
fn read_rules(
    alloc: Global,
    second: bool,
    keys: &Map<String, Value>,
) -> Result<KeyRules, SchemaAnswer>
    ensures read { IsReadOf (keys_checks second [] (pairs_of (members_view keys.now.entries)))
        (with_rules built_in_rules (rules_of (pairs_of (members_view keys.now.entries)))) result }
    ensures sound { IfOk result RulesAreSound }
{
    let mut rules = built_in_rules(alloc)?;
    let mut seen: Table<()> = Table::new(alloc);
    for (name, rule) in keys {
        add_rule(alloc, second, name.as_str(), rule, &mut seen, &mut rules)?;
    }
    Ok(rules)
}

// The rules of the keys that a file has, and of the built-in ones.
fn read_keys(alloc: Global, second: bool, file: &Value) -> Result<KeyRules, SchemaAnswer>
    ensures read { IsReadOf (keys_checks second [] (keys_in (view file.now)))
        (with_rules built_in_rules (rules_of (keys_in (view file.now)))) result }
    ensures sound { IfOk result RulesAreSound }
{
    match file.get("Keys").and_then(Value::as_object) {
        Some(keys) => read_rules(alloc, second, keys),
        None => Ok(built_in_rules(alloc)?),
    }
}

// The number of a file's version.
fn version_number(second: bool) -> u32
    ensures { result ≡ (if second then 2 else 1) }
{
    if second { 2 } else { 1 }
}

// The schema of a file that is JSON.
fn read_file(alloc: Global, file: &Value) -> Result<Schema, SchemaAnswer>
    ensures read { IsReadOf (schema_checks (view file.now)) (schema_of (view file.now)) result }
    ensures sound { IfOk result SchemaIsSound }
{
    check_file(alloc, file)?;
    let second = is_second(file);
    let keys = read_keys(alloc, second, file)?;
    let shapes = read_words(alloc, file)?;
    Ok(Schema {
        version: version_number(second),
        keys,
        shapes,
    })
}

/// The schema that a file stands for: the built-in keys, replaced by the file's keys of equal names, and the
/// file's shapes. The schema is sound. `Refused` with the file's first fault
/// exactly where it has one: first come those of the file as a whole, then key by key in the order
/// of their names, then shape by shape. `NoMemory` only where there is no memory.
pub fn read_schema(alloc: Global, bytes: &[u8]) -> Result<Schema, SchemaAnswer>
    ensures value { IsSchemaFrom bytes.now result }
    ensures sound { IfOk result SchemaIsSound }
{
    let Some(file) = read_json(alloc, bytes)? else {
        return Err(refusal(alloc, SchemaCode::S1NotJson, ""));
    };
    read_file(alloc, &file)
}
