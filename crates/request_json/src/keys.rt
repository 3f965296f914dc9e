//! The keys of a request file under a schema.
ghost use Rattle.std.specs.Prelude.{◌≡◌, ◌∷◌, [], All, IfOk, IsTrue};
ghost use Rattle.serde_json.specs.View.{members_view, view};
ghost use Rattle.json_shapes.specs.Json.{pairs_of};
ghost use Rattle.policy_model.specs.Requests.{EntryIsValid, IsOfKind, PermitsValues};
ghost use Rattle.request_schema.specs.SchemaRules.{are_of_kind, string_in, strings_of, values_of_kind};
ghost use Rattle.request_json.specs.RequestChecks.{request_check};
ghost use Rattle.request_json.specs.RequestKeys.{are_permitted, checks_by_rule, context_checks, context_from, request_key_checks, rule_at, values_read, with_key};
ghost use Rattle.request_json.specs.RequestShapes.{keys_of_request};
ghost use Rattle.request_json.specs.declared.fault.RequestCode.TheVariants.{Q3BadValue};
ghost use Rattle.json_shapes.specs.Checks.{IsReadOf};

use crate::fault::{RequestAnswer, RequestCode, refusal, require};
use json_shapes::members;
use policy_model::{Context, KeyRule, KeyRules, Kind, List, ValueList, permits_values};
use request_schema::value_written;
use serde_json::{Map, Value};
use std::alloc::Global;
use wildcard_lang::Text;

/// The string that a value is, or the empty one.
pub(crate) fn string_in(value: &Value) -> &str
    ensures { result.now ≡ string_in (view value.now) }
{
    value.as_str().unwrap_or("")
}

// The values that strings write, all of the kind.
fn read_each(
    alloc: Global,
    name: &str,
    kind: Kind,
    values: &[Value],
) -> Result<ValueList, RequestAnswer>
    ensures read { IsReadOf
        (request_check (are_of_kind kind (strings_of values.now)) Q3BadValue name.now ∷ [])
        (values_of_kind kind (strings_of values.now)) result }
    ensures kind { IfOk result (All (IsOfKind kind)) }
{
    let mut read = List::new(alloc);
    for value in values {
        let Some(value) = value_written(alloc, kind, string_in(value))? else {
            return Err(refusal(alloc, RequestCode::Q3BadValue, name));
        };
        read.push(value)?;
    }
    Ok(read)
}

// Whether the rule of a key permits these values, which are of its kind.
fn are_permitted(rule: &KeyRule, values: &ValueList) -> bool
    requires { All (IsOfKind rule.now.kind) values.now }
    ensures value { result ≡ are_permitted rule.now values.now }
    ensures permitted { IsTrue result → PermitsValues rule.now values.now }
{
    permits_values(rule, values)
}

// The values of a key of the schema.
fn read_values(
    alloc: Global,
    rule: &KeyRule,
    name: &str,
    values: &Value,
) -> Result<ValueList, RequestAnswer>
    ensures read { IsReadOf (request_key_checks rule.now (name.now, view values.now))
        (values_read rule.now (view values.now)) result }
    ensures permitted { IfOk result (PermitsValues rule.now) }
{
    let read = read_each(alloc, name, rule.kind, members(values))?;
    let permitted = are_permitted(rule, &read);
    require(alloc, permitted, RequestCode::Q4NotValid, name)?;
    Ok(read)
}

// Adds the values of a key of the file, where the schema has the key and the file gives it some.
fn add_key(
    alloc: Global,
    keys: &KeyRules,
    name: &str,
    values: &Value,
    mut context: Context,
) -> Result<Context, RequestAnswer>
    ensures read { IsReadOf
        (checks_by_rule (rule_at keys.now name.now) (name.now, view values.now))
        (with_key (rule_at keys.now name.now) context (name.now, view values.now)) result }
    ensures valid { IfOk result (λ new.
        All (EntryIsValid keys.now) context → All (EntryIsValid keys.now) new) }
{
    let key = Text::of(alloc, name)?.folded()?;
    let Some(rule) = keys.get(&key) else {
        return Ok(context);
    };
    let values = read_values(alloc, rule, name, values)?;
    if values.is_empty() {
        return Ok(context);
    }
    context.insert(key, values)?;
    Ok(context)
}

// The keys that an object gives values, those that have a rule alone.
fn read_context(
    alloc: Global,
    keys: &KeyRules,
    given: &Map<String, Value>,
) -> Result<Context, RequestAnswer>
    ensures read { IsReadOf (context_checks keys.now (pairs_of (members_view given.now.entries)))
        (context_from keys.now [] (pairs_of (members_view given.now.entries))) result }
    ensures valid { IfOk result (All (EntryIsValid keys.now)) }
{
    let mut context = Context::new(alloc);
    for (name, values) in given {
        context = add_key(alloc, keys, name.as_str(), values, context)?;
    }
    Ok(context)
}

/// The keys that a file gives values, those that have a rule alone.
pub(crate) fn read_keys(
    alloc: Global,
    keys: &KeyRules,
    file: &Value,
) -> Result<Context, RequestAnswer>
    ensures read { IsReadOf (context_checks keys.now (keys_of_request (view file.now)))
        (context_from keys.now [] (keys_of_request (view file.now))) result }
    ensures valid { IfOk result (All (EntryIsValid keys.now)) }
{
    match file.get("Context").and_then(Value::as_object) {
        Some(given) => read_context(alloc, keys, given),
        None => Ok(Context::new(alloc)),
    }
}
