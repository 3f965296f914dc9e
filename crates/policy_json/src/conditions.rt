//! Reads the conditions of a statement.
ghost use Rattle.std.specs.Prelude.{◌≡◌, IfOk, OnOk, Some, All};
ghost use Rattle.std.specs.List.{list_all};
ghost use Rattle.serde_json.specs.View.{members_view, view};
ghost use Rattle.policy_model.specs.Soundness.{ConditionIsSound};
ghost use Rattle.json_shapes.specs.Json.{pairs_of, views};
ghost use Rattle.policy_json.specs.Conditions.{AddsKeys, AddsOperator, AreConditionsRead, AreKeysRead, AreOperatorsRead, IsConditionElementRead, IsConditionRead, IsOperatorRead, is_single};

use crate::fault::{PolicyAnswer, PolicyCode, refusal};
use crate::location::Location;
use crate::operands::{KeyLocation, read_operands};
use crate::operator_names::operator_of;
use json_shapes::members;
use plain_lists::List;
use policy_model::{Condition, ConditionList, Operator};
use serde_json::{Map, Value};
use std::alloc::Global;
use wildcard_lang::Text;

// Whether the value is a string, a boolean or a number.
fn is_single(value: &Value) -> bool
    ensures { result ≡ is_single (view value.now) }
{
    match value {
        Value::String(_) | Value::Bool(_) | Value::Number(_) => true,
        _ => false,
    }
}

// Whether each of the values is one of these.
fn are_single(values: &[Value]) -> bool
    ensures { result ≡ list_all is_single (views values.now) }
{
    for value in values {
        if !is_single(value) {
            return false;
        }
    }
    true
}

// The condition of a key.
fn read_key(alloc: Global, at: KeyLocation, value: &Value) -> Result<Condition, PolicyAnswer>
    ensures { IsConditionRead at.entry (view value.now) result }
{
    let values = members(value);
    if !are_single(values) {
        return Err(refusal(alloc, at.location, PolicyCode::P4WrongShape, at.key));
    }
    let values = read_operands(alloc, at, values)?;
    let written = Text::of(alloc, at.key)?;
    let key = written.folded()?;
    Ok(Condition {
        operator: at.operator,
        key,
        written,
        values,
    })
}

// Adds the conditions of the keys of an operator.
fn read_keys(
    alloc: Global,
    location: Location,
    operator: Operator,
    escapes: bool,
    keys: &Map<String, Value>,
    conditions: &mut ConditionList,
) -> Result<(), PolicyAnswer>
    ensures read { AreKeysRead location operator escapes
        (pairs_of (members_view keys.now.entries)) result }
    ensures added { OnOk result (AddsKeys operator escapes
        (pairs_of (members_view keys.now.entries)) conditions.old conditions.new) }
{
    for (key, value) in keys {
        let at = KeyLocation {
            location,
            key: key.as_str(),
            operator,
            escapes,
        };
        let condition = read_key(alloc, at, value)?;
        conditions.push(condition)?;
    }
    Ok(())
}

// Adds the conditions of an operator.
fn read_operator(
    alloc: Global,
    location: Location,
    escapes: bool,
    name: &str,
    value: &Value,
    conditions: &mut ConditionList,
) -> Result<(), PolicyAnswer>
    ensures read { IsOperatorRead location escapes (name.now, view value.now) result }
    ensures added { OnOk result
        (AddsOperator escapes (name.now, view value.now) conditions.old conditions.new) }
{
    let Some(operator) = operator_of(name) else {
        return Err(refusal(alloc, location, PolicyCode::P12UnknownOperator, name));
    };
    let Some(keys) = value.as_object() else {
        return Err(refusal(alloc, location, PolicyCode::P4WrongShape, name));
    };
    read_keys(alloc, location, operator, escapes, keys, conditions)
}

// The conditions of the operators of a statement.
fn read_operators(
    alloc: Global,
    location: Location,
    escapes: bool,
    operators: &Map<String, Value>,
) -> Result<ConditionList, PolicyAnswer>
    ensures { AreOperatorsRead location escapes
        (pairs_of (members_view operators.now.entries)) result }
{
    let mut conditions = List::new(alloc);
    for (name, keys) in operators {
        read_operator(
            alloc,
            location,
            escapes,
            name.as_str(),
            keys,
            &mut conditions,
        )?;
    }
    Ok(conditions)
}

// The conditions of an element of conditions.
fn read_element(
    alloc: Global,
    location: Location,
    escapes: bool,
    element: &Value,
) -> Result<ConditionList, PolicyAnswer>
    ensures { IsConditionElementRead location escapes (Some (view element.now)) result }
{
    match element.as_object() {
        Some(operators) => read_operators(alloc, location, escapes, operators),
        None => Err(refusal(alloc, location, PolicyCode::P4WrongShape, "Condition")),
    }
}

/// The conditions of a statement, none where it has no such element, or the first fault of the element:
/// operator by operator in the order of their names, under each key by key, and there value by value.
pub(crate) fn read_conditions(
    alloc: Global,
    location: Location,
    escapes: bool,
    statement: &Value,
) -> Result<ConditionList, PolicyAnswer>
    ensures read { AreConditionsRead location escapes (view statement.now) result }
    ensures sound { IfOk result (All ConditionIsSound) }
{
    match statement.get("Condition") {
        Some(element) => read_element(alloc, location, escapes, element),
        None => Ok(List::new(alloc)),
    }
}
