//! Whether conditions hold of a request (IAM JSON policy reference, condition operators).
ghost use Rattle.std.specs.Prelude.{◌↔◌, IsTrue, All, Any};
ghost use Rattle.policy_model.specs.Conds.{MeetsSome};
ghost use Rattle.policy_model.specs.Conditions.{ConditionHolds, HoldsOfValues, NullHolds, OneMatches, OperatorHolds, ValueMatches, ValuesMatch, conds_of};
ghost use Rattle.policy_model.specs.Operators.{is_negated};

use policy_model::{
    Condition, ConditionList, Kind, Operand, Quantifier, Request, Schema, Value, operand_meets,
};

// Whether the value meets some of what the condition's values ask.
fn meets_some(kind: Kind, condition: &Condition, value: &Value) -> bool
    ensures { IsTrue result ↔ MeetsSome (conds_of kind condition.now) value.now }
{
    let base = condition.operator.base;
    condition
        .values
        .as_slice()
        .iter()
        .any(|operand| operand_meets(kind, base, operand, value))
}

fn value_matches(kind: Kind, condition: &Condition, value: &Value) -> bool
    ensures { IsTrue result ↔ ValueMatches kind condition.now value.now }
{
    meets_some(kind, condition, value) != condition.operator.base.is_negated()
}

// Without a prefix.
fn one_matches(kind: Kind, condition: &Condition, values: &[Value]) -> bool
    ensures { IsTrue result ↔ OneMatches (is_negated condition.now.operator.base)
        (ValueMatches kind condition.now) values.now }
{
    match values {
        [] => condition.operator.base.is_negated(),
        [value] => value_matches(kind, condition, value),
        _ => false,
    }
}

// With `ForAllValues:`.
fn all_match(kind: Kind, condition: &Condition, values: &[Value]) -> bool
    ensures { IsTrue result ↔ All (ValueMatches kind condition.now) values.now }
{
    values
        .iter()
        .all(|value| value_matches(kind, condition, value))
}

// With `ForAnyValue:`.
fn any_matches(kind: Kind, condition: &Condition, values: &[Value]) -> bool
    ensures { IsTrue result ↔ Any (ValueMatches kind condition.now) values.now }
{
    values
        .iter()
        .any(|value| value_matches(kind, condition, value))
}

// By the prefix of the operator.
fn values_match(kind: Kind, condition: &Condition, values: &[Value]) -> bool
    ensures { IsTrue result ↔ ValuesMatch kind condition.now values.now }
{
    match condition.operator.quantifier {
        Quantifier::Plain => one_matches(kind, condition, values),
        Quantifier::ForAll => all_match(kind, condition, values),
        Quantifier::ForAny => any_matches(kind, condition, values),
    }
}

// Whether the truth value of a `Null` is whether the key is absent.
fn null_holds(values: &[Value], operand: &Operand) -> bool
    ensures { IsTrue result ↔ NullHolds values.now operand.now }
{
    match operand {
        Operand::Truth(absent) => values.is_empty() == *absent,
        _ => false,
    }
}

fn some_null_holds(values: &[Value], condition: &Condition) -> bool
    ensures { IsTrue result ↔ Any (NullHolds values.now) condition.now.values }
{
    condition
        .values
        .as_slice()
        .iter()
        .any(|operand| null_holds(values, operand))
}

// Without `IfExists`.
fn operator_holds(kind: Kind, condition: &Condition, values: &[Value]) -> bool
    ensures { IsTrue result ↔ OperatorHolds kind condition.now values.now }
{
    if condition.operator.base.is_null() {
        some_null_holds(values, condition)
    } else {
        values_match(kind, condition, values)
    }
}

fn holds_of_values(kind: Kind, condition: &Condition, values: &[Value]) -> bool
    ensures { IsTrue result ↔ HoldsOfValues kind condition.now values.now }
{
    (condition.operator.if_exists && values.is_empty()) || operator_holds(kind, condition, values)
}

// Whether the condition holds of the request.
fn condition_holds(schema: &Schema, condition: &Condition, request: &Request) -> bool
    ensures { IsTrue result ↔ ConditionHolds schema.now request.now condition.now }
{
    let kind = schema.kind_at(&condition.key);
    holds_of_values(kind, condition, request.values_at(&condition.key))
}

// Whether each condition holds of the request.
pub(crate) fn conditions_hold(
    schema: &Schema,
    conditions: &ConditionList,
    request: &Request,
) -> bool
    ensures { IsTrue result ↔ All (ConditionHolds schema.now request.now) conditions.now }
{
    conditions
        .as_slice()
        .iter()
        .all(|condition| condition_holds(schema, condition, request))
}
