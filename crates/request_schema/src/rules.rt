//! Reads the rules of a schema file's keys.
ghost use Rattle.std.specs.Prelude.{◌≡◌, [], ◌∷◌, All, IfOk, IfSome, option_map};
ghost use Rattle.std.specs.List.{list_all};
ghost use Rattle.serde_json.specs.Find.{get};
ghost use Rattle.serde_json.specs.View.{view};
ghost use Rattle.json_shapes.specs.Shapes.{is_string, is_there_and, where_there, is_object_of};
ghost use Rattle.policy_model.specs.Requests.{IsOfKind};
ghost use Rattle.policy_model.specs.Soundness.{RuleIsSound};
ghost use Rattle.wildcard_lang.specs.Patterns.{IsPattern};
ghost use Rattle.request_schema.specs.SchemaChecks.{schema_check};
ghost use Rattle.request_schema.specs.SchemaRules.{SchemaLimits, among_of, are_few, are_of_kind, rule_form_checks, has_kind, has_limits, is_list_of_strings, is_rule, is_short, is_some_list, is_text_kind, is_truth, kind_in, kind_named, kind_of_rule, listed_checks, listed_in, rule_checks, rule_names, rule_of, shape_checks, shape_in, shape_pieces, string_at, string_in, strings_of, truth_at, value_kind_checks, values_of_kind};
ghost use Rattle.request_schema.specs.declared.schema_fault.SchemaCode.TheVariants.{S8BadValue, S9Limit};
ghost use Rattle.json_shapes.specs.Checks.{IsReadOf};

use crate::requirement::require;
use crate::schema_fault::{SchemaAnswer, SchemaCode, refusal};
use crate::value_text::value_written;
use json_shapes::{are_strings, has, is_absent_or_string, is_list, is_object_of, values_in};
use policy_model::{KeyRule, Kind, List, ValueList};
use serde_json::Value;
use std::alloc::Global;
use wildcard_lang::{MOST_PIECES, Pattern, PatternFault, read_glob};

/// The most values that a key may list.
pub const MOST_VALUES: usize = 100;

/// A key lists at most 100 values, and a text among them has at most 2,048 characters.
pub fn schema_limits()
    ensures { SchemaLimits }
{}

// Whether the rule is an object, of the names that rules in files of the version may have.
fn has_names(second: bool, rule: &Value) -> bool
    ensures { result ≡ is_object_of (rule_names second) (view rule.now) }
{
    if second {
        is_object_of(&["Kind", "Many", "Required", "Values", "Shape"], rule)
    } else {
        is_object_of(&["Kind", "Many"], rule)
    }
}

// Whether the element is a string.
fn is_string_at(object: &Value, name: &str) -> bool
    ensures { result ≡ is_there_and is_string (get name.now (view object.now)) }
{
    match object.get(name) {
        Some(element) => element.is_string(),
        None => false,
    }
}

// Whether the element is a truth value, or absent.
fn is_absent_or_truth(object: &Value, name: &str) -> bool
    ensures { result ≡ where_there is_truth (get name.now (view object.now)) }
{
    match object.get(name) {
        Some(element) => element.is_boolean(),
        None => true,
    }
}

// Whether the element is a list of strings, or absent.
fn is_absent_or_strings(object: &Value, name: &str) -> bool
    ensures { result ≡ where_there is_list_of_strings (get name.now (view object.now)) }
{
    match object.get(name) {
        Some(element) => is_list(element) && are_strings(values_in(element)),
        None => true,
    }
}

// Whether a kind stands in the rule, and its truth values are such.
fn has_kind(rule: &Value) -> bool
    ensures { result ≡ has_kind (view rule.now) }
{
    is_string_at(rule, "Kind")
        && is_absent_or_truth(rule, "Many")
        && is_absent_or_truth(rule, "Required")
}

// Whether values and a shape in the rule are of their forms, and don't stand together.
fn has_limits(rule: &Value) -> bool
    ensures { result ≡ has_limits (view rule.now) }
{
    is_absent_or_strings(rule, "Values")
        && is_absent_or_string(rule, "Shape")
        && !(has(rule, "Values") && has(rule, "Shape"))
}

// Whether the rule is of its form.
fn is_rule(second: bool, rule: &Value) -> bool
    ensures { result ≡ is_rule second (view rule.now) }
{
    has_names(second, rule) && has_kind(rule) && has_limits(rule)
}

/// The string that a value is, or the empty one.
pub(crate) fn string_in(value: &Value) -> &str
    ensures { result.now ≡ string_in (view value.now) }
{
    value.as_str().unwrap_or("")
}

/// The string under a name, where one stands there.
pub(crate) fn string_at<'a>(object: &'a Value, name: &str) -> Option<&'a str>
    ensures { option_map (λ s. s.now) result ≡ string_at name.now (view object.now) }
{
    object.get(name).and_then(Value::as_str)
}

// The truth value under a name, or false where none stands there.
fn truth_at(object: &Value, name: &str) -> bool
    ensures { result ≡ truth_at name.now (view object.now) }
{
    object.get(name).and_then(Value::as_bool).unwrap_or(false)
}

// The kind of a name.
fn kind_named(name: &str) -> Option<Kind>
    ensures { result ≡ kind_named name.now }
{
    match name {
        "text" => Some(Kind::Text),
        "truth" => Some(Kind::Truth),
        "number" => Some(Kind::Number),
        "address" => Some(Kind::Address),
        "bytes" => Some(Kind::Bytes),
        _ => None,
    }
}

// The kind of a rule.
fn kind_in(rule: &Value) -> Option<Kind>
    ensures { result ≡ kind_in (view rule.now) }
{
    match string_at(rule, "Kind") {
        Some(name) => kind_named(name),
        None => None,
    }
}

fn is_text_kind(kind: Kind) -> bool
    ensures { result ≡ is_text_kind kind }
{
    match kind {
        Kind::Text => true,
        _ => false,
    }
}

// The listed texts of a rule, where some are listed.
fn listed_in(rule: &Value) -> Option<&[Value]>
    ensures { option_map (λ v. strings_of v.now) result ≡ listed_in (view rule.now) }
{
    match rule.get("Values") {
        Some(values) => Some(values_in(values)),
        None => None,
    }
}

// Whether a pattern may have as many pieces as the text has characters.
fn is_short(text: &str) -> bool
    ensures { result ≡ is_short text.now }
{
    text.chars().count() <= MOST_PIECES
}

fn are_short(values: &[Value]) -> bool
    ensures { result ≡ list_all is_short (strings_of values.now) }
{
    for value in values {
        if !is_short(string_in(value)) {
            return false;
        }
    }
    true
}

// Whether there are few values, and each text among them is short.
fn are_few(kind: Kind, values: &[Value]) -> bool
    ensures { result ≡ are_few kind (strings_of values.now) }
{
    values.len() <= MOST_VALUES && (!is_text_kind(kind) || are_short(values))
}

// Whether there is a value where values are listed.
fn is_some_listed(rule: &Value) -> bool
    ensures { result ≡ where_there is_some_list (listed_in (view rule.now)) }
{
    match listed_in(rule) {
        Some(values) => values.len() >= 1,
        None => true,
    }
}

// Whether there are few values where values are listed.
fn are_few_listed(kind: Kind, rule: &Value) -> bool
    ensures { result ≡ where_there (are_few kind) (listed_in (view rule.now)) }
{
    match listed_in(rule) {
        Some(values) => are_few(kind, values),
        None => true,
    }
}

// The kind of a key, whose rule is of its form, and which isn't one of the file's earlier keys.
fn read_kind(
    alloc: Global,
    second: bool,
    twice: bool,
    name: &str,
    rule: &Value,
) -> Result<Kind, SchemaAnswer>
    ensures { IsReadOf (rule_form_checks second twice (name.now, view rule.now))
        (kind_of_rule (view rule.now)) result }
{
    require(alloc, is_rule(second, rule), SchemaCode::S2Shape, name)?;
    let Some(kind) = kind_in(rule) else {
        return Err(refusal(alloc, SchemaCode::S3UnknownKind, name));
    };
    let fits = !has(rule, "Shape") || is_text_kind(kind);
    require(alloc, fits, SchemaCode::S2Shape, name)?;
    require(alloc, !twice, SchemaCode::S4KeyTwice, name)?;
    Ok(kind)
}

// Values of a key, where they are listed, are some and few.
fn check_listed(alloc: Global, name: &str, kind: Kind, rule: &Value) -> Result<(), SchemaAnswer>
    ensures { IsReadOf (listed_checks kind (name.now, view rule.now)) tt result }
{
    require(alloc, is_some_listed(rule), SchemaCode::S7EmptyValues, name)?;
    require(alloc, are_few_listed(kind, rule), SchemaCode::S9Limit, name)
}

/// The pattern of a shape, in which `*` and `?` are wildcards and nothing is an escape.
pub(crate) fn read_pattern(
    alloc: Global,
    name: &str,
    fold: bool,
    text: &str,
) -> Result<Pattern, SchemaAnswer>
    ensures read { IsReadOf (schema_check (is_short text.now) S9Limit name.now ∷ [])
        (shape_pieces fold text.now) result }
    ensures pattern { IfOk result IsPattern }
{
    match read_glob(alloc, text, fold, false) {
        Ok(pattern) => Ok(pattern),
        Err(PatternFault::NoMemory) => Err(SchemaAnswer::NoMemory),
        Err(_) => Err(refusal(alloc, SchemaCode::S9Limit, name)),
    }
}

// The shape of a key, where one is given.
fn read_shape(alloc: Global, name: &str, rule: &Value) -> Result<Option<Pattern>, SchemaAnswer>
    ensures read { IsReadOf (shape_checks (name.now, view rule.now))
        (shape_in (view rule.now)) result }
    ensures pattern { IfOk result (λ shape. IfSome shape IsPattern) }
{
    let Some(text) = string_at(rule, "Shape") else {
        return Ok(None);
    };
    let pattern = read_pattern(alloc, name, false, text)?;
    Ok(Some(pattern))
}

// The values that texts of a kind write.
fn read_each(
    alloc: Global,
    name: &str,
    kind: Kind,
    values: &[Value],
) -> Result<ValueList, SchemaAnswer>
    ensures read { IsReadOf
        (schema_check (are_of_kind kind (strings_of values.now)) S8BadValue name.now ∷ [])
        (values_of_kind kind (strings_of values.now)) result }
    ensures kind { IfOk result (All (IsOfKind kind)) }
{
    let mut listed = List::new(alloc);
    for value in values {
        let Some(value) = value_written(alloc, kind, string_in(value))? else {
            return Err(refusal(alloc, SchemaCode::S8BadValue, name));
        };
        listed.push(value)?;
    }
    Ok(listed)
}

// The listed values of a key, where some are listed.
fn read_values(
    alloc: Global,
    name: &str,
    kind: Kind,
    rule: &Value,
) -> Result<Option<ValueList>, SchemaAnswer>
    ensures read { IsReadOf (value_kind_checks kind (name.now, view rule.now))
        (among_of kind (view rule.now)) result }
    ensures kind { IfOk result (λ among. IfSome among (All (IsOfKind kind))) }
{
    let Some(values) = listed_in(rule) else {
        return Ok(None);
    };
    let listed = read_each(alloc, name, kind, values)?;
    Ok(Some(listed))
}

/// The rule of a key. The caller knows whether it is one of the file's earlier keys.
pub(crate) fn read_rule(
    alloc: Global,
    second: bool,
    twice: bool,
    name: &str,
    rule: &Value,
) -> Result<KeyRule, SchemaAnswer>
    ensures read { IsReadOf (rule_checks second twice (name.now, view rule.now))
        (rule_of (view rule.now)) result }
    ensures sound { IfOk result RuleIsSound }
{
    let kind = read_kind(alloc, second, twice, name, rule)?;
    check_listed(alloc, name, kind, rule)?;
    let shape = read_shape(alloc, name, rule)?;
    let among = read_values(alloc, name, kind, rule)?;
    Ok(KeyRule {
        kind,
        many: truth_at(rule, "Many"),
        required: truth_at(rule, "Required"),
        among,
        shape,
    })
}
