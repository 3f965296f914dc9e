//! The shape of a request file, whatever the schema.
ghost use Rattle.std.specs.Prelude.{◌≡◌, ◌==◌, [], IfOk, codes, length};
ghost use Rattle.serde_json.specs.Find.{get};
ghost use Rattle.serde_json.specs.View.{members_view, view};
ghost use Rattle.json_shapes.specs.Json.{pairs_in, pairs_of};
ghost use Rattle.json_shapes.specs.Shapes.{is_string, is_there_and, where_there};
ghost use Rattle.request_json.specs.RequestShapes.{are_apart, has_form, has_words, have_values, is_context, is_one_id, is_request, names_of};

use json_shapes::{are_strings, has_strings, is_object_of, members};
use plain_lists::NoMemory;
use serde_json::{Map, Value};
use std::alloc::Global;
use text_table::Table;
use wildcard_lang::Text;

// Whether the value is an object with one member.
fn has_one_member(value: &Value) -> bool
    ensures { result ≡ (length (pairs_in (view value.now)) == 1) }
{
    match value.as_object() {
        Some(members) => members.len() == 1,
        None => false,
    }
}

// Whether the value is one id, under the name of its kind.
fn is_one_id(value: &Value) -> bool
    ensures { result ≡ is_one_id (view value.now) }
{
    is_object_of(&["AWS", "CanonicalUser", "Federated", "Service"], value)
        && has_strings(value)
        && has_one_member(value)
}

// Whether one id stands as the principal.
fn has_id(file: &Value) -> bool
    ensures { result ≡ is_there_and is_one_id (get (codes "Principal") (view file.now)) }
{
    match file.get("Principal") {
        Some(principal) => is_one_id(principal),
        None => false,
    }
}

// Whether the element is a string.
fn is_string_at(object: &Value, name: &str) -> bool
    ensures { result ≡ is_there_and is_string (get name.now (view object.now)) }
{
    match object.get(name) {
        Some(element) => element.is_string(),
        None => false,
    }
}

// Whether the principal, the action and the resource stand, each of its form.
fn has_words(file: &Value) -> bool
    ensures { result ≡ has_words (view file.now) }
{
    has_id(file) && is_string_at(file, "Action") && is_string_at(file, "Resource")
}

// Whether each of the keys has a string or a list of strings.
fn have_values(keys: &Map<String, Value>) -> bool
    ensures { result ≡ have_values (pairs_of (members_view keys.now.entries)) }
{
    for (_, values) in keys {
        if !are_strings(members(values)) {
            return false;
        }
    }
    true
}

// Whether no two of the keys are one.
fn are_apart(alloc: Global, keys: &Map<String, Value>) -> Result<bool, NoMemory>
    ensures { IfOk result (λ apart.
        apart ≡ are_apart [] (names_of (pairs_of (members_view keys.now.entries)))) }
{
    let mut seen: Table<()> = Table::new(alloc);
    for (name, _) in keys {
        let key = Text::of(alloc, name.as_str())?.folded()?;
        if seen.get(&key).is_some() {
            return Ok(false);
        }
        seen.insert(key, ())?;
    }
    Ok(true)
}

// Whether the value is different keys with their values.
fn is_context(alloc: Global, value: &Value) -> Result<bool, NoMemory>
    ensures { IfOk result (λ is. is ≡ is_context (view value.now)) }
{
    let Some(keys) = value.as_object() else {
        return Ok(false);
    };
    if !have_values(keys) {
        return Ok(false);
    }
    are_apart(alloc, keys)
}

// Whether the file's keys, where they are given, are of their form.
fn has_context(alloc: Global, file: &Value) -> Result<bool, NoMemory>
    ensures { IfOk result (λ has.
        has ≡ where_there is_context (get (codes "Context") (view file.now))) }
{
    match file.get("Context") {
        Some(context) => is_context(alloc, context),
        None => Ok(true),
    }
}

// Whether the file is an object of known names, in which the words stand.
fn has_form(file: &Value) -> bool
    ensures { result ≡ has_form (view file.now) }
{
    is_object_of(&["Principal", "Action", "Resource", "Context"], file) && has_words(file)
}

/// Whether the file has the shape of requests.
pub(crate) fn is_request(alloc: Global, file: &Value) -> Result<bool, NoMemory>
    ensures { IfOk result (λ is. is ≡ is_request (view file.now)) }
{
    if !has_form(file) {
        return Ok(false);
    }
    has_context(alloc, file)
}
