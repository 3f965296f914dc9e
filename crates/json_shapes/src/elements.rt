//! The members of values: one, or a list of them.
ghost use Rattle.std.specs.Prelude.{◌≡◌};
ghost use Rattle.std.specs.List.{list_all};
ghost use Rattle.std.specs.Str.{chars};
ghost use Rattle.serde_json.specs.Find.{get};
ghost use Rattle.serde_json.specs.View.{view};
ghost use Rattle.json_shapes.specs.Json.{list_under, one_or_more, text_of, values_in, views};
ghost use Rattle.json_shapes.specs.Shapes.{is_string};

use serde_json::Value;
use std::slice;

/// The members of a value: where a list may stand, a single member may stand without brackets.
pub fn members(value: &Value) -> &[Value]
    ensures { views result.now ≡ one_or_more (view value.now) }
{
    match value.as_array() {
        Some(values) => values.as_slice(),
        None => slice::from_ref(value),
    }
}

/// The values of a list, and none of any other value.
pub fn values_in(value: &Value) -> &[Value]
    ensures { views result.now ≡ values_in (view value.now) }
{
    match value.as_array() {
        Some(values) => values.as_slice(),
        None => &[],
    }
}

/// The values of the list under a name, and none where no list stands there.
pub fn list_under<'a>(object: &'a Value, name: &str) -> &'a [Value]
    ensures { views result.now ≡ list_under (get name.now (view object.now)) }
{
    match object.get(name) {
        Some(element) => values_in(element),
        None => &[],
    }
}

/// Whether each of the values is a string.
pub fn are_strings(values: &[Value]) -> bool
    ensures { result ≡ list_all is_string (views values.now) }
{
    values.iter().all(|value| value.is_string())
}

/// The characters of a string, and none of any other value.
pub fn text_of(value: &Value) -> &str
    ensures { chars result.now ≡ text_of (view value.now) }
{
    value.as_str().unwrap_or("")
}
