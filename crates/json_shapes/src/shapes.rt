//! The shapes of values.
ghost use Rattle.std.specs.Prelude.{◌≡◌};
ghost use Rattle.serde_json.specs.Find.{get};
ghost use Rattle.serde_json.specs.View.{view};
ghost use Rattle.json_shapes.specs.Json.{has_name};
ghost use Rattle.json_shapes.specs.Shapes.{is_list, is_object, is_object_or_list, is_string, is_text, is_there_and, where_there};

use serde_json::Value;

/// Whether the value is an object.
pub fn is_object(value: &Value) -> bool
    ensures { result ≡ is_object (view value.now) }
{
    value.is_object()
}

/// Whether the value is a list.
pub fn is_list(value: &Value) -> bool
    ensures { result ≡ is_list (view value.now) }
{
    value.is_array()
}

/// Whether the object has the name.
pub fn has(object: &Value, name: &str) -> bool
    ensures { result ≡ has_name name.now (view object.now) }
{
    object.get(name).is_some()
}

/// Whether the element is a string, or absent.
pub fn is_absent_or_string(object: &Value, name: &str) -> bool
    ensures { result ≡ where_there is_string (get name.now (view object.now)) }
{
    match object.get(name) {
        Some(element) => element.is_string(),
        None => true,
    }
}

/// Whether the element is a list.
pub fn is_list_at(object: &Value, name: &str) -> bool
    ensures { result ≡ is_there_and is_list (get name.now (view object.now)) }
{
    match object.get(name) {
        Some(element) => is_list(element),
        None => false,
    }
}

/// Whether the element is this string.
pub fn is_text_at(object: &Value, name: &str, text: &str) -> bool
    ensures { result ≡ is_there_and (is_text text.now) (get name.now (view object.now)) }
{
    match object.get(name).and_then(Value::as_str) {
        Some(found) => found == text,
        None => false,
    }
}

/// Whether the value is an object or a list.
pub fn is_object_or_list(value: &Value) -> bool
    ensures { result ≡ is_object_or_list (view value.now) }
{
    match value {
        Value::Object(_) | Value::Array(_) => true,
        _ => false,
    }
}
