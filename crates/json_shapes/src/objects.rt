//! The members of objects.
ghost use Rattle.std.specs.Prelude.{◌≡◌};
ghost use Rattle.serde_json.specs.View.{view};
ghost use Rattle.json_shapes.specs.Shapes.{has_strings, is_object_of, texts};

use crate::names::is_among;
use serde_json::Value;

/// Whether the value is an object whose names are among these.
pub fn is_object_of(names: &[&str], value: &Value) -> bool
    ensures { result ≡ is_object_of (texts names.now) (view value.now) }
{
    let Some(members) = value.as_object() else {
        return false;
    };
    for (name, _) in members {
        if !is_among(names, name.as_str()) {
            return false;
        }
    }
    true
}

/// Whether the value's members are strings.
pub fn has_strings(value: &Value) -> bool
    ensures { result ≡ has_strings (view value.now) }
{
    let Some(members) = value.as_object() else {
        return true;
    };
    for (_, member) in members {
        if !member.is_string() {
            return false;
        }
    }
    true
}
