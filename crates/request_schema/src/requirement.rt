//! Single checks of a schema file, and the forms of the values that they look at.
ghost use Rattle.std.specs.Prelude.{◌≡◌, [], ◌∷◌};
ghost use Rattle.serde_json.specs.View.{view};
ghost use Rattle.request_schema.specs.SchemaChecks.{schema_check};
ghost use Rattle.request_schema.specs.SchemaHeads.{is_whole};
ghost use Rattle.json_shapes.specs.Checks.{IsReadOf};

use crate::schema_fault::{SchemaAnswer, SchemaCode, refusal};
use serde_json::Value;
use std::alloc::Global;

/// Passes the check, or refuses with the fault of this code at the name.
pub(crate) fn require(
    alloc: Global,
    passes: bool,
    code: SchemaCode,
    name: &str,
) -> Result<(), SchemaAnswer>
    ensures { IsReadOf (schema_check passes code name.now ∷ []) tt result }
{
    if passes {
        Ok(())
    } else {
        Err(refusal(alloc, code, name))
    }
}

/// Whether the value is this whole number, written without a point, an exponent or a sign.
pub(crate) fn is_whole(number: u64, value: &Value) -> bool
    ensures { result ≡ is_whole number (view value.now) }
{
    match value.as_u64() {
        Some(found) => found == number,
        None => false,
    }
}
