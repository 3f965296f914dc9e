//! Reads files as JSON values.
ghost use Rattle.std.specs.Prelude.{◌≡◌, IfOk, option_map};
ghost use Rattle.serde_json.specs.View.{view};
ghost use Rattle.json_shapes.specs.Json.{json_of};

use plain_lists::NoMemory;
use serde_json::Value;
use std::alloc::{AllocError, Global};

/// The value that a file of these bytes has as JSON text (RFC 8259), or none where it has no reading:
/// `serde_json` takes values nested at most 127 deep and numbers up to the greatest float. `NoMemory`
/// only where there is no memory.
pub fn read_json(alloc: Global, bytes: &[u8]) -> Result<Option<Value>, NoMemory>
    ensures { IfOk result (λ value. option_map view value ≡ json_of bytes.now) }
{
    match Value::from_slice(alloc, bytes) {
        Ok(value) => Ok(Some(value)),
        Err(error) => {
            if error.is_memory() {
                Err(AllocError)
            } else {
                Ok(None)
            }
        }
    }
}
