//! Why a schema file is refused.
ghost use Rattle.std.specs.Prelude.{◌≡◌};
ghost use Rattle.request_schema.specs.SchemaChecks.{schema_fault};
ghost use Rattle.json_shapes.specs.Checks.{IsRefusal};

use json_shapes::ReadError;
use std::alloc::Global;
use wildcard_lang::Text;

/// What is wrong with a schema file.
#[derive(Clone, Copy, Debug)]
pub enum SchemaCode {
    /// The file has no reading as a JSON value (RFC 8259) by `serde_json`.
    S1NotJson,
    /// The file, or the rule of a key, isn't of its shape.
    S2Shape,
    /// A kind of values other than `text`, `truth`, `number`, `address` and `bytes`.
    S3UnknownKind,
    /// A key that differs from an earlier one in the case of ASCII letters alone.
    S4KeyTwice,
    /// A dimension that names no key of the run. No call of this crate gives it.
    S5UnknownDimension,
    /// An empty shape of an action, a resource or an id, which no request could match.
    S6EmptyShape,
    /// An empty list of values, which no value could be among.
    S7EmptyValues,
    /// A listed value that isn't of the key's kind.
    S8BadValue,
    /// More than a limit: 100 listed values of a key, 2,048 characters in a shape or a listed text.
    S9Limit,
}

/// A schema file's first fault, at a key or a name of the file as written, or at the empty text
/// where it is the file as a whole.
#[derive(Drop)]
pub struct SchemaFault {
    pub code: SchemaCode,
    pub element: Text,
}

/// What stands instead of a schema: the file's first fault, or want of memory.
pub type SchemaAnswer = ReadError<SchemaFault>;

/// The fault of this code at the name, or want of memory.
pub(crate) fn refusal(alloc: Global, code: SchemaCode, name: &str) -> SchemaAnswer
    ensures { IsRefusal (schema_fault code name.now) result }
{
    match Text::of(alloc, name) {
        Err(_) => SchemaAnswer::NoMemory,
        Ok(element) => SchemaAnswer::Refused(SchemaFault { code, element }),
    }
}
