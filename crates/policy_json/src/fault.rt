//! Why a file is refused as a set of policies.
ghost use Rattle.std.specs.Prelude.{◌≡◌};
ghost use Rattle.policy_json.specs.Checks.{fault_at};
ghost use Rattle.json_shapes.specs.Checks.{IsRefusal};

use crate::location::Location;
use json_shapes::ReadError;
use std::alloc::Global;
use wildcard_lang::Text;

/// What is wrong with a file.
#[derive(Clone, Copy, Debug)]
pub enum PolicyCode {
    /// The file has no reading as a JSON value (RFC 8259) by `serde_json`, which takes values nested at
    /// most 127 deep and numbers up to the greatest float.
    P1NotJson,
    /// The file is neither an object nor a list, or a document isn't an object.
    P2SetShape,
    /// A name that the language doesn't have.
    P3UnknownElement,
    /// A value isn't of its form: an element, a statement, a guard, an id of a principal that is empty,
    /// an operator or a key of a condition.
    P4WrongShape,
    /// A needed element is missing.
    P5MissingElement,
    /// An element and its Not element stand together.
    P6BothElements,
    /// A version other than `2012-10-17` and `2008-10-17`.
    P7BadVersion,
    /// An effect other than `Allow` and `Deny`.
    P8BadEffect,
    /// A kind of principals that the language doesn't have.
    P9PrincipalKind,
    /// A wildcard in a principal's id that isn't `*` alone.
    P10PrincipalWildcard,
    /// A policy variable, in a resource or in a value of a condition on texts or ARNs.
    P11PolicyVariable,
    /// A condition operator that the language doesn't have, in this spelling.
    P12UnknownOperator,
    /// A value of a condition that isn't of its operator's form, or a number that isn't a whole number
    /// of 64 bits.
    P13BadValue,
    /// A value of a condition on ARNs that has fewer than six parts.
    P14ArnParts,
    /// More than a limit: `MOST_DOCUMENTS`, `MOST_STATEMENTS` or `MOST_GUARDS` of a set, or `MOST_PIECES` of a
    /// pattern or of the characters of a principal's id.
    P17Limit,
}

/// A file's first fault, with the numbers of its document and of its statement there, both counted from
/// 1, and the element. Each number is 0 where the fault lies in no document or in no statement, and the
/// element is empty where it lies in none.
#[derive(Drop)]
pub struct PolicyFault {
    pub code: PolicyCode,
    pub document: u32,
    pub statement: u32,
    pub element: Text,
}

/// What stands instead of a set: the file's first fault, or want of memory.
pub type PolicyAnswer = ReadError<PolicyFault>;

/// The fault of this code at the location, in the element of this name, or want of memory.
pub(crate) fn refusal(
    alloc: Global,
    location: Location,
    code: PolicyCode,
    name: &str,
) -> PolicyAnswer
    ensures { IsRefusal (fault_at location code name.now) result }
{
    match Text::of(alloc, name) {
        Err(_) => PolicyAnswer::NoMemory,
        Ok(element) => PolicyAnswer::Refused(PolicyFault {
            code,
            document: location.document,
            statement: location.statement,
            element,
        }),
    }
}
