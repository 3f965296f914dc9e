//! Why a zone file is refused.
ghost use Rattle.std.specs.Prelude.{◌≡◌};
ghost use Rattle.trust_zones.specs.ZoneChecks.{zone_fault};
ghost use Rattle.json_shapes.specs.Checks.{IsRefusal};

use json_shapes::ReadError;
use std::alloc::Global;
use wildcard_lang::Text;

/// What is wrong with a zone file.
#[derive(Clone, Copy, Debug)]
pub enum ZoneCode {
    /// The file has no reading as a JSON value (RFC 8259) by `serde_json`.
    Z1NotJson,
    /// The file isn't an object of the names `Accounts`, `Blocks`, `Organizations` and `Vpcs` with lists
    /// of strings.
    Z2Shape,
    /// A member of a list isn't of the list's form: twelve digits, a block of addresses, or a text of 1 to
    /// 2,048 characters.
    Z3BadValue,
    /// A list has members, and its key is in the schema of another kind, or has several values.
    Z4KeyKind,
    /// A list has more than 100 members.
    Z5Limit,
}

/// A zone file's first fault, at the name of a list, or at the empty text where it is the file as a
/// whole.
#[derive(Drop)]
pub struct ZoneFault {
    pub code: ZoneCode,
    pub element: Text,
}

/// What stands instead of a zone: the file's first fault, or want of memory.
pub type ZoneAnswer = ReadError<ZoneFault>;

/// The fault of this code at the name, or want of memory.
pub(crate) fn refusal(alloc: Global, code: ZoneCode, name: &str) -> ZoneAnswer
    ensures { IsRefusal (zone_fault code name.now) result }
{
    match Text::of(alloc, name) {
        Err(_) => ZoneAnswer::NoMemory,
        Ok(element) => ZoneAnswer::Refused(ZoneFault { code, element }),
    }
}
