//! Why a request file is refused.
ghost use Rattle.std.specs.Prelude.{◌≡◌, [], ◌∷◌};
ghost use Rattle.request_json.specs.RequestChecks.{request_check, request_fault};
ghost use Rattle.json_shapes.specs.Checks.{IsReadOf, IsRefusal};

use json_shapes::ReadError;
use std::alloc::Global;
use wildcard_lang::Text;

/// What is wrong with a request file.
#[derive(Clone, Copy, Debug)]
pub enum RequestCode {
    /// The file has no reading as a JSON value (RFC 8259) by `serde_json`.
    Q1NotJson,
    /// The file isn't of the shape of requests: a name is missing or unknown, something stands under a
    /// name that can't stand there, or two keys differ in the case of ASCII letters alone.
    Q2Shape,
    /// A value that isn't of its key's kind.
    Q3BadValue,
    /// What no valid request has: several values of a key that has one, a value that isn't listed or
    /// not of the key's shape, no value of a required key, a word that is empty or not of its shape.
    Q4NotValid,
}

/// A request file's first fault, at a key as written, at the folded name of a required key, at
/// `Principal`, `Action` or `Resource`, or at the empty text where it is the file as a whole.
#[derive(Drop)]
pub struct RequestFault {
    pub code: RequestCode,
    pub element: Text,
}

/// What stands instead of a request: the file's first fault, or want of memory.
pub type RequestAnswer = ReadError<RequestFault>;

/// The fault of this code at the name, or want of memory.
pub(crate) fn refusal(alloc: Global, code: RequestCode, name: &str) -> RequestAnswer
    ensures { IsRefusal (request_fault code name.now) result }
{
    match Text::of(alloc, name) {
        Err(_) => RequestAnswer::NoMemory,
        Ok(element) => RequestAnswer::Refused(RequestFault { code, element }),
    }
}

/// Passes the check, or refuses with the fault of this code at the name.
pub(crate) fn require(
    alloc: Global,
    passes: bool,
    code: RequestCode,
    name: &str,
) -> Result<(), RequestAnswer>
    ensures { IsReadOf (request_check passes code name.now ∷ []) tt result }
{
    if passes {
        Ok(())
    } else {
        Err(refusal(alloc, code, name))
    }
}
