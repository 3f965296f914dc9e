//! Locations in a file, and its lines one by one.
ghost use Rattle.std.specs.Prelude.{◌≡◌, ◌≢◌, ◌<◌, ◌+◌, ◌≤◌, ◌∷◌, [], drop, take, length};
ghost use Rattle.proof_text.specs.declared.fault.ProofAnswer.TheVariants.{Refused};
ghost use Rattle.proof_text.specs.Faults.{proof_fault_at};
ghost use Rattle.proof_text.specs.LineForms.{lines_before, lines_of};
ghost use Rattle.proof_text.specs.Reads.{IsFirstLine};
ghost use Rattle.proof_text.specs.Steps.{HasLineRoom, IsEndRead, IsFirstLocation, IsLineAt};
ghost use Rattle.proof_text.specs.Steps.{IsLocationBehind, answer_here};

use crate::fault::{LineAnswer, ProofAnswer, ProofCode, ProofFault};
use crate::limits::MOST_PROOF_BYTES;
use crate::parts::first_at;

/// A location in front of a line: the line's number, how many labels began before it, and the bytes from
/// there on.
#[derive(Clone, Copy)]
pub(crate) struct Location<'a> {
    pub number: u32,
    pub begun: u32,
    pub bytes: &'a [u8],
}

// How many bytes the first line has, with its end.
fn line_length(bytes: &[u8]) -> usize
    requires { bytes.now ≢ [] }
    ensures within { result ≤ length bytes.now }
    ensures positive { 1 ≤ result }
    ensures line { lines_of bytes.now ≡ take result bytes.now ∷ lines_of (drop result bytes.now) }
{
    let at = first_at(bytes, b'\n');
    if at == bytes.len() {
        return at;
    }
    at + 1
}

/// The fault of this code at a line.
pub(crate) fn fault(number: u32, code: ProofCode) -> ProofAnswer
    ensures { result ≡ Refused (proof_fault_at number code) }
{
    ProofAnswer::Refused(ProofFault { code, line: number })
}

/// What a reader of lines answers, at a line.
pub(crate) fn answer_here(number: u32, answer: LineAnswer) -> ProofAnswer
    ensures { result ≡ answer_here number answer }
{
    match answer {
        LineAnswer::Fails(code) => fault(number, code),
        LineAnswer::NoMemory => ProofAnswer::NoMemory,
    }
}

/// The line at the location, which must stand, and the location behind it: C1 at its number where the file ends.
pub(crate) fn line_at<'a>(location: Location<'a>) -> Result<(&'a [u8], Location<'a>), ProofAnswer>
    requires { HasLineRoom location }
    ensures { IsLineAt location.entry result }
{
    if location.bytes.is_empty() {
        return Err(fault(location.number, ProofCode::C1Syntax));
    }
    let (line, bytes) = location.bytes.split_at(line_length(location.bytes));
    let number = location.number + 1;
    let begun = location.begun;
    Ok((
        line,
        Location {
            number,
            begun,
            bytes,
        },
    ))
}

/// The location, where one label more began in front of it.
pub(crate) fn with_label<'a>(location: Location<'a>) -> Location<'a>
    requires room { HasLineRoom location }
    requires fewer { location.begun < location.number }
    ensures number { result.number ≡ location.entry.number }
    ensures begun { result.begun ≡ location.entry.begun + 1 }
    ensures bytes { result.bytes.now ≡ location.entry.bytes.now }
    ensures room { HasLineRoom result }
{
    Location {
        number: location.number,
        begun: location.begun + 1,
        bytes: location.bytes,
    }
}

/// The first line of a file, with the line feed that ends it, and what stands behind; none where the file is
/// empty. The last line of a file may have no end.
pub fn first_line(bytes: &[u8]) -> Option<(&[u8], &[u8])>
    ensures { IsFirstLine bytes.now result }
{
    if bytes.is_empty() {
        return None;
    }
    Some(bytes.split_at(line_length(bytes)))
}

/// The location of the certificate in a file: behind the answer of a comparison, where that stands first.
pub(crate) fn first_location(bytes: &[u8]) -> Location<'_>
    requires { length bytes.now ≤ MOST_PROOF_BYTES }
    ensures { IsFirstLocation bytes.now result }
{
    let start = Location {
        number: 1,
        begun: 0,
        bytes,
    };
    if bytes.is_empty() {
        return start;
    }
    let (line, behind) = bytes.split_at(line_length(bytes));
    if line == b"not more permissive\n".as_slice() {
        return Location {
            number: 2,
            begun: 0,
            bytes: behind,
        };
    }
    start
}

/// The location of the line of this number in a file, or of its end where the file has no such line.
pub(crate) fn location_of_line(bytes: &[u8], line: u32) -> Location<'_>
    requires from_one { 1 ≤ line }
    requires few { length bytes.now ≤ MOST_PROOF_BYTES }
    ensures { IsLocationBehind (lines_before line bytes.now) bytes.now result }
{
    let mut location = Location {
        number: 1,
        begun: 0,
        bytes,
    };
    for number in 1..line {
        let Ok((_, behind)) = line_at(location) else {
            return location;
        };
        location = behind;
    }
    location
}

/// Passes at the end of the file: C1 at the number of a line that stands there.
pub(crate) fn require_end(location: Location<'_>) -> Result<(), ProofAnswer>
    ensures { IsEndRead location.entry result }
{
    if location.bytes.is_empty() {
        return Ok(());
    }
    Err(fault(location.number, ProofCode::C1Syntax))
}
