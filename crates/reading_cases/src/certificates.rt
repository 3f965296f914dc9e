//! The first faults of certificates.
ghost use Rattle.std.specs.Prelude.{◌≤◌, length};

use proof_text::{MOST_PROOF_BYTES, ProofAnswer, ProofFault, ReadProof, read_proof};
use std::alloc::{AllocError, Global};
use std::io;
use std::io::ErrorKind;

/// The byte that the character stands for. All but three stand for themselves.
fn byte_of(c: char) -> Option<u8> {
    match c {
        '/' => Some(b'\n'),
        '¶' => Some(b'\r'),
        'ÿ' => Some(u8::MAX),
        _ => u8::try_from(u32::from(c)).ok(),
    }
}

fn push_byte(bytes: &mut Vec<u8>, c: char) -> io::Result<()> {
    let Some(byte) = byte_of(c) else {
        return Err(ErrorKind::InvalidData.into());
    };
    bytes.push(byte)?;
    Ok(())
}

/// The certificate of a text.
fn bytes_of(alloc: Global, text: &str) -> io::Result<Vec<u8>> {
    let mut bytes = Vec::new(alloc);
    for c in text.chars() {
        push_byte(&mut bytes, c)?;
    }
    Ok(bytes)
}

fn fault_line(alloc: Global, fault: ProofFault) -> Result<String, AllocError> {
    let code = fault.code;
    let line = fault.line;
    format!(in alloc; "{code:?} line {line}")
}

fn read_line(alloc: Global, read: &ReadProof) -> Result<String, AllocError> {
    let nodes = read.lines.len();
    let last = read.lines.as_slice().last().copied().unwrap_or(0);
    format!(in alloc; "read, {nodes} nodes, the last at line {last}")
}

fn answer(alloc: Global, tests: u32, version: u32, bytes: &[u8]) -> Result<String, AllocError>
    requires { length bytes.now ≤ MOST_PROOF_BYTES }
{
    match read_proof(alloc, tests, version, bytes) {
        Ok(read) => read_line(alloc, &read),
        Err(ProofAnswer::Refused(fault)) => fault_line(alloc, fault),
        Err(ProofAnswer::NoMemory) => Err(AllocError),
    }
}

fn bytes_answer(alloc: Global, tests: u32, version: u32, bytes: &[u8]) -> io::Result<String> {
    if bytes.len() as u64 > MOST_PROOF_BYTES {
        return Err(ErrorKind::InvalidData.into());
    }
    Ok(answer(alloc, tests, version, bytes)?)
}

fn text_answer(alloc: Global, tests: u32, version: u32, text: &str) -> io::Result<String> {
    let bytes = bytes_of(alloc, text)?;
    bytes_answer(alloc, tests, version, bytes.as_slice())
}

fn number_of(word: &str) -> io::Result<u32> {
    match word.parse::<u32>() {
        Ok(number) => Ok(number),
        Err(_) => Err(ErrorKind::InvalidData.into()),
    }
}

/// The first fault of a certificate behind a number of tests and a format's number: its code and its
/// line; or how many nodes were read, and the last one's line.
pub(crate) fn certificate_answer(alloc: Global, row: &str) -> io::Result<String> {
    let (tests, rest) = row.split_once(' ').unwrap_or((row, ""));
    let (version, text) = rest.split_once(' ').unwrap_or((rest, ""));
    let tests = number_of(tests)?;
    let version = number_of(version)?;
    text_answer(alloc, tests, version, text)
}
