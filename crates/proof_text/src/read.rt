//! Reads certificates.
ghost use Rattle.std.specs.Prelude.{◌≡◌, ◌≤◌, IfOk, length};
ghost use Rattle.proof_text.specs.LineForms.{lines_before};
ghost use Rattle.proof_text.specs.Reads.{HasFewNodes, IsProofRead, IsProofReadBehind};
ghost use Rattle.proof_text.specs.Steps.{HasLineRoom, IsProofReadAt};

use crate::fault::ProofAnswer;
use crate::limits::{Limits, MOST_PROOF_BYTES};
use crate::lines::version_line;
use crate::location::{
    Location, answer_here, first_location, line_at, location_of_line, require_end,
};
use crate::nodes::{Trail, read_node, shared};
use plain_lists::List;
use refute_check::{Refutation, SharedProofs};
use std::alloc::Global;
use std::rc::Rc;

/// Numbers of lines.
pub type LineList = List<u32>;

/// A certificate that was read.
#[derive(Drop)]
pub struct ReadProof {
    /// The refutation that it is the text of.
    pub refutation: Rc<Refutation>,
    /// The line of each node in reading order, counted from the file's first, from 1.
    pub lines: LineList,
}

/// The refutation whose certificate the file is, for a query with so many tests, in the format of this
/// number. The answer line of a comparison may stand before it. `Refused` with the first bad line, exactly
/// where there is one:
///
/// - C1: it isn't of a form that may stand there, it is missing, or it stands behind the end;
/// - C2: it names another format;
/// - C3: a test's number isn't less than the number of tests;
/// - C4: a number is above 4,294,967,295, or a split or label stands below 2,000 others.
///
/// `NoMemory` only where there is no memory.
pub fn read_proof(
    alloc: Global,
    tests: u32,
    version: u32,
    bytes: &[u8],
) -> Result<ReadProof, ProofAnswer>
    requires { length bytes.now ≤ MOST_PROOF_BYTES }
    ensures read { IsProofRead (record { tests = tests; version = version }) bytes.now result }
    ensures nodes { IfOk result (HasFewNodes bytes.now) }
{
    read_at(alloc, Limits { tests, version }, first_location(bytes))
}

/// The refutation whose certificate stands in a file from the line of this number on, counted from 1. What
/// stands before that line isn't looked at, and no answer of a comparison may stand before the certificate.
/// Else as `read_proof`: lines are counted from the file's first, and where the file has no such line the
/// number of the one that is missing is the one after the last.
pub fn read_proof_from(
    alloc: Global,
    tests: u32,
    version: u32,
    line: u32,
    bytes: &[u8],
) -> Result<ReadProof, ProofAnswer>
    requires from_one { 1 ≤ line }
    requires few { length bytes.now ≤ MOST_PROOF_BYTES }
    ensures read { IsProofReadBehind (record { tests = tests; version = version })
        (lines_before line bytes.now) bytes.now result }
    ensures nodes { IfOk result (HasFewNodes bytes.now) }
{
    read_at(
        alloc,
        Limits { tests, version },
        location_of_line(bytes, line),
    )
}

// The refutation whose certificate stands at a location.
fn read_at(alloc: Global, limits: Limits, start: Location<'_>) -> Result<ReadProof, ProofAnswer>
    requires room { HasLineRoom start }
    requires first { start.begun ≡ 0 }
    ensures read { IsProofReadAt limits start.entry result }
    ensures nodes { IfOk result (HasFewNodes start.entry.bytes.now) }
{
    let (line, behind) = line_at(start)?;
    if let Err(answer) = version_line(limits, line) {
        return Err(answer_here(start.number, answer));
    }
    let mut trail = Trail {
        inside: Vec::new(alloc),
        lines: LineList::new(alloc),
        proofs: SharedProofs::new(alloc),
    };
    let value = shared(alloc, Refutation::ByValue)?;
    let (refutation, end) = read_node(alloc, limits, 0, behind, &value, &mut trail)?;
    require_end(end)?;
    Ok(ReadProof {
        refutation,
        lines: trail.lines,
    })
}
