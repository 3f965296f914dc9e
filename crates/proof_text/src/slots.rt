//! Proofs for slots, and for kinds of principals.
ghost use Rattle.std.specs.Prelude.{◌≡◌, ◌∷◌, [], None, Some, IfOk};
ghost use Rattle.std.specs.Option.{option_copied};
ghost use Rattle.proof_text.specs.Faults.{fault_of_line};
ghost use Rattle.proof_text.specs.LineForms.{ExpectKindProof, ExpectSlotProof, line_said, said_alone, with_number};
ghost use Rattle.proof_text.specs.Lines.{closed_line, kinds_line, member_line, never_line};
ghost use Rattle.proof_text.specs.SlotLines.{lines_after_kinds, kind_line_value, slot_line_value};
ghost use Rattle.proof_text.specs.Spelling.{kind_lines, slot_lines};
ghost use Rattle.proof_text.specs.Steps.{HasLineRoom, IsLineRead, ArePartsRead, parts_left};

use crate::fault::{LineAnswer, ProofAnswer, ProofCode};
use crate::limits::Limits;
use crate::location::{Location, answer_here, line_at};
use crate::numbers::one_number;
use crate::parts::{content_of, cut};
use crate::states::{closed_count, read_closed, read_states};
use slot_theory::{KindProof, SlotProof};
use std::alloc::Global;

/// What the first line of a slot's proof says.
#[derive(Clone, Copy)]
pub(crate) enum SlotLine {
    Points,
    Absent,
    Required,
    Closed(u32),
    Kinds,
    Member(u32),
    OneMember,
}

/// What the first line of a proof for one kind of principals says.
#[derive(Clone, Copy)]
pub(crate) enum KindLine {
    Never,
    Closed(u32),
}

// A line that is its word alone.
fn alone(
    limits: Limits,
    begun: u32,
    line: SlotLine,
    behind: Option<&[u8]>,
) -> Result<SlotLine, LineAnswer>
    requires { fault_of_line limits begun ExpectSlotProof (Some (slot_line_value line)) ≡ None }
    ensures { IsLineRead slot_line_value limits begun ExpectSlotProof
        (said_alone (slot_line_value line) (parts_left 32 (option_copied behind.entry))) result }
{
    if behind.is_some() {
        return Err(LineAnswer::Fails(ProofCode::C1Syntax));
    }
    Ok(line)
}

// A member for a test of the query.
fn member_line(limits: Limits, begun: u32, behind: Option<&[u8]>) -> Result<SlotLine, LineAnswer>
    ensures { IsLineRead slot_line_value limits begun ExpectSlotProof
        (with_number member_line (parts_left 32 (option_copied behind.entry))) result }
{
    let Some(test) = one_number(behind)? else {
        return Err(LineAnswer::Fails(ProofCode::C4Limit));
    };
    if test >= limits.tests {
        return Err(LineAnswer::Fails(ProofCode::C3TestNumber));
    }
    Ok(SlotLine::Member(test))
}

// What the line says, where a proof for a slot must stand.
fn slot_line(limits: Limits, begun: u32, line: &[u8]) -> Result<SlotLine, LineAnswer>
    ensures { IsLineRead slot_line_value limits begun ExpectSlotProof
        (line_said ExpectSlotProof line.now) result }
{
    let Some(text) = content_of(line) else {
        return Err(LineAnswer::Fails(ProofCode::C1Syntax));
    };
    let (word, behind) = cut(text, b' ');
    if word == b"points".as_slice() {
        return alone(limits, begun, SlotLine::Points, behind);
    }
    if word == b"absent".as_slice() {
        return alone(limits, begun, SlotLine::Absent, behind);
    }
    if word == b"required".as_slice() {
        return alone(limits, begun, SlotLine::Required, behind);
    }
    if word == b"kinds".as_slice() {
        return alone(limits, begun, SlotLine::Kinds, behind);
    }
    if word == b"member".as_slice() {
        return member_line(limits, begun, behind);
    }
    if word == b"some".as_slice() {
        return alone(limits, begun, SlotLine::OneMember, behind);
    }
    if word == b"closed".as_slice() {
        return slot_closed(limits, begun, behind);
    }
    Err(LineAnswer::Fails(ProofCode::C1Syntax))
}

// A closed set for a slot.
fn slot_closed(limits: Limits, begun: u32, behind: Option<&[u8]>) -> Result<SlotLine, LineAnswer>
    ensures { IsLineRead slot_line_value limits begun ExpectSlotProof
        (with_number closed_line (parts_left 32 (option_copied behind.entry))) result }
{
    match closed_count(limits, begun, behind) {
        Ok(count) => Ok(SlotLine::Closed(count)),
        Err(answer) => Err(answer),
    }
}

// A closed set for a kind of principals.
fn kind_closed(limits: Limits, begun: u32, behind: Option<&[u8]>) -> Result<KindLine, LineAnswer>
    ensures { IsLineRead kind_line_value limits begun ExpectKindProof
        (with_number closed_line (parts_left 32 (option_copied behind.entry))) result }
{
    match closed_count(limits, begun, behind) {
        Ok(count) => Ok(KindLine::Closed(count)),
        Err(answer) => Err(answer),
    }
}

fn never_line(limits: Limits, begun: u32, behind: Option<&[u8]>) -> Result<KindLine, LineAnswer>
    ensures { IsLineRead kind_line_value limits begun ExpectKindProof
        (said_alone never_line (parts_left 32 (option_copied behind.entry))) result }
{
    if behind.is_some() {
        return Err(LineAnswer::Fails(ProofCode::C1Syntax));
    }
    Ok(KindLine::Never)
}

// What the line says, where a proof for a kind of principals must stand.
fn kind_line(limits: Limits, begun: u32, line: &[u8]) -> Result<KindLine, LineAnswer>
    ensures { IsLineRead kind_line_value limits begun ExpectKindProof
        (line_said ExpectKindProof line.now) result }
{
    let Some(text) = content_of(line) else {
        return Err(LineAnswer::Fails(ProofCode::C1Syntax));
    };
    let (word, behind) = cut(text, b' ');
    if word == b"never".as_slice() {
        return never_line(limits, begun, behind);
    }
    if word == b"closed".as_slice() {
        return kind_closed(limits, begun, behind);
    }
    Err(LineAnswer::Fails(ProofCode::C1Syntax))
}

// The proof for one kind of principals.
fn read_kind<'a>(
    alloc: Global,
    limits: Limits,
    location: Location<'a>,
) -> Result<(KindProof, Location<'a>), ProofAnswer>
    requires { HasLineRoom location }
    ensures { ArePartsRead kind_lines limits (ExpectKindProof ∷ [])
        location.entry result }
{
    let (line, behind) = line_at(location)?;
    match kind_line(limits, location.begun, line) {
        Ok(KindLine::Never) => Ok((KindProof::Never, behind)),
        Ok(KindLine::Closed(count)) => {
            let (closed, end) = read_states(alloc, limits, count, behind)?;
            Ok((KindProof::Closed(closed), end))
        }
        Err(answer) => Err(answer_here(location.number, answer)),
    }
}

// The proofs for the four kinds, behind their line.
fn read_kinds<'a>(
    alloc: Global,
    limits: Limits,
    location: Location<'a>,
) -> Result<(SlotProof, Location<'a>), ProofAnswer>
    requires { HasLineRoom location }
    ensures kinds { ArePartsRead lines_after_kinds limits
        (ExpectKindProof ∷ ExpectKindProof ∷ ExpectKindProof ∷ ExpectKindProof ∷ [])
        location.entry result }
    ensures whole { IfOk result (λ r. slot_lines r.0 ≡ kinds_line ∷ lines_after_kinds r.0) }
{
    let (aws, first) = read_kind(alloc, limits, location)?;
    let (service, second) = read_kind(alloc, limits, first)?;
    let (federated, third) = read_kind(alloc, limits, second)?;
    let (canonical_user, end) = read_kind(alloc, limits, third)?;
    Ok((
        SlotProof::Kinds(aws, service, federated, canonical_user),
        end,
    ))
}

/// The proof for a slot.
pub(crate) fn read_slot_proof<'a>(
    alloc: Global,
    limits: Limits,
    location: Location<'a>,
) -> Result<(SlotProof, Location<'a>), ProofAnswer>
    requires { HasLineRoom location }
    ensures { ArePartsRead slot_lines limits (ExpectSlotProof ∷ []) location.entry result }
{
    let (line, behind) = line_at(location)?;
    match slot_line(limits, location.begun, line) {
        Ok(SlotLine::Points) => Ok((SlotProof::Points, behind)),
        Ok(SlotLine::Absent) => Ok((SlotProof::Absent, behind)),
        Ok(SlotLine::Required) => Ok((SlotProof::Required, behind)),
        Ok(SlotLine::Closed(count)) => {
            let (closed, end) = read_states(alloc, limits, count, behind)?;
            Ok((SlotProof::Word(closed), end))
        }
        Ok(SlotLine::Kinds) => read_kinds(alloc, limits, behind),
        Ok(SlotLine::Member(test)) => {
            let (closed, end) = read_closed(alloc, limits, behind)?;
            Ok((SlotProof::Member(test, closed), end))
        }
        Ok(SlotLine::OneMember) => {
            let (closed, end) = read_closed(alloc, limits, behind)?;
            Ok((SlotProof::SomeMember(closed), end))
        }
        Err(answer) => Err(answer_here(location.number, answer)),
    }
}
