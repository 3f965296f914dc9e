//! Product states: lines of lists of places.
ghost use Rattle.std.specs.Prelude.{◌≡◌, ◌≤◌, ◌∷◌, [], IfOk, if◌then◌else◌, length, map, option_map, replicate, true};
ghost use Rattle.std.specs.Option.{option_copied};
ghost use Rattle.pattern_automata.specs.Closed.{all_rise};
ghost use Rattle.proof_text.specs.LineForms.{ExpectClosedSet, ExpectKindProof, ExpectSlotProof, ExpectState, line_said, lists_of_places, places_in, with_number};
ghost use Rattle.proof_text.specs.Lines.{closed_line, places_line};
ghost use Rattle.proof_text.specs.Spelling.{closed_lines};
ghost use Rattle.proof_text.specs.Steps.{HasLineRoom, IsLineRead, IsListPut, ArePartsRead, IsSmallRead, are_lists_small, are_small, parts_left};

use crate::fault::{LineAnswer, ProofAnswer, ProofCode};
use crate::limits::Limits;
use crate::location::{Location, answer_here, line_at};
use crate::numbers::{decimal_in, numbers_in, one_number, rises};
use crate::parts::{content_of, cut};
use pattern_automata::{Closed, PlaceList, PlaceLists};
use std::alloc::Global;

// The places of one pattern, or none where a number is too large.
fn places_in(alloc: Global, part: &[u8]) -> Result<Option<PlaceList>, LineAnswer>
    ensures { IsSmallRead are_small (places_in part.now) result }
{
    if part == b"-".as_slice() {
        return Ok(Some(PlaceList::new(alloc)));
    }
    numbers_in(alloc, Some(part), b',')
}

// Puts the places of one pattern behind those before: whether all of their numbers are small. Most often it is one
// place, and that takes no list of its own.
fn push_places(alloc: Global, part: &[u8], lists: &mut PlaceLists) -> Result<bool, LineAnswer>
    ensures { IsListPut (places_in part.now) lists.old lists.new result }
{
    if let Some(place) = decimal_in(part) {
        lists.push(&[place])?;
        return Ok(true);
    }
    match places_in(alloc, part)? {
        Some(places) => {
            lists.push(places.as_slice())?;
            Ok(true)
        }
        None => Ok(false),
    }
}

// Whether a number is too large, where one of those before was, and those of one pattern more are small or not.
fn is_large(before: bool, small: bool) -> bool
    ensures { result ≡ (if small then before else true) }
{
    if small { before } else { true }
}

/// The places of each pattern, or none where a number is too large.
pub(crate) fn lists_in(
    alloc: Global,
    behind: Option<&[u8]>,
) -> Result<Option<PlaceLists>, LineAnswer>
    ensures { IsSmallRead are_lists_small
        (lists_of_places (parts_left 32 (option_copied behind.entry))) result }
{
    let mut lists = PlaceLists::new(alloc);
    let mut large = false;
    let mut rest = behind;
    while let Some(text) = rest {
        let (part, more) = cut(text, b' ');
        let small = push_places(alloc, part, &mut lists)?;
        large = is_large(large, small);
        rest = more;
    }
    if large {
        return Ok(None);
    }
    Ok(Some(lists))
}

/// Whether the places of each pattern strictly rise.
pub(crate) fn all_rise(lists: &PlaceLists) -> bool
    ensures { result ≡ all_rise lists.now }
{
    for i in 0..lists.len() {
        if !rises(lists.get(i)) {
            return false;
        }
    }
    true
}

// The places behind the word of a product state's line.
fn places_line(
    alloc: Global,
    limits: Limits,
    begun: u32,
    behind: Option<&[u8]>,
) -> Result<PlaceLists, LineAnswer>
    ensures { IsLineRead places_line limits begun ExpectState
        (option_map places_line
        (lists_of_places (parts_left 32 (option_copied behind.entry)))) result }
{
    let Some(lists) = lists_in(alloc, behind)? else {
        return Err(LineAnswer::Fails(ProofCode::C4Limit));
    };
    if !all_rise(&lists) {
        return Err(LineAnswer::Fails(ProofCode::C1Syntax));
    }
    Ok(lists)
}

// What the line says, where a product state must stand.
fn state_line(
    alloc: Global,
    limits: Limits,
    begun: u32,
    line: &[u8],
) -> Result<PlaceLists, LineAnswer>
    ensures { IsLineRead places_line limits begun ExpectState
        (line_said ExpectState line.now) result }
{
    let Some(text) = content_of(line) else {
        return Err(LineAnswer::Fails(ProofCode::C1Syntax));
    };
    let (word, behind) = cut(text, b' ');
    if word == b"places".as_slice() {
        return places_line(alloc, limits, begun, behind);
    }
    Err(LineAnswer::Fails(ProofCode::C1Syntax))
}

// A product state.
fn read_state<'a>(
    alloc: Global,
    limits: Limits,
    location: Location<'a>,
) -> Result<(PlaceLists, Location<'a>), ProofAnswer>
    requires { HasLineRoom location }
    ensures { ArePartsRead
        (λ lists. places_line lists ∷ []) limits (ExpectState ∷ []) location.entry result }
{
    let (line, behind) = line_at(location)?;
    match state_line(alloc, limits, location.begun, line) {
        Ok(lists) => Ok((lists, behind)),
        Err(answer) => Err(answer_here(location.number, answer)),
    }
}

/// So many product states.
pub(crate) fn read_states<'a>(
    alloc: Global,
    limits: Limits,
    count: u32,
    location: Location<'a>,
) -> Result<(Closed, Location<'a>), ProofAnswer>
    requires { HasLineRoom location }
    ensures states { ArePartsRead
        (map places_line) limits (replicate count ExpectState) location.entry result }
    ensures count { IfOk result (λ r. length r.0 ≡ count) }
{
    let mut set = Closed::new(alloc);
    let mut at = location;
    for done in 0..count {
        let (state, behind) = read_state(alloc, limits, at)?;
        set.push(&state)?;
        at = behind;
    }
    Ok((set, at))
}

/// How many product states a closed set has, by what stands behind the word `closed`.
pub(crate) fn closed_count(
    limits: Limits,
    begun: u32,
    behind: Option<&[u8]>,
) -> Result<u32, LineAnswer>
    ensures set { IsLineRead closed_line limits begun ExpectClosedSet
        (with_number closed_line (parts_left 32 (option_copied behind.entry))) result }
    ensures slot { IsLineRead closed_line limits begun ExpectSlotProof
        (with_number closed_line (parts_left 32 (option_copied behind.entry))) result }
    ensures kind { IsLineRead closed_line limits begun ExpectKindProof
        (with_number closed_line (parts_left 32 (option_copied behind.entry))) result }
{
    let Some(count) = one_number(behind)? else {
        return Err(LineAnswer::Fails(ProofCode::C4Limit));
    };
    if count == 0 {
        return Err(LineAnswer::Fails(ProofCode::C1Syntax));
    }
    Ok(count)
}

// What the line says, where a closed set must stand.
fn set_line(limits: Limits, begun: u32, line: &[u8]) -> Result<u32, LineAnswer>
    ensures { IsLineRead closed_line limits begun ExpectClosedSet
        (line_said ExpectClosedSet line.now) result }
{
    let Some(text) = content_of(line) else {
        return Err(LineAnswer::Fails(ProofCode::C1Syntax));
    };
    let (word, behind) = cut(text, b' ');
    if word == b"closed".as_slice() {
        return closed_count(limits, begun, behind);
    }
    Err(LineAnswer::Fails(ProofCode::C1Syntax))
}

/// A closed set.
pub(crate) fn read_closed<'a>(
    alloc: Global,
    limits: Limits,
    location: Location<'a>,
) -> Result<(Closed, Location<'a>), ProofAnswer>
    requires { HasLineRoom location }
    ensures { ArePartsRead closed_lines limits (ExpectClosedSet ∷ []) location.entry result }
{
    let (line, behind) = line_at(location)?;
    match set_line(limits, location.begun, line) {
        Ok(count) => read_states(alloc, limits, count, behind),
        Err(answer) => Err(answer_here(location.number, answer)),
    }
}
