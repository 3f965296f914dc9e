//! The check of a closed set.
ghost use Rattle.std.specs.Prelude.{◌≡◌, ◌+◌, ◌<◌, ◌++◌, ◌↔◌, Some, true, nat_le, length, slice_get, take, IsTrue, IfOk, OnOk, All};
ghost use Rattle.std.specs.List.{list_all};
ghost use Rattle.wildcard_lang.specs.Accepts.{tests};
ghost use Rattle.wildcard_lang.specs.Places.{contains_place};
ghost use Rattle.pattern_automata.specs.Closed.{rises_from, all_rise, IsShaped, InRange, IsClosedUnder};
ghost use Rattle.pattern_automata.specs.Marks.{marks_from, mark_count};
ghost use Rattle.pattern_automata.specs.Machine.{IsMachine};
ghost use Rattle.pattern_automata.specs.Packed.{pack, words_for};
ghost use Rattle.pattern_automata.specs.Checked.{places_fit, AreMembers, HasAlso, HavePassed, IsOfMarks, StandsBefore, TakesIn, DecidesWhether};

use crate::found::Found;
use crate::machine::{Machine, machine_of};
use crate::search::{Room, is_met, leads_as_earlier, start_words, step_into};
use crate::states::{Closed, State};
use crate::wants::Wants;
use crate::words::pack;
use indexmap::IndexMap;
use plain_lists::NoMemory;
use std::alloc::Global;
use wildcard_lang::Pattern;

/// For how many marks there is room from the start.
const ROOM: usize = 256;

/// The words of the members of a set.
#[derive(Drop)]
struct Members {
    /// Those of the states whose places fit: what a step can lead to.
    fitting: Found,
    /// Those of the other states.
    others: Found,
    /// Of each guess at which states are equal the last state that it was made of.
    guesses: IndexMap<u64, usize>,
}

/// Whether each number is greater than the one before it. It takes no memory.
pub fn rises(numbers: &[u32]) -> bool
    ensures { result ≡ rises_from 0 numbers.now }
{
    let mut next: u64 = 0;
    for number in numbers {
        let number = u64::from(*number);
        if number < next {
            return false;
        }
        next = number + 1;
    }
    true
}

/// Whether each list of the state rises.
fn all_rise(state: &State<'_>) -> bool
    ensures { result ≡ all_rise state.now }
{
    for i in 0..state.len() {
        if !rises(state.get(i)) {
            return false;
        }
    }
    true
}

/// Whether there is one list per pattern, each rising.
fn is_shaped(patterns: &[Pattern], state: &State<'_>) -> bool
    ensures { IsTrue result ↔ IsShaped patterns.now state.now }
{
    state.len() == patterns.len() && all_rise(state)
}

/// Whether each place is at most `most`.
fn at_most(places: &[u32], most: usize) -> bool
    ensures { result ≡ list_all (λ j. nat_le j most) places.now }
{
    for place in places {
        if *place as usize > most {
            return false;
        }
    }
    true
}

/// Whether each place is at most the number of its pattern's pieces.
fn places_fit(patterns: &[Pattern], state: &State<'_>) -> bool
    requires { length state.now ≡ length patterns.now }
    ensures { result ≡ places_fit patterns.now state.now }
{
    for i in 0..patterns.len() {
        if !at_most(state.get(i), patterns[i].len()) {
            return false;
        }
    }
    true
}

/// Whether the list has the place at the index.
fn is_at(list: &[u32], index: usize, place: usize) -> bool
    ensures { IsTrue result ↔ (slice_get list.now index ≡ Some place) }
{
    match list.get(index) {
        Some(there) => *there as usize == place,
        None => false,
    }
}

/// Adds a mark for each number below count, which says whether the rising list has it.
fn push_marks(list: &[u32], count: usize, marks: &mut Vec<bool>) -> Result<(), NoMemory>
    requires { rises_from 0 list.now ≡ true }
    ensures { OnOk result
        (marks.new.items ≡ marks.old.items ++ tests (contains_place list.now) 0 count) }
{
    let mut next = 0;
    for j in 0..count {
        let there = is_at(list, next, j);
        marks.push(there)?;
        next += usize::from(there);
    }
    Ok(())
}

/// The marks of the state.
fn marks_of(alloc: Global, patterns: &[Pattern], state: &State<'_>) -> Result<Vec<bool>, NoMemory>
    requires { IsShaped patterns.now state.now }
    ensures { IfOk result (λ v. v.items ≡ marks_from patterns.now state.now) }
{
    let mut marks = Vec::with_capacity(alloc, ROOM)?;
    for i in 0..patterns.len() {
        push_marks(state.get(i), patterns[i].len() + 1, &mut marks)?;
    }
    Ok(marks)
}

/// The words of the marks of the state.
fn words_of(alloc: Global, patterns: &[Pattern], state: &State<'_>) -> Result<Vec<u64>, NoMemory>
    requires { IsShaped patterns.now state.now }
    ensures { IfOk result (λ v. v.items ≡ pack (marks_from patterns.now state.now)) }
{
    let marks = marks_of(alloc, patterns, state)?;
    pack(alloc, marks.as_slice())
}

/// Whether each member is shaped.
fn all_shaped(patterns: &[Pattern], closed: &Closed) -> bool
    ensures { IsTrue result ↔ All (IsShaped patterns.now) closed.now }
{
    for i in 0..closed.len() {
        let state = closed.get(i);
        if !is_shaped(patterns, &state) {
            return false;
        }
    }
    true
}

/// Adds the words, where they aren't there.
fn keep(words: &[u64], found: &mut Found) -> Result<(), NoMemory>
    ensures { OnOk result (HasAlso found.old words.now found.new) }
{
    if found.has(words) {
        return Ok(());
    }
    found.push(words)?;
    Ok(())
}

/// Adds the words of the state.
fn add_member(
    alloc: Global,
    patterns: &[Pattern],
    state: &State<'_>,
    members: &mut Members,
) -> Result<(), NoMemory>
    requires { IsShaped patterns.now state.now }
    ensures { OnOk result (TakesIn patterns.now state.now members.old members.new) }
{
    let words = words_of(alloc, patterns, state)?;
    if places_fit(patterns, state) {
        keep(words.as_slice(), &mut members.fitting)?;
        return Ok(());
    }
    keep(words.as_slice(), &mut members.others)?;
    Ok(())
}

/// What the hash FNV-1a of 64 bits begins with, and what it multiplies by.
const FIRST_GUESS: u64 = 14_695_981_039_346_656_037;

const GUESS_FACTOR: u64 = 1_099_511_628_211;

/// A guess at which numbers are equal, with one number more.
fn mix(guess: u64, number: u64) -> u64 {
    (guess ^ number).wrapping_mul(GUESS_FACTOR)
}

/// Mixes in the places of a list.
fn mix_places(before: u64, places: &[u32]) -> u64 {
    let mut guess = before;
    for place in places {
        guess = mix(guess, u64::from(*place));
    }
    guess
}

/// A guess at which states are equal.
fn guess_of(state: &State<'_>) -> u64 {
    let mut guess = FIRST_GUESS;
    for i in 0..state.len() {
        guess = mix(mix_places(guess, state.get(i)), u64::MAX);
    }
    guess
}

/// Whether the state at an index is known to stand earlier too, where the guesses are those of the
/// earlier ones.
fn stands_earlier(
    closed: &Closed,
    i: usize,
    guesses: &mut IndexMap<u64, usize>,
) -> Result<bool, NoMemory>
    requires { i < length closed.now }
    ensures { IfOk result (λ yes. IsTrue yes → StandsBefore closed.now i) }
{
    let state = closed.get(i);
    let Some(earlier) = guesses.insert(guess_of(&state), i)? else {
        return Ok(false);
    };
    if earlier >= i {
        return Ok(false);
    }
    Ok(state.is_equal(&closed.get(earlier)))
}

/// Adds the words of the state at an index to those of the states before it.
fn take_in(
    alloc: Global,
    patterns: &[Pattern],
    closed: &Closed,
    i: usize,
    members: &mut Members,
) -> Result<(), NoMemory>
    requires shaped { All (IsShaped patterns.now) closed.now }
    requires within { i < length closed.now }
    requires before { AreMembers patterns.now (take i closed.now) members.old }
    ensures { OnOk result (AreMembers patterns.now (take (i + 1) closed.now) members.new) }
{
    if stands_earlier(closed, i, &mut members.guesses)? {
        return Ok(());
    }
    add_member(alloc, patterns, &closed.get(i), members)?;
    Ok(())
}

/// The words of the members of the set. A state that stands many times is read once, as a rule.
fn members_of(alloc: Global, patterns: &[Pattern], closed: &Closed) -> Result<Members, NoMemory>
    requires { All (IsShaped patterns.now) closed.now }
    ensures { IfOk result (AreMembers patterns.now closed.now) }
{
    let mut members = Members {
        fitting: Found::new(alloc)?,
        others: Found::new(alloc)?,
        guesses: IndexMap::new(alloc),
    };
    for i in 0..closed.len() {
        take_in(alloc, patterns, closed, i, &mut members)?;
    }
    Ok(members)
}

/// Whether the marks meet no clauses and each move leads to words of the index.
fn passes(
    wants: &Wants,
    machine: &Machine,
    index: &Found,
    words: &[u64],
    room: &mut Room,
) -> Result<bool, NoMemory>
    requires range { InRange (length wants.now.patterns) wants.now.clauses }
    requires machine { IsMachine wants.now.patterns machine.now }
    requires size { length words.now ≡ words_for (mark_count wants.now.patterns) }
    ensures { IfOk result (DecidesWhether wants.now machine.now index.now words.now) }
{
    if is_met(wants, machine, words) {
        return Ok(false);
    }
    for k in 0..machine.moves.len() {
        let step = &machine.moves[k];
        if leads_as_earlier(wants, machine, k, step, words) {
            continue;
        }
        step_into(wants, machine, step, words, room)?;
        if !index.has(room.words.as_slice()) {
            return Ok(false);
        }
    }
    Ok(true)
}

/// Whether all these words pass.
fn all_pass(
    alloc: Global,
    wants: &Wants,
    machine: &Machine,
    index: &Found,
    found: &Found,
) -> Result<bool, NoMemory>
    requires range { InRange (length wants.now.patterns) wants.now.clauses }
    requires machine { IsMachine wants.now.patterns machine.now }
    requires marks { All (IsOfMarks wants.now.patterns) found.now }
    ensures { IfOk result
        (λ yes. IsTrue yes ↔ HavePassed wants.now machine.now index.now found.now) }
{
    let mut room = Room {
        moved: Vec::new(alloc),
        words: Vec::new(alloc),
    };
    for i in 0..found.len() {
        if !passes(wants, machine, index, found.get(i), &mut room)? {
            return Ok(false);
        }
    }
    Ok(true)
}

/// The check of a shaped set, from what there is to know of the patterns.
fn check(alloc: Global, wants: &Wants, machine: &Machine, closed: &Closed) -> Result<bool, NoMemory>
    requires range { InRange (length wants.now.patterns) wants.now.clauses }
    requires machine { IsMachine wants.now.patterns machine.now }
    requires shaped { All (IsShaped wants.now.patterns) closed.now }
    ensures { IfOk result (λ yes. IsTrue yes ↔ IsClosedUnder wants.now closed.now) }
{
    let patterns = wants.patterns.as_slice();
    let members = members_of(alloc, patterns, closed)?;
    let start = start_words(alloc, patterns, machine.count)?;
    if !members.fitting.has(start.as_slice()) {
        return Ok(false);
    }
    if !all_pass(alloc, wants, machine, &members.fitting, &members.fitting)? {
        return Ok(false);
    }
    all_pass(alloc, wants, machine, &members.fitting, &members.others)
}

/// Whether the set of product states is closed. Then no text meets the wants. It is closed if
///
/// - each state has one list for each pattern, with strictly rising places;
/// - it has the state of the empty text;
/// - it has the step of each state by each representative: the literals of the patterns, both cases of folded
///   ones, the colon, and the least Unicode scalar that is none of these, if there is one;
/// - no state meets the clauses.
///
/// Each literal names one of the patterns. The only error is want of memory.
pub fn is_closed(alloc: Global, wants: &Wants, closed: &Closed) -> Result<bool, NoMemory>
    requires { InRange (length wants.now.patterns) wants.now.clauses }
    ensures { IfOk result (λ yes. IsTrue yes ↔ IsClosedUnder wants.now closed.now) }
{
    let patterns = wants.patterns.as_slice();
    if !all_shaped(patterns, closed) {
        return Ok(false);
    }
    let machine = machine_of(alloc, patterns)?;
    check(alloc, wants, &machine, closed)
}
