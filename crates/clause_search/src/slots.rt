//! What the slots say of answers: a value for each of them, or answers that no value gives.
ghost use Rattle.std.specs.Prelude.{◌≢◌, ◌≡◌, ◌≤◌, ◌<◌, All, Any, IfOk, IsTrue, MatchBool, OnOk, length};
ghost use Rattle.slot_theory.specs.Cores.{HasTest};
ghost use Rattle.slot_theory.specs.Possible.{PathInRange};
ghost use Rattle.slot_theory.specs.Slots.{slot_of, test_at};
ghost use Rattle.clause_search.specs.Asked.{IsSearchAsked};
ghost use Rattle.clause_search.specs.Values.{AreFoundValues, HaveAllSlots};

use clause_learning::{Asked, states_of};
use formula_tree::Path;
use pattern_automata::LastClosed;
use plain_lists::{List, NoMemory};
use policy_model::{Slot, Test};
use request_build::SlotValues;
use slot_theory::{Core, Possible, SlotProof, is_on, possible, slot_of};
use std::alloc::Global;
use std::mem::replace;

// How many product states of a slot are looked at first; then as many as may be. Most conflicts need few.
const FIRST_STATES: u32 = 100;

// The most product states times answers: a state of many patterns is dear.
const MOST_STATES_OF_ANSWERS: usize = 1_000_000;

// So many may be looked at however many answers there are: with some more than two thousand, texts that are near are
// looked for first.
const LEAST_STATES: u32 = 2_500;

const LEVELS: u32 = 2;

// What a question takes at least, in units of work.
const QUESTION_WORK: usize = 500;

// What a product state takes, in units of work.
const STATE_WORK: usize = 100;

// What one of a closed set takes that is like the last: such a set needn't be searched for again, but is checked twice.
const KNOWN_STATE_WORK: usize = 50;

/// The slots for which no value was found that answers their tests as a path does.
#[derive(Drop)]
pub(crate) struct Failing {
    slots: List<Slot>,
    /// Tests of a slot that no value answers as the path does, with the proofs.
    pub(crate) cores: Vec<(Core, SlotProof)>,
    /// The last closed set that a product came to, which the next one may have too.
    pub(crate) last_closed: LastClosed,
    // How many units of work the questions took.
    work: usize,
    // How many product states the last closed set had.
    last_states: usize,
}

impl Failing {
    pub(crate) fn new(alloc: Global) -> Failing {
        Failing {
            slots: List::new(alloc),
            cores: Vec::new(alloc),
            last_closed: LastClosed::new(alloc),
            work: 0,
            last_states: 0,
        }
    }

    /// Whether there is none.
    pub(crate) fn is_empty(&self) -> bool {
        self.slots.is_empty()
    }

    /// Whether the test is on one of the slots.
    pub(crate) fn has_test(&self, test: &Test) -> bool {
        for slot in self.slots.as_slice() {
            if is_on(slot, test) {
                return true;
            }
        }
        false
    }

    /// How many units of work the questions took since this was asked last.
    pub(crate) fn take_work(&mut self) -> usize {
        replace(&mut self.work, 0)
    }

    // Counts the questions of a level. Where a slot has no value the product states are known that it took, and else
    // only how many they may be.
    fn count(&mut self, path: &Path, states: u32, found: usize) {
        let questions = self.slots.len().saturating_add(found);
        let others = questions.saturating_sub(self.cores.len());
        let looked = others
            .saturating_mul(states as usize)
            .saturating_mul(STATE_WORK);
        self.count_cores();
        let read = path
            .len()
            .saturating_add(QUESTION_WORK)
            .saturating_mul(questions);
        self.work = self.work.saturating_add(looked).saturating_add(read);
    }

    fn count_cores(&mut self) {
        for (_, proof) in self.cores.as_slice() {
            let states = states_of(proof);
            let price = if states == self.last_states {
                KNOWN_STATE_WORK
            } else {
                STATE_WORK
            };
            self.work = self.work.saturating_add(states.saturating_mul(price));
            self.last_states = states;
        }
    }

    /// Forgets the slots and the cores.
    fn clear(&mut self, alloc: Global) {
        self.slots = List::new(alloc);
        self.cores = Vec::new(alloc);
    }

    // Whether slots are left that more product states may decide, and nothing is excluded.
    fn waits(&self) -> bool {
        self.cores.is_empty() && !self.slots.is_empty()
    }

    fn has(&self, slot: &Slot) -> bool {
        for own in self.slots.as_slice() {
            if *own == *slot {
                return true;
            }
        }
        false
    }
}

// Whether the slot has a value.
fn has_value(values: &SlotValues, slot: &Slot) -> bool
    ensures { MatchBool result (Any (λ p. p.0 ≡ slot.now) values.now)
        (All (λ p. p.0 ≢ slot.now) values.now) }
{
    'values: for value in values.as_slice() {
        if value.0 == *slot {
            return true;
        }
    }
    false
}

// Asks the slot for a value that answers its tests as the path does.
fn ask_slot(
    asked: &Asked<'_>,
    path: &Path,
    slot: Slot,
    states: u32,
    values: &mut SlotValues,
    failing: &mut Failing,
) -> Result<(), NoMemory>
    requires ready { IsSearchAsked asked.now }
    requires positive { 1 ≤ states }
    requires range { PathInRange asked.now.query.now.tests path.now }
    requires on { HasTest asked.now.query.now.tests path.now slot }
    requires new { All (λ p. p.0 ≢ slot) values.old }
    requires values { AreFoundValues asked.now path.now values.old }
    ensures { OnOk result (AreFoundValues asked.now path.now values.new) }
{
    let (schema, tests) = (asked.schema, &asked.query.tests);
    match possible(schema, tests, path, &slot, states, &mut failing.last_closed)? {
        Possible::Found(value) => values.push((slot, value)),
        Possible::Conflict(core, proof) => {
            failing.cores.push((core, proof))?;
            failing.slots.push(slot)
        }
        Possible::TooMany(_) => failing.slots.push(slot),
    }
}

// Asks the slot of an answered test, unless it was asked already.
fn ask_test(
    asked: &Asked<'_>,
    path: &Path,
    test: u32,
    states: u32,
    values: &mut SlotValues,
    failing: &mut Failing,
) -> Result<(), NoMemory>
    requires ready { IsSearchAsked asked.now }
    requires positive { 1 ≤ states }
    requires range { PathInRange asked.now.query.now.tests path.now }
    requires within { test < length asked.now.query.now.tests }
    requires on { HasTest asked.now.query.now.tests path.now
        (slot_of (test_at asked.now.query.now.tests test)) }
    requires values { AreFoundValues asked.now path.now values.old }
    ensures { OnOk result (AreFoundValues asked.now path.now values.new) }
{
    let slot = slot_of(asked.alloc, &asked.query.tests.as_slice()[test as usize])?;
    if failing.has(&slot) {
        return Ok(());
    }
    if has_value(values, &slot) {
        return Ok(());
    }
    ask_slot(asked, path, slot, states, values, failing)
}

// Asks each slot of a test of the path, unless it was asked already.
fn ask_slots(
    asked: &Asked<'_>,
    path: &Path,
    states: u32,
    values: &mut SlotValues,
    failing: &mut Failing,
) -> Result<(), NoMemory>
    requires ready { IsSearchAsked asked.now }
    requires positive { 1 ≤ states }
    requires range { PathInRange asked.now.query.now.tests path.now }
    requires values { AreFoundValues asked.now path.now values.old }
    ensures { OnOk result (AreFoundValues asked.now path.now values.new) }
{
    'answers: for i in 0..path.len() {
        let Some((test, _)) = path.get(i) else {
            return Ok(());
        };
        ask_test(asked, path, test, states, values, failing)?;
    }
    Ok(())
}

// How many product states are looked at on a level, of as many as may be, where there are so many answers.
fn states_at(most: u32, level: u32, answers: usize) -> u32
    requires { 1 ≤ most }
    ensures { 1 ≤ result }
{
    if most <= FIRST_STATES {
        return most;
    }
    if level == 0 {
        return FIRST_STATES;
    }
    let affordable = (MOST_STATES_OF_ANSWERS / answers.max(1)).min(u32::MAX as usize);
    most.min(LEAST_STATES.max(affordable as u32))
}

/// Asks each slot of a test of the path for a value that answers the slot's tests as the path does. It looks at more
/// product states only where fewer don't decide a slot and no other slot excludes the answers.
pub(crate) fn ask_levels(
    asked: &Asked<'_>,
    path: &Path,
    values: &mut SlotValues,
    failing: &mut Failing,
) -> Result<(), NoMemory>
    requires ready { IsSearchAsked asked.now }
    requires range { PathInRange asked.now.query.now.tests path.now }
    requires values { AreFoundValues asked.now path.now values.old }
    ensures { OnOk result (AreFoundValues asked.now path.now values.new) }
{
    'levels: for level in 0..LEVELS {
        failing.clear(asked.alloc);
        let states = states_at(asked.states, level, path.len());
        let before = values.len();
        ask_slots(asked, path, states, values, failing)?;
        let found = values.len().saturating_sub(before);
        failing.count(path, states, found);
        if !failing.waits() {
            return Ok(());
        }
    }
    Ok(())
}

// Whether the slot of the test has a value.
fn has_value_on(asked: &Asked<'_>, values: &SlotValues, test: u32) -> bool
    requires within { test < length asked.now.query.now.tests }
    ensures { IsTrue result → Any (λ p. p.0 ≡ slot_of (test_at asked.now.query.now.tests test))
        values.now }
{
    let test = &asked.query.tests.as_slice()[test as usize];
    'values: for value in values.as_slice() {
        if is_on(&value.0, test) {
            return true;
        }
    }
    false
}

/// Whether each slot of a test of the path has a value.
pub(crate) fn have_all_slots(asked: &Asked<'_>, path: &Path, values: &SlotValues) -> bool
    requires range { PathInRange asked.now.query.now.tests path.now }
    ensures { IsTrue result → HaveAllSlots asked.now path.now values.now }
{
    'answers: for i in 0..path.len() {
        let Some((test, _)) = path.get(i) else {
            return false;
        };
        if !has_value_on(asked, values, test) {
            return false;
        }
    }
    true
}
