//! Whether a valid request answers one test or two of a slot as wanted: by a sample, or by a search of the
//! slot's values.
ghost use Rattle.std.specs.Prelude.{◌≡◌, ◌≤◌, ◌<◌, ◌^◌, ◌∷◌, [], true, false, IfOk, All, length};
ghost use Rattle.policy_model.specs.Soundness.{SchemaIsSound, TestSuits};
ghost use Rattle.slot_theory.specs.Cores.{HasTest};
ghost use Rattle.slot_theory.specs.Possible.{PathInRange};
ghost use Rattle.slot_theory.specs.Slots.{SlotIsIn, slot_of};
ghost use Rattle.summary_search.specs.Questions.{IsTestOnSlot, DecidesPossible};

use crate::samples::{sample_escapes, sample_passes, stated_misses};
use formula_tree::Path;
use pattern_automata::LastClosed;
use plain_lists::NoMemory;
use policy_model::{Schema, Slot, Test, TestList};
use slot_theory::{Possible, possible};
use std::alloc::Global;
use strata::Within;

// Whether a valid request answers the path, whose tests are all on one slot.
fn is_possible(
    alloc: Global,
    schema: &Schema,
    tests: &TestList,
    path: &Path,
    slot: &Slot,
    states: u32,
) -> Result<Within, NoMemory>
    requires sound { SchemaIsSound schema.now }
    requires suit { All (TestSuits schema.now) tests.now }
    requires count { length tests.now < 2 ^ 32 }
    requires range { PathInRange tests.now path.now }
    requires slot { SlotIsIn schema.now slot.now }
    requires on { All (λ t. slot_of t ≡ slot.now) tests.now }
    requires asked { HasTest tests.now path.now slot.now }
    requires positive { 1 ≤ states }
    ensures { IfOk result (DecidesPossible schema.now tests.now path.now slot.now states) }
{
    // The schema's keys are in order, so what is found for the slot is part of a valid request.
    let _keys = schema.len();
    let mut last_closed = LastClosed::new(alloc);
    match possible(schema, tests, path, slot, states, &mut last_closed)? {
        Possible::Found(_) => Ok(Within::Yes),
        Possible::Conflict(_, _) => Ok(Within::No),
        Possible::TooMany(texts) => Ok(Within::TooMany(texts)),
    }
}

// Whether a valid request answers the test so.
fn ask_one(
    alloc: Global,
    schema: &Schema,
    slot: &Slot,
    test: Test,
    answer: bool,
    states: u32,
) -> Result<Within, NoMemory>
    requires sound { SchemaIsSound schema.now }
    requires slot { SlotIsIn schema.now slot.now }
    requires suits { IsTestOnSlot schema.now slot.now test }
    requires positive { 1 ≤ states }
    ensures { IfOk result
        (DecidesPossible schema.now (test ∷ []) ((0, answer) ∷ []) slot.now states) }
{
    let mut tests = TestList::new(alloc);
    tests.push(test)?;
    let mut path = Path::new(alloc);
    path.push(0, answer)?;
    is_possible(alloc, schema, &tests, &path, slot, states)
}

// The two tests, in this order.
fn both(alloc: Global, one: Test, other: Test) -> Result<TestList, NoMemory>
    ensures { IfOk result (λ tests. tests ≡ one ∷ other ∷ []) }
{
    let mut tests = TestList::new(alloc);
    tests.push(one)?;
    tests.push(other)?;
    Ok(tests)
}

// The path that answers the first test yes and the second no.
fn passing_first_alone(alloc: Global) -> Result<Path, NoMemory>
    ensures { IfOk result (λ path. path ≡ (0, true) ∷ (1, false) ∷ []) }
{
    let mut path = Path::new(alloc);
    path.push(0, true)?;
    path.push(1, false)?;
    Ok(path)
}

// Whether a valid request answers the one test yes and the other no.
fn ask_two(
    alloc: Global,
    schema: &Schema,
    slot: &Slot,
    yes: Test,
    no: Test,
    states: u32,
) -> Result<Within, NoMemory>
    requires sound { SchemaIsSound schema.now }
    requires slot { SlotIsIn schema.now slot.now }
    requires yes_suits { IsTestOnSlot schema.now slot.now yes }
    requires no_suits { IsTestOnSlot schema.now slot.now no }
    requires positive { 1 ≤ states }
    ensures { IfOk result (DecidesPossible schema.now
        (yes ∷ no ∷ []) ((0, true) ∷ (1, false) ∷ []) slot.now states) }
{
    let tests = both(alloc, yes, no)?;
    let path = passing_first_alone(alloc)?;
    is_possible(alloc, schema, &tests, &path, slot, states)
}

/// Whether a valid request passes the test. A sample is tried first.
pub fn ask_passed(
    alloc: Global,
    schema: &Schema,
    slot: &Slot,
    test: Test,
    states: u32,
) -> Result<Within, NoMemory>
    requires sound { SchemaIsSound schema.now }
    requires slot { SlotIsIn schema.now slot.now }
    requires suits { IsTestOnSlot schema.now slot.now test }
    requires positive { 1 ≤ states }
    ensures { IfOk result
        (DecidesPossible schema.now (test ∷ []) ((0, true) ∷ []) slot.now states) }
{
    if sample_passes(alloc, schema, slot, &test)? {
        return Ok(Within::Yes);
    }
    ask_one(alloc, schema, slot, test, true, states)
}

/// Whether a valid request misses the test. The value of a slot that nothing is asked of is tried first.
pub fn ask_missed(
    alloc: Global,
    schema: &Schema,
    slot: &Slot,
    test: Test,
    states: u32,
) -> Result<Within, NoMemory>
    requires sound { SchemaIsSound schema.now }
    requires slot { SlotIsIn schema.now slot.now }
    requires suits { IsTestOnSlot schema.now slot.now test }
    requires positive { 1 ≤ states }
    ensures { IfOk result
        (DecidesPossible schema.now (test ∷ []) ((0, false) ∷ []) slot.now states) }
{
    if stated_misses(alloc, schema, slot, &test)? {
        return Ok(Within::Yes);
    }
    ask_one(alloc, schema, slot, test, false, states)
}

/// Whether a valid request passes the one test and misses the other. A sample of the one is tried first.
pub fn ask_escape(
    alloc: Global,
    schema: &Schema,
    slot: &Slot,
    yes: Test,
    no: Test,
    states: u32,
) -> Result<Within, NoMemory>
    requires sound { SchemaIsSound schema.now }
    requires slot { SlotIsIn schema.now slot.now }
    requires yes_suits { IsTestOnSlot schema.now slot.now yes }
    requires no_suits { IsTestOnSlot schema.now slot.now no }
    requires positive { 1 ≤ states }
    ensures { IfOk result (DecidesPossible schema.now
        (yes ∷ no ∷ []) ((0, true) ∷ (1, false) ∷ []) slot.now states) }
{
    if sample_escapes(alloc, schema, slot, &yes, &no)? {
        return Ok(Within::Yes);
    }
    ask_two(alloc, schema, slot, yes, no, states)
}
