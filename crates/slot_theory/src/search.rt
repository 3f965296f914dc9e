//! The search for a value of a slot. It asks for a value that gives the answers of a few tests, its
//! core, and tries that on all of them; a test that the value answers otherwise joins the core.
ghost use Rattle.std.specs.Prelude.{◌≡◌, ◌≤◌, ◌<◌, ◌^◌, IfOk, MatchOption, All, length};
ghost use Rattle.formula_tree.specs.Answers.{IsDistinct};
ghost use Rattle.policy_model.specs.Soundness.{SchemaIsSound, TestSuits};
ghost use Rattle.slot_theory.specs.Possible.{PathInRange};
ghost use Rattle.slot_theory.specs.Cores.{HasTest, IsAnsweredOn};
ghost use Rattle.slot_theory.specs.declared.outcome.Possible.TheVariants.{Found};
ghost use Rattle.slot_theory.specs.Outcome.{IsSlotOutcome};
ghost use Rattle.slot_theory.specs.Unasked.{stated_value};
ghost use Rattle.slot_theory.specs.Slots.{SlotIsIn};
ghost use Rattle.slot_theory.specs.Question.{IsAnsweredOf, IsOutcomeOf};

use crate::attempt::attempt;
use crate::cores::with_test;
use crate::cutting::{cut, trimmed};
use crate::outcome::{Core, Possible};
use crate::question::Question;
use crate::slots::is_on;
use crate::steps::{Attempt, Kept};
use crate::together::{at_last, between_bounds};
use crate::unasked::stated_value;
use formula_tree::Path;
use pattern_automata::LastClosed;
use plain_lists::NoMemory;
use policy_model::{Schema, Slot, Test, TestList};
use std::alloc::Global;

/// The last answered test of the slot, or none where the path answers no test of it.
fn last_on(tests: &[Test], answers: &[(u32, bool)], slot: &Slot) -> Option<u32>
    requires range { PathInRange tests.now answers.now }
    requires distinct { IsDistinct answers.now }
    ensures { MatchOption result (¬ HasTest tests.now answers.now slot.now)
        (IsAnsweredOn tests.now answers.now slot.now) }
{
    for i in (0..answers.len()).rev() {
        let (n, _) = answers[i];
        if is_on(slot, &tests[n as usize]) {
            return Some(n);
        }
    }
    None
}

/// The search from a core of one test.
fn search(
    alloc: Global,
    question: &Question<'_>,
    first: u32,
    last_closed: &mut LastClosed,
) -> Result<Possible, NoMemory>
    requires first { IsAnsweredOf question.now first }
    ensures { IfOk result (IsOutcomeOf question.now) }
{
    let mut last = first;
    let mut core = Core::new(alloc);
    core.push(first)?;
    'grow: loop {
        match attempt(alloc, question, core.as_slice(), last_closed)? {
            Attempt::Empty(proof) => {
                let kept = trimmed(alloc, question, Kept { core, proof })?;
                let small = cut(alloc, question, kept, last)?;
                return Ok(Possible::Conflict(small.core, small.proof));
            }
            Attempt::Full(texts) => return Ok(Possible::TooMany(texts)),
            Attempt::Right(value) => return Ok(Possible::Found(value)),
            Attempt::Wrong(n) => {
                if let Some(found) = at_last(alloc, question, core.len())? {
                    return Ok(found);
                }
                core = with_test(alloc, core.as_slice(), n)?;
                last = n;
            }
        }
    }
}

/// The search: by the bounds of numbers where they decide it, and else from a core of one test.
fn searched(
    alloc: Global,
    question: &Question<'_>,
    first: u32,
    last_closed: &mut LastClosed,
) -> Result<Possible, NoMemory>
    requires first { IsAnsweredOf question.now first }
    ensures { IfOk result (IsOutcomeOf question.now) }
{
    if let Some(found) = between_bounds(alloc, question)? {
        return Ok(found);
    }
    search(alloc, question, first, last_closed)
}

/// A value of a slot that answers the slot's tests as the path does. Otherwise tests of the slot that no value answers
/// so, with a proof. Or one more text than `states`, no two with the same product state of the patterns that are
/// asked. Where the path answers no test of the slot, it is the stated value.
///
/// The schema is sound, and the tests suit it and are numbered by 32 bits. The path's tests are in range, and a key
/// that is the slot is one of the schema's. `states` is at least 1: the most product states that are looked at for some
/// of the tests. The closed set that an earlier call left in `last_closed` may stand for a search of this one, and
/// doesn't change the answer. The only error is want of memory.
pub fn possible(
    schema: &Schema,
    tests: &TestList,
    path: &Path,
    slot: &Slot,
    states: u32,
    last_closed: &mut LastClosed,
) -> Result<Possible, NoMemory>
    requires sound { SchemaIsSound schema.now }
    requires suit { All (TestSuits schema.now) tests.now }
    requires count { length tests.now < 2 ^ 32 }
    requires range { PathInRange tests.now path.now }
    requires slot { SlotIsIn schema.now slot.now }
    requires positive { 1 ≤ states }
    ensures outcome { IfOk result (IsSlotOutcome schema.now tests.now path.now slot.now states) }
    ensures unasked { IfOk result (λ found. ¬ HasTest tests.now path.now slot.now →
        found ≡ Found (stated_value schema.now slot.now)) }
{
    let alloc = last_closed.alloc();
    let Some(last) = last_on(tests.as_slice(), path.as_slice(), slot) else {
        return Ok(Possible::Found(stated_value(alloc, schema, slot)?));
    };
    let question = Question {
        schema,
        tests: tests.as_slice(),
        path,
        slot,
        states,
    };
    searched(alloc, &question, last, last_closed)
}
