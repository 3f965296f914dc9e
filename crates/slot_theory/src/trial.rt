//! A value is tried on all answered tests of its slot.
ghost use Rattle.std.specs.Prelude.{◌≡◌, MatchBool, MatchOption};
ghost use Rattle.formula_tree.specs.Answers.{IsDistinct};
ghost use Rattle.slot_theory.specs.Slots.{AnswersSlot, slot_of, AnswersTest};
ghost use Rattle.slot_theory.specs.Possible.{PathInRange};
ghost use Rattle.slot_theory.specs.Steps.{IsOtherwise, IsTried, IsWrong};

use crate::outcome::SlotValue;
use crate::question::Question;
use crate::slots::{is_on, meets};
use crate::steps::Attempt;
use policy_model::{Slot, Test};

/// Whether the test is on the slot and the value answers it otherwise.
fn is_wrong(slot: &Slot, test: &Test, value: &SlotValue, holds: bool) -> bool
    ensures { MatchBool result (IsOtherwise slot.now value.now test.now holds)
        (slot_of test.now ≡ slot.now → AnswersTest value.now test.now holds) }
{
    if !is_on(slot, test) {
        return false;
    }
    meets(value, test) != holds
}

/// The first answered test of the slot that the value answers otherwise.
fn first_wrong(
    tests: &[Test],
    answers: &[(u32, bool)],
    slot: &Slot,
    value: &SlotValue,
) -> Option<u32>
    requires range { PathInRange tests.now answers.now }
    requires distinct { IsDistinct answers.now }
    ensures { MatchOption result (AnswersSlot tests.now answers.now slot.now value.now)
        (IsWrong tests.now answers.now slot.now value.now) }
{
    for i in 0..answers.len() {
        let (n, holds) = answers[i];
        if is_wrong(slot, &tests[n as usize], value, holds) {
            return Some(n);
        }
    }
    None
}

/// The value, tried on all answered tests of the slot.
pub fn tried(question: &Question<'_>, value: SlotValue) -> Attempt
    ensures { IsTried question.now value result }
{
    match first_wrong(
        question.tests,
        question.path.as_slice(),
        question.slot,
        &value,
    ) {
        None => Attempt::Right(value),
        Some(n) => Attempt::Wrong(n),
    }
}
