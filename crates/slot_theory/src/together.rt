//! The search with many answered tests of a slot at once. A key whose values aren't texts has finitely many
//! values that stand for all, which are looked at in one pass however many tests there are, while a core
//! that grows test by test takes a pass for each. For numbers between bounds at most four tests are enough.
ghost use Rattle.std.specs.Prelude.{◌≡◌, IfOk, IfSome, IsTrue};
ghost use Rattle.slot_theory.specs.declared.outcome.SlotValue.TheVariants.{Values};
ghost use Rattle.slot_theory.specs.Question.{IsCoreOf, IsOutcomeOf, PermitsOne};
ghost use Rattle.slot_theory.specs.Slots.{Permits};
ghost use Rattle.slot_theory.specs.Shrinking.{IsKept};

use crate::attempt::attempt;
use crate::bounds::proposed_number;
use crate::cores::is_core;
use crate::cutting::{confirmed, found_or};
use crate::keys::{few_of, rule_of};
use crate::outcome::{Core, Possible, SlotValue};
use crate::question::Question;
use crate::slots::is_on;
use crate::steps::{Attempt, Kept, Proposal};
use crate::trial::tried;
use pattern_automata::LastClosed;
use plain_lists::NoMemory;
use policy_model::{Kind, Value, ValueList, is_value_of};
use std::alloc::Global;

/// Cores with fewer tests grow test by test.
const FEW_TESTS: usize = 16;

/// Whether a core of so many tests has taken as long to grow as all tests at once would take.
fn is_long(question: &Question<'_>, count: usize) -> bool {
    if count < FEW_TESTS || count.saturating_mul(count) < question.path.len() {
        return false;
    }
    match rule_of(question) {
        Some(rule) => rule.kind != Kind::Text,
        None => false,
    }
}

/// The answered tests of the slot.
fn answered_tests(alloc: Global, question: &Question<'_>) -> Result<Core, NoMemory> {
    let mut numbers = Vec::new(alloc);
    for (n, _) in question.path.as_slice() {
        if let Some(test) = question.tests.get(*n as usize) {
            if is_on(question.slot, test) {
                numbers.push(*n)?;
            }
        }
    }
    numbers.sort()?;
    Ok(Core::from_vec(numbers))
}

/// The conflict with fewer tests, by what answers them otherwise, or else by leaving out each.
fn reduced(alloc: Global, question: &Question<'_>, first: Kept) -> Result<Kept, NoMemory>
    requires kept { IsKept question.now first }
    ensures { IfOk result (IsKept question.now) }
{
    let few = few_of(alloc, question, first.core.as_slice())?;
    let fewer = confirmed(alloc, question, few);
    found_or(fewer, first)
}

/// What a search with this core answers, unless the core grows.
fn settled(alloc: Global, question: &Question<'_>, core: Core) -> Result<Option<Possible>, NoMemory>
    requires core { IsCoreOf question.now core }
    ensures { IfOk result (λ found. IfSome found (IsOutcomeOf question.now)) }
{
    let mut last_closed = LastClosed::new(alloc);
    match attempt(alloc, question, core.as_slice(), &mut last_closed)? {
        Attempt::Empty(proof) => {
            let kept = reduced(alloc, question, Kept { core, proof })?;
            Ok(Some(Possible::Conflict(kept.core, kept.proof)))
        }
        Attempt::Full(texts) => Ok(Some(Possible::TooMany(texts))),
        Attempt::Right(value) => Ok(Some(Possible::Found(value))),
        Attempt::Wrong(_) => Ok(None),
    }
}

/// The tests, where they are a core.
fn as_core(question: &Question<'_>, tests: Core) -> Option<Core>
    ensures { IfSome result (IsCoreOf question.now) }
{
    if !is_core(
        question.tests,
        question.path,
        question.slot,
        tests.as_slice(),
    ) {
        return None;
    }
    Some(tests)
}

/// What a search with these tests answers, where they are a core, unless it grows.
fn settled_by(
    alloc: Global,
    question: &Question<'_>,
    tests: Core,
) -> Result<Option<Possible>, NoMemory>
    ensures { IfOk result (λ found. IfSome found (IsOutcomeOf question.now)) }
{
    match as_core(question, tests) {
        Some(core) => settled(alloc, question, core),
        None => Ok(None),
    }
}

/// Whether the rule of the slot permits the value.
fn is_permitted(question: &Question<'_>, value: &Value) -> bool
    ensures { IsTrue result → PermitsOne question.now value.now }
{
    match rule_of(question) {
        Some(rule) => is_value_of(rule, value),
        None => false,
    }
}

/// The values, where they answer all answered tests of the slot.
fn value_of(question: &Question<'_>, values: ValueList) -> Option<Possible>
    requires permitted { Permits question.now.schema.now question.now.slot.now (Values values) }
    ensures { IfSome result (IsOutcomeOf question.now) }
{
    match tried(question, SlotValue::Values(values)) {
        Attempt::Right(value) => Some(Possible::Found(value)),
        _ => None,
    }
}

/// The value alone, where the rule of the slot permits it and it answers all answered tests of the slot.
fn value_alone(
    alloc: Global,
    question: &Question<'_>,
    value: Value,
) -> Result<Option<Possible>, NoMemory>
    ensures { IfOk result (λ found. IfSome found (IsOutcomeOf question.now)) }
{
    if !is_permitted(question, &value) {
        return Ok(None);
    }
    let mut values = ValueList::new(alloc);
    values.push(value)?;
    Ok(value_of(question, values))
}

/// The conflict of these tests, where they are one.
fn conflict_of(
    alloc: Global,
    question: &Question<'_>,
    tests: Core,
) -> Result<Option<Possible>, NoMemory>
    ensures { IfOk result (λ found. IfSome found (IsOutcomeOf question.now)) }
{
    match confirmed(alloc, question, tests)? {
        Some(kept) => Ok(Some(Possible::Conflict(kept.core, kept.proof))),
        None => Ok(None),
    }
}

/// What is proposed, where it holds.
fn taken(
    alloc: Global,
    question: &Question<'_>,
    proposal: Option<Proposal>,
) -> Result<Option<Possible>, NoMemory>
    ensures { IfOk result (λ found. IfSome found (IsOutcomeOf question.now)) }
{
    match proposal {
        Some(Proposal::Value(value)) => value_alone(alloc, question, value),
        Some(Proposal::Tests(tests)) => conflict_of(alloc, question, tests),
        None => Ok(None),
    }
}

/// What a search with all answered tests answers, where a core that grows has come to many of them.
pub fn at_last(
    alloc: Global,
    question: &Question<'_>,
    count: usize,
) -> Result<Option<Possible>, NoMemory>
    ensures { IfOk result (λ found. IfSome found (IsOutcomeOf question.now)) }
{
    if !is_long(question, count) {
        return Ok(None);
    }
    let tests = answered_tests(alloc, question)?;
    settled_by(alloc, question, tests)
}

/// The answer by the bounds of a key of numbers, where many of their tests are answered.
pub fn between_bounds(alloc: Global, question: &Question<'_>) -> Result<Option<Possible>, NoMemory>
    ensures { IfOk result (λ found. IfSome found (IsOutcomeOf question.now)) }
{
    let proposal = proposed_number(alloc, question, FEW_TESTS)?;
    taken(alloc, question, proposal)
}
