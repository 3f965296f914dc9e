//! A key for a core: the values that answer the core, or what shows that there are none.
ghost use Rattle.std.specs.Prelude.{◌≡◌, ◌↔◌, true, IfOk, IsTrue, option_map};
ghost use Rattle.pattern_automata.specs.Closed.{rises_from};
ghost use Rattle.policy_model.specs.Soundness.{RuleIsSound};
ghost use Rattle.slot_theory.specs.Cores.{MemberShows};
ghost use Rattle.slot_theory.specs.Question.{IsCoreOf, IsOnKey, KeyShowsOf, core_asks, slot_rule};
ghost use Rattle.slot_theory.specs.Steps.{IsAttempt};

use crate::cores::index_in;
use crate::outcome::{Core, SlotProof, SlotValue};
use crate::question::Question;
use crate::slots::ask_of;
use crate::steps::Attempt;
use crate::trial::tried;
use pattern_automata::Closed;
use plain_lists::NoMemory;
use policy_model::{KeyRule, Slot};
use set_operators::{
    KeyAnswer, KeyAsks, few_asks, shows_absent, shows_member, shows_points, shows_required,
    shows_some_member, shows_together, solve,
};
use std::alloc::Global;

/// What the core asks of the key's values, in the order of the core.
fn asks_of(alloc: Global, question: &Question<'_>, core: &[u32]) -> Result<KeyAsks, NoMemory>
    requires core { IsCoreOf question.now core.now }
    ensures { IfOk result (λ asks. asks ≡ core_asks question.now core.now) }
{
    let mut asks = KeyAsks::new(alloc);
    for n in core {
        let ask = ask_of(&question.tests[*n as usize])?;
        let holds = question.path.answer(*n).unwrap_or(false);
        asks.push((ask, holds))?;
    }
    Ok(asks)
}

/// The rule of the key that is the slot.
pub fn rule_of<'a>(question: &Question<'a>) -> Option<&'a KeyRule>
    ensures { option_map (λ v. v.now) result ≡
        slot_rule question.now.schema.now question.now.slot.now }
{
    match question.slot {
        Slot::Key(name) => question.schema.get(name),
        _ => None,
    }
}

/// The tests of the core at these indices, which fall.
fn tests_at(alloc: Global, core: &[u32], falling: &[usize]) -> Result<Core, NoMemory> {
    let mut tests = Core::new(alloc);
    for index in falling.iter().rev() {
        if let Some(n) = core.get(*index) {
            tests.push(*n)?;
        }
    }
    Ok(tests)
}

/// Few tests of the core that no values of a key answer, if the key's values aren't texts. That is a
/// proposal: nothing is promised of it.
pub fn few_of(alloc: Global, question: &Question<'_>, core: &[u32]) -> Result<Core, NoMemory>
    requires core { IsCoreOf question.now core.now }
{
    let Some(rule) = rule_of(question) else {
        return Ok(Core::new(alloc));
    };
    let asks = asks_of(alloc, question, core)?;
    let falling = few_asks(alloc, rule, asks.as_slice())?;
    tests_at(alloc, core, falling.as_slice())
}

/// Values of the key for the core, tried on all answered tests of the slot.
pub fn attempt_key(
    alloc: Global,
    question: &Question<'_>,
    rule: &KeyRule,
    core: &[u32],
) -> Result<Attempt, NoMemory>
    requires key { IsOnKey question.now rule.now }
    requires core { IsCoreOf question.now core.now }
    ensures { IfOk result (IsAttempt question.now core.now) }
{
    let asks = asks_of(alloc, question, core)?;
    match solve(alloc, rule, &asks, question.states)? {
        KeyAnswer::Found(values) => Ok(tried(question, SlotValue::Values(values))),
        KeyAnswer::Absent => Ok(Attempt::Empty(SlotProof::Absent)),
        KeyAnswer::Required => Ok(Attempt::Empty(SlotProof::Required)),
        KeyAnswer::Points => Ok(Attempt::Empty(SlotProof::Points)),
        KeyAnswer::Together(set) => Ok(Attempt::Empty(SlotProof::Word(set))),
        KeyAnswer::Member(index, set) => {
            let n = core[index as usize];
            Ok(Attempt::Empty(SlotProof::Member(n, set)))
        }
        KeyAnswer::SomeMember(set) => Ok(Attempt::Empty(SlotProof::SomeMember(set))),
        KeyAnswer::TooMany(texts) => Ok(Attempt::Full(texts)),
    }
}

/// Whether the set shows that no text is the member for this test of the core.
fn member_shows(
    alloc: Global,
    rule: &KeyRule,
    core: &[u32],
    asks: &KeyAsks,
    n: u32,
    closed: &Closed,
) -> Result<bool, NoMemory>
    requires sound { RuleIsSound rule.now }
    requires rises { rises_from 0 core.now ≡ true }
    ensures { IfOk result
        (λ yes. IsTrue yes ↔ MemberShows rule.now asks.now core.now n closed.now) }
{
    match index_in(core, n) {
        Some(index) => shows_member(alloc, rule, asks, index, closed),
        None => Ok(false),
    }
}

/// Whether the proof shows that no values of the key answer the core as the path does.
pub fn key_shows(
    alloc: Global,
    question: &Question<'_>,
    rule: &KeyRule,
    core: &[u32],
    proof: &SlotProof,
) -> Result<bool, NoMemory>
    requires key { IsOnKey question.now rule.now }
    requires core { IsCoreOf question.now core.now }
    ensures { IfOk result (λ yes.
        IsTrue yes ↔ KeyShowsOf question.now rule.now core.now proof.now) }
{
    let asks = asks_of(alloc, question, core)?;
    match proof {
        SlotProof::Points => shows_points(alloc, rule, &asks),
        SlotProof::Absent => Ok(shows_absent(&asks)),
        SlotProof::Required => Ok(shows_required(rule, &asks)),
        SlotProof::Word(closed) => shows_together(alloc, rule, &asks, closed),
        SlotProof::Kinds(_, _, _, _) => Ok(false),
        SlotProof::Member(n, closed) => member_shows(alloc, rule, core, &asks, *n, closed),
        SlotProof::SomeMember(closed) => shows_some_member(alloc, rule, &asks, closed),
    }
}
