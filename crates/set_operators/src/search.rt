//! The search for values of a key.
ghost use Rattle.std.specs.Prelude.{◌≡◌, ◌≤◌, ◌<◌, ◌+◌, ◌^◌, ◌↔◌, [], ◌∷◌, All, Any, IfOk, IsTrue, MatchBool, MatchOption, length, true, false};
ghost use Rattle.set_operators.specs.declared.answer.KeyAnswer.TheVariants.{Found};
ghost use Rattle.policy_model.specs.Soundness.{RuleIsSound};
ghost use Rattle.set_operators.specs.Answers.{IsKeyAnswer};
ghost use Rattle.set_operators.specs.Asks.{AskIsOf};
ghost use Rattle.set_operators.specs.Members.{MeetsAsk, NeedsValue};
ghost use Rattle.set_operators.specs.Steps.{AreMembersUpTo, IsPosed};

use crate::answer::KeyAnswer;
use crate::ask::{KeyAsk, KeyAsks, wants_some};
use crate::listed::meets_ask;
use crate::one::one;
use crate::shown::{shows_absent, shows_required};
use crate::steps::{Choice, One};
use plain_lists::NoMemory;
use policy_model::{KeyRule, Value, ValueList};
use std::alloc::Global;

/// Whether the empty list won't do: the key is required, or some ask is wanted yes.
pub fn needs_value(rule: &KeyRule, asks: &[(KeyAsk, bool)]) -> bool
    ensures { IsTrue result ↔ NeedsValue rule.now asks.now }
{
    rule.required || wants_some(asks)
}

// The list of one value.
fn list_of(alloc: Global, value: Value) -> Result<ValueList, NoMemory>
    ensures { IfOk result (λ values. values ≡ value ∷ []) }
{
    let mut values = ValueList::new(alloc);
    values.push(value)?;
    Ok(values)
}

// The one value of a key that needs it.
fn solve_single(
    alloc: Global,
    rule: &KeyRule,
    asks: &[(KeyAsk, bool)],
    states: u32,
) -> Result<KeyAnswer, NoMemory>
    requires posed { IsPosed rule.now asks.now }
    requires single { rule.now.many ≡ false }
    requires needs { NeedsValue rule.now asks.now }
    requires positive { 1 ≤ states }
    ensures { IfOk result (IsKeyAnswer rule.now asks.now states) }
{
    match one(alloc, rule, asks, Choice::Each, states)? {
        One::Found(value) => Ok(KeyAnswer::Found(list_of(alloc, value)?)),
        One::Closed(closed) => Ok(KeyAnswer::Together(closed)),
        One::Nothing => Ok(KeyAnswer::Points),
        One::TooMany(texts) => Ok(KeyAnswer::TooMany(texts)),
    }
}

// Whether some of the values meets the ask.
fn is_met(values: &[Value], ask: &KeyAsk) -> bool
    ensures { IsTrue result ↔ Any (λ v. MeetsAsk v ask.now) values.now }
{
    values.iter().any(|value| meets_ask(value, ask))
}

// Whether a member is to be looked for: the ask is wanted yes, and none of the values meets it.
fn needs_member(values: &[Value], asked: &(KeyAsk, bool)) -> bool
    ensures { MatchBool result
        (asked.now.1 ≡ true)
        (asked.now.1 ≡ true → Any (λ v. MeetsAsk v asked.now.0) values.now) }
{
    asked.1 && !is_met(values, &asked.0)
}

// Adds a member for the ask at the index, if it needs one, or says what ends the search.
fn next_member(
    alloc: Global,
    rule: &KeyRule,
    asks: &[(KeyAsk, bool)],
    index: usize,
    values: &mut ValueList,
    states: u32,
) -> Result<Option<KeyAnswer>, NoMemory>
    requires posed { IsPosed rule.now asks.now }
    requires several { rule.now.many ≡ true }
    requires within { index < length asks.now }
    requires count { length asks.now < 2 ^ 32 }
    requires before { AreMembersUpTo rule.now asks.now index values.old }
    requires positive { 1 ≤ states }
    ensures { IfOk result (λ end. MatchOption end
        (AreMembersUpTo rule.now asks.now (index + 1) values.new)
        (IsKeyAnswer rule.now asks.now states)) }
{
    if !needs_member(values.as_slice(), &asks[index]) {
        return Ok(None);
    }
    match one(alloc, rule, asks, Choice::DeniedAnd(index), states)? {
        One::Found(value) => {
            values.push(value)?;
            Ok(None)
        }
        One::Closed(closed) => Ok(Some(KeyAnswer::Member(index as u32, closed))),
        One::Nothing => Ok(Some(KeyAnswer::Points)),
        One::TooMany(texts) => Ok(Some(KeyAnswer::TooMany(texts))),
    }
}

// The only member of a key that is required, where no ask is wanted yes.
fn solve_required(
    alloc: Global,
    rule: &KeyRule,
    asks: &[(KeyAsk, bool)],
    states: u32,
) -> Result<KeyAnswer, NoMemory>
    requires posed { IsPosed rule.now asks.now }
    requires several { rule.now.many ≡ true }
    requires required { rule.now.required ≡ true }
    requires none { AreMembersUpTo rule.now asks.now (length asks.now) [] }
    requires positive { 1 ≤ states }
    ensures { IfOk result (IsKeyAnswer rule.now asks.now states) }
{
    match one(alloc, rule, asks, Choice::Denied, states)? {
        One::Found(value) => Ok(KeyAnswer::Found(list_of(alloc, value)?)),
        One::Closed(closed) => Ok(KeyAnswer::SomeMember(closed)),
        One::Nothing => Ok(KeyAnswer::Points),
        One::TooMany(texts) => Ok(KeyAnswer::TooMany(texts)),
    }
}

// A member for each ask that is wanted yes, or one at all, of a key that needs one.
fn solve_several(
    alloc: Global,
    rule: &KeyRule,
    asks: &[(KeyAsk, bool)],
    states: u32,
) -> Result<KeyAnswer, NoMemory>
    requires posed { IsPosed rule.now asks.now }
    requires several { rule.now.many ≡ true }
    requires count { length asks.now < 2 ^ 32 }
    requires needs { NeedsValue rule.now asks.now }
    requires positive { 1 ≤ states }
    ensures { IfOk result (IsKeyAnswer rule.now asks.now states) }
{
    let mut values = ValueList::new(alloc);
    for i in 0..asks.len() {
        match next_member(alloc, rule, asks, i, &mut values, states)? {
            None => {}
            Some(answer) => return Ok(answer),
        }
    }
    if values.is_empty() {
        return solve_required(alloc, rule, asks, states);
    }
    Ok(KeyAnswer::Found(values))
}

// Values of a key that needs one.
fn solve_needed(
    alloc: Global,
    rule: &KeyRule,
    asks: &[(KeyAsk, bool)],
    states: u32,
) -> Result<KeyAnswer, NoMemory>
    requires posed { IsPosed rule.now asks.now }
    requires count { length asks.now < 2 ^ 32 }
    requires needs { NeedsValue rule.now asks.now }
    requires positive { 1 ≤ states }
    ensures { IfOk result (IsKeyAnswer rule.now asks.now states) }
{
    if rule.many {
        solve_several(alloc, rule, asks, states)
    } else {
        solve_single(alloc, rule, asks, states)
    }
}

/// Values that the rule permits and that answer each ask as is wanted. Otherwise what shows that there are
/// none. Or, of a text key, one more text than `states`, no two with the same product state of the patterns of
/// the asks, in their order, and then of the rule's shape or listed texts.
///
/// Where the key needs no value, the answer is the empty list. Otherwise a key with at most one value
/// has one that answers all asks. A key with several has one for each ask that is wanted yes, and none of them
/// meets an ask that is wanted no.
///
/// The rule is sound, each condition that is asked is on values of the rule's kind, the asks are
/// numbered by 32 bits, and `states`, the most product states that are looked at for one value, is at
/// least 1. The only error is want of memory.
pub fn solve(
    alloc: Global,
    rule: &KeyRule,
    asks: &KeyAsks,
    states: u32,
) -> Result<KeyAnswer, NoMemory>
    requires sound { RuleIsSound rule.now }
    requires asks { All (λ a. AskIsOf rule.now.kind a.0) asks.now }
    requires count { length asks.now < 2 ^ 32 }
    requires positive { 1 ≤ states }
    ensures answer { IfOk result (IsKeyAnswer rule.now asks.now states) }
    ensures idle { IfOk result (λ found. ¬ NeedsValue rule.now asks.now → found ≡ Found []) }
{
    if !needs_value(rule, asks.as_slice()) {
        return Ok(KeyAnswer::Found(ValueList::new(alloc)));
    }
    if shows_required(rule, asks) {
        return Ok(KeyAnswer::Required);
    }
    if shows_absent(asks) {
        return Ok(KeyAnswer::Absent);
    }
    solve_needed(alloc, rule, asks.as_slice(), states)
}
