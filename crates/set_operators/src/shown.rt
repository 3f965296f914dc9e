//! The checks of what shows that no values answer asks: the rules of certificates on keys. None of them
//! trusts who wrote the proof.
ghost use Rattle.std.specs.Prelude.{◌≡◌, ◌≢◌, ◌<◌, ◌^◌, ◌↔◌, All, IfOk, IsTrue, IsSomeAnd, slice_get, true, length};
ghost use Rattle.policy_model.specs.Soundness.{RuleIsSound};
ghost use Rattle.policy_model.specs.declared.value.Kind.TheVariants.{Text};
ghost use Rattle.set_operators.specs.Answers.{is_found};
ghost use Rattle.set_operators.specs.Asks.{AskIsOf, HaveNone};
ghost use Rattle.set_operators.specs.Shown.{ShowsAbsent, ShowsMember, ShowsPoints, ShowsRequired, ShowsSomeMember, ShowsTogether};

use crate::answer::KeyAnswer;
use crate::ask::{KeyAsks, wants_absent, wants_some};
use crate::search::{needs_value, solve};
use crate::steps::Choice;
use crate::wants::is_closed_for_value;
use pattern_automata::Closed;
use plain_lists::NoMemory;
use policy_model::{KeyRule, Kind};
use std::alloc::Global;

/// Whether the key is to be absent and another ask is wanted yes. It takes no memory.
pub fn shows_absent(asks: &KeyAsks) -> bool
    ensures { IsTrue result ↔ ShowsAbsent asks.now }
{
    wants_absent(asks.as_slice()) && wants_some(asks.as_slice())
}

/// Whether the key is to be absent and it is required. It takes no memory.
pub fn shows_required(rule: &KeyRule, asks: &KeyAsks) -> bool
    ensures { IsTrue result ↔ ShowsRequired rule.now asks.now }
{
    rule.required && wants_absent(asks.as_slice())
}

// Whether values were found.
fn is_found(answer: &KeyAnswer) -> bool
    ensures { result ≡ is_found answer.now }
{
    match answer {
        KeyAnswer::Found(_) => true,
        _ => false,
    }
}

// Whether no values of the rule, which aren't texts, answer the asks so. Without texts no product is
// asked for, so the number of states is of no meaning.
fn has_none(alloc: Global, rule: &KeyRule, asks: &KeyAsks) -> Result<bool, NoMemory>
    requires sound { RuleIsSound rule.now }
    requires kind { rule.now.kind ≢ Text }
    requires asks { All (λ a. AskIsOf rule.now.kind a.0) asks.now }
    requires count { length asks.now < 2 ^ 32 }
    ensures { IfOk result (λ yes. IsTrue yes ↔ HaveNone rule.now asks.now) }
{
    let answer = solve(alloc, rule, asks, 1)?;
    Ok(!is_found(&answer))
}

/// Whether the key's values aren't texts and none answer the asks so. It is decided anew: no part of a
/// certificate says why.
pub fn shows_points(alloc: Global, rule: &KeyRule, asks: &KeyAsks) -> Result<bool, NoMemory>
    requires sound { RuleIsSound rule.now }
    requires asks { All (λ a. AskIsOf rule.now.kind a.0) asks.now }
    requires count { length asks.now < 2 ^ 32 }
    ensures { IfOk result (λ yes. IsTrue yes ↔ ShowsPoints rule.now asks.now) }
{
    if rule.kind == Kind::Text {
        return Ok(false);
    }
    has_none(alloc, rule, asks)
}

/// Whether the set shows that no text answers all asks, of a text key with at most one value that needs
/// it.
pub fn shows_together(
    alloc: Global,
    rule: &KeyRule,
    asks: &KeyAsks,
    closed: &Closed,
) -> Result<bool, NoMemory>
    requires sound { RuleIsSound rule.now }
    ensures { IfOk result (λ yes. IsTrue yes ↔ ShowsTogether rule.now asks.now closed.now) }
{
    if rule.kind != Kind::Text || rule.many {
        return Ok(false);
    }
    if !needs_value(rule, asks.as_slice()) {
        return Ok(false);
    }
    is_closed_for_value(alloc, rule, asks.as_slice(), Choice::Each, closed)
}

// Whether there is an ask at the index, and it is wanted yes.
fn is_wanted(asks: &KeyAsks, index: usize) -> bool
    ensures { IsTrue result ↔ IsSomeAnd (slice_get asks.now index) (λ a. a.1 ≡ true) }
{
    match asks.get(index) {
        None => false,
        Some(asked) => asked.1,
    }
}

/// Whether the set shows that no text is the member for the ask at the index, which is wanted yes, of a
/// text key with several values.
pub fn shows_member(
    alloc: Global,
    rule: &KeyRule,
    asks: &KeyAsks,
    index: usize,
    closed: &Closed,
) -> Result<bool, NoMemory>
    requires sound { RuleIsSound rule.now }
    ensures { IfOk result (λ yes. IsTrue yes ↔ ShowsMember rule.now asks.now index closed.now) }
{
    if rule.kind != Kind::Text || !rule.many {
        return Ok(false);
    }
    if !is_wanted(asks, index) {
        return Ok(false);
    }
    is_closed_for_value(
        alloc,
        rule,
        asks.as_slice(),
        Choice::DeniedAnd(index),
        closed,
    )
}

/// Whether the set shows that no text is a member, of a required text key with several values.
pub fn shows_some_member(
    alloc: Global,
    rule: &KeyRule,
    asks: &KeyAsks,
    closed: &Closed,
) -> Result<bool, NoMemory>
    requires sound { RuleIsSound rule.now }
    ensures { IfOk result (λ yes. IsTrue yes ↔ ShowsSomeMember rule.now asks.now closed.now) }
{
    if rule.kind != Kind::Text || !rule.many {
        return Ok(false);
    }
    if !rule.required {
        return Ok(false);
    }
    is_closed_for_value(alloc, rule, asks.as_slice(), Choice::Denied, closed)
}
