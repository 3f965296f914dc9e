//! Few asks that no values answer, of a key whose values aren't texts. They are a proposal: that no values answer
//! them isn't promised, and who takes it looks for values of these asks once more.
ghost use Rattle.std.specs.Prelude.{IfOk, length};
ghost use Rattle.set_operators.specs.Few.{FallBelow};

use crate::ask::KeyAsk;
use crate::listed::meets_ask;
use crate::plain::{plain_kind, points_of};
use crate::steps::{Choice, is_chosen};
use plain_lists::{EqualClone, NoMemory};
use policy_model::{KeyRule, Value};
use std::alloc::Global;

/// A value of a key, or that the key is absent.
type Candidate = Option<Value>;

// Whether the candidate answers the ask otherwise.
fn is_wrong(candidate: &Candidate, asked: &(KeyAsk, bool)) -> bool {
    match candidate {
        Some(value) => meets_ask(value, &asked.0) != asked.1,
        None => asked.1,
    }
}

// What stands for all values of the key, and for its absence.
fn candidates(
    alloc: Global,
    rule: &KeyRule,
    asks: &[(KeyAsk, bool)],
) -> Result<Vec<Candidate>, NoMemory> {
    let mut found = match (&rule.among, plain_kind(rule.kind)) {
        (Some(listed), _) => listed_candidates(alloc, listed.as_slice())?,
        (None, Some(kind)) => points_of(alloc, kind, asks)?,
        (None, None) => Vec::new(alloc),
    };
    if !rule.required {
        found.push(None)?;
    }
    Ok(found)
}

fn listed_candidates(alloc: Global, listed: &[Value]) -> Result<Vec<Candidate>, NoMemory> {
    let mut found = Vec::new(alloc);
    for value in listed {
        found.push(Some(value.copy()?))?;
    }
    Ok(found)
}

// How many of the chosen asks the candidate answers otherwise.
fn count_wrong(candidate: &Candidate, asks: &[(KeyAsk, bool)], choice: Choice) -> usize {
    let mut count = 0usize;
    for (i, asked) in asks.iter().enumerate() {
        if is_chosen(choice, i, asked.1) && is_wrong(candidate, asked) {
            count = count.saturating_add(1);
        }
    }
    count
}

fn counts_of(
    alloc: Global,
    candidates: &[Candidate],
    asks: &[(KeyAsk, bool)],
    choice: Choice,
) -> Result<Vec<usize>, NoMemory> {
    let mut counts = Vec::new(alloc);
    for candidate in candidates {
        counts.push(count_wrong(candidate, asks, choice))?;
    }
    Ok(counts)
}

// Whether some candidate answers no other ask that is left otherwise.
fn is_needed(candidates: &[Candidate], counts: &[usize], asked: &(KeyAsk, bool)) -> bool {
    for (candidate, count) in candidates.iter().zip(counts) {
        if *count < 2 && is_wrong(candidate, asked) {
            return true;
        }
    }
    false
}

// The counts without the ask.
fn counts_without(
    alloc: Global,
    candidates: &[Candidate],
    counts: &[usize],
    asked: &(KeyAsk, bool),
) -> Result<Vec<usize>, NoMemory> {
    let mut others = Vec::new(alloc);
    for (candidate, count) in candidates.iter().zip(counts) {
        let one = usize::from(is_wrong(candidate, asked));
        others.push(count.saturating_sub(one))?;
    }
    Ok(others)
}

// Whether the candidate answers each of the chosen asks.
fn is_right(candidate: &Candidate, asks: &[(KeyAsk, bool)], choice: Choice) -> bool {
    for (i, asked) in asks.iter().enumerate() {
        if is_chosen(choice, i, asked.1) && is_wrong(candidate, asked) {
            return false;
        }
    }
    true
}

// Whether no candidate does.
fn is_hopeless(candidates: &[Candidate], asks: &[(KeyAsk, bool)], choice: Choice) -> bool {
    for candidate in candidates {
        if is_right(candidate, asks, choice) {
            return false;
        }
    }
    true
}

// The asks of one member of a key that none of the candidates is: of a key with several values each ask that
// is wanted yes may have its own.
fn hopeless_choice(rule: &KeyRule, candidates: &[Candidate], asks: &[(KeyAsk, bool)]) -> Choice {
    if !rule.many {
        return Choice::Each;
    }
    for (i, asked) in asks.iter().enumerate() {
        if asked.1 && is_hopeless(candidates, asks, Choice::DeniedAnd(i)) {
            return Choice::DeniedAnd(i);
        }
    }
    Choice::Denied
}

// Whether the ask at the index stays: it is chosen, and some candidate answers no other ask that is left otherwise.
// One that doesn't is no longer counted.
fn stays(
    alloc: Global,
    candidates: &[Candidate],
    counts: &mut Vec<usize>,
    asked: &(KeyAsk, bool),
    choice: Choice,
    index: usize,
) -> Result<bool, NoMemory> {
    if !is_chosen(choice, index, asked.1) {
        return Ok(false);
    }
    if is_needed(candidates, counts, asked) {
        return Ok(true);
    }
    *counts = counts_without(alloc, candidates, counts, asked)?;
    Ok(false)
}

/// The indices of few of the asks that no values of the key answer: each is the index of an ask, and each is below
/// the one before it. The last ask is left out first, and each where every value that answers it otherwise answers
/// another one otherwise that is left. The only error is want of memory.
pub fn few_asks(
    alloc: Global,
    rule: &KeyRule,
    asks: &[(KeyAsk, bool)],
) -> Result<Vec<usize>, NoMemory>
    ensures falling { IfOk result (λ few. FallBelow (length asks.now) few.items) }
{
    let candidates = candidates(alloc, rule, asks)?;
    let choice = hopeless_choice(rule, &candidates, asks);
    let mut counts = counts_of(alloc, &candidates, asks, choice)?;
    let mut few = Vec::new(alloc);
    let mut left = asks.len();
    'asks: while left > 0 {
        left -= 1;
        if stays(alloc, &candidates, &mut counts, &asks[left], choice, left)? {
            few.push(left)?;
        }
    }
    Ok(few)
}
