//! What tests want of a word or of an id, with `?*` and a shape, and products for that.
ghost use Rattle.std.specs.Prelude.{◌≡◌, ◌++◌, ◌+◌, ◌^◌, ◌<◌, ◌↔◌, IfOk, OnOk, IsTrue, false, unwrap_or};
ghost use Rattle.std.specs.Option.{option_to_list};
ghost use Rattle.formula_tree.specs.Answers.{answer_of};
ghost use Rattle.slot_theory.specs.Slots.{some_word};
ghost use Rattle.slot_theory.specs.Question.{AreWanted, IsProductFor};
ghost use Rattle.slot_theory.specs.Wants.{IsClosedFor, IsWants, patterns_of, shape_clauses, wanted_clause, wanted_clauses};

use crate::question::Question;
use crate::slots::pattern_of;
use pattern_automata::{
    ClauseList, Closed, LastClosed, Literal, LiteralList, Product, Wants, is_closed, product_after,
};
use plain_lists::NoMemory;
use std::alloc::{AllocError, Global};
use wildcard_lang::{Pattern, PatternList, Piece};

/// The pattern `?*`.
fn some_word(alloc: Global) -> Result<Pattern, NoMemory>
    ensures { IfOk result (λ p. p ≡ some_word) }
{
    let pieces = Vec::from_slice(alloc, &[Piece::One, Piece::Many])?;
    Ok(Pattern::from_pieces(pieces))
}

/// The patterns of the tests of these numbers, in order.
fn patterns_of(
    alloc: Global,
    question: &Question<'_>,
    numbers: &[u32],
) -> Result<PatternList, NoMemory>
    requires wanted { AreWanted question.now numbers.now }
    ensures { IfOk result (λ v. v ≡ patterns_of question.now.tests.now numbers.now) }
{
    let mut patterns = PatternList::new(alloc);
    for n in numbers {
        if let Some(pattern) = pattern_of(alloc, &question.tests[*n as usize])? {
            patterns.push(pattern)?;
        }
    }
    Ok(patterns)
}

/// Adds the shape, where one is given.
fn push_shape(shape: &Option<Pattern>, patterns: &mut PatternList) -> Result<(), NoMemory>
    ensures { OnOk result (patterns.new ≡ patterns.old ++ option_to_list shape.now) }
{
    match shape {
        None => Ok(()),
        Some(shape) => patterns.push(shape.copy()?),
    }
}

/// The clause that the pattern of this number matches or not.
fn wanted(alloc: Global, number: usize, holds: bool) -> Result<LiteralList, NoMemory>
    requires { number < 2 ^ 32 }
    ensures { IfOk result (λ k. k ≡ wanted_clause number holds) }
{
    let pattern = number as u32;
    let mut clause = LiteralList::new(alloc);
    clause.push(Literal { pattern, holds })?;
    Ok(clause)
}

/// Adds the clause that the shape matches, where one is given.
fn push_shape_clause(
    alloc: Global,
    shape: &Option<Pattern>,
    number: usize,
    clauses: &mut ClauseList,
) -> Result<(), NoMemory>
    ensures { OnOk result (clauses.new ≡ clauses.old ++ shape_clauses shape.now number) }
{
    if shape.is_none() {
        return Ok(());
    }
    // Only a list of 2^32 patterns has no number for the shape, and none fits into memory.
    if u32::try_from(number).is_err() {
        return Err(AllocError);
    }
    clauses.push(wanted(alloc, number, true)?)
}

/// Whether the path answers the test yes.
fn is_yes(question: &Question<'_>, test: u32) -> bool
    ensures { result ≡ unwrap_or (answer_of question.now.path.now test) false }
{
    question.path.answer(test).unwrap_or(false)
}

/// The clauses of the tests, of `?*` and of the shape.
fn clauses_of(
    alloc: Global,
    question: &Question<'_>,
    numbers: &[u32],
    shape: &Option<Pattern>,
) -> Result<ClauseList, NoMemory>
    requires wanted { AreWanted question.now numbers.now }
    ensures { IfOk result (λ v. v ≡ wanted_clauses question.now.path.now numbers.now shape.now 0) }
{
    let mut clauses = ClauseList::new(alloc);
    for i in 0..numbers.len() {
        let holds = is_yes(question, numbers[i]);
        clauses.push(wanted(alloc, i, holds)?)?;
    }
    clauses.push(wanted(alloc, numbers.len(), true)?)?;
    push_shape_clause(alloc, shape, numbers.len() + 1, &mut clauses)?;
    Ok(clauses)
}

/// What is wanted by the tests of these numbers.
fn wants_of(
    alloc: Global,
    question: &Question<'_>,
    numbers: &[u32],
    shape: &Option<Pattern>,
) -> Result<Wants, NoMemory>
    requires wanted { AreWanted question.now numbers.now }
    ensures { IfOk result (
        IsWants question.now.tests.now question.now.path.now numbers.now shape.now) }
{
    let mut patterns = patterns_of(alloc, question, numbers)?;
    patterns.push(some_word(alloc)?)?;
    push_shape(shape, &mut patterns)?;
    let clauses = clauses_of(alloc, question, numbers, shape)?;
    Ok(Wants { patterns, clauses })
}

/// A text that meets what the tests of these numbers want, or what shows that there is none, or too
/// many product states.
pub fn solve(
    alloc: Global,
    question: &Question<'_>,
    numbers: &[u32],
    shape: &Option<Pattern>,
    last_closed: &mut LastClosed,
) -> Result<Product, NoMemory>
    requires wanted { AreWanted question.now numbers.now }
    ensures { IfOk result (IsProductFor question.now numbers.now shape.now) }
{
    let wants = wants_of(alloc, question, numbers, shape)?;
    product_after(&wants, question.states, last_closed)
}

/// Whether the set is closed for what the tests of these numbers want.
pub fn is_closed_for(
    alloc: Global,
    question: &Question<'_>,
    numbers: &[u32],
    shape: &Option<Pattern>,
    closed: &Closed,
) -> Result<bool, NoMemory>
    requires wanted { AreWanted question.now numbers.now }
    ensures { IfOk result (λ yes. IsTrue yes ↔
        IsClosedFor question.now.tests.now question.now.path.now numbers.now shape.now closed.now) }
{
    let wants = wants_of(alloc, question, numbers, shape)?;
    is_closed(alloc, &wants, closed)
}
