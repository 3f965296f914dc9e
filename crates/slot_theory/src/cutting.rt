//! Cores that lose tests which they don't need. Which tests stay is proposed, and a core of them is taken
//! where an attempt confirms that no value answers it.
ghost use Rattle.std.specs.Prelude.{◌≡◌, IfOk, IfSome};
ghost use Rattle.slot_theory.specs.Question.{IsConflictOf};
ghost use Rattle.slot_theory.specs.Shrinking.{IsKept, found_or};

use crate::attempt::attempt;
use crate::cores::{is_core, without};
use crate::outcome::{Core, SlotProof};
use crate::question::Question;
use crate::steps::{Attempt, Kept};
use formula_tree::Path;
use pattern_automata::LastClosed;
use plain_lists::NoMemory;
use std::alloc::Global;

/// The proof that no value answers the tests, where they are a core and an attempt finds none.
fn proof_of(
    alloc: Global,
    question: &Question<'_>,
    core: &[u32],
) -> Result<Option<SlotProof>, NoMemory>
    ensures { IfOk result (λ found. IfSome found (IsConflictOf question.now core.now)) }
{
    if !is_core(question.tests, question.path, question.slot, core) {
        return Ok(None);
    }
    // Smaller cores have other products, which aren't to take the place of the last closed set.
    let mut last_closed = LastClosed::new(alloc);
    match attempt(alloc, question, core, &mut last_closed)? {
        Attempt::Empty(proof) => Ok(Some(proof)),
        _ => Ok(None),
    }
}

/// The tests with a proof, where they are a core and an attempt finds no value for it.
pub fn confirmed(
    alloc: Global,
    question: &Question<'_>,
    core: Core,
) -> Result<Option<Kept>, NoMemory>
    ensures { IfOk result (λ found. IfSome found (IsKept question.now)) }
{
    match proof_of(alloc, question, core.as_slice())? {
        Some(proof) => Ok(Some(Kept { core, proof })),
        None => Ok(None),
    }
}

/// What was found, or else what is had.
pub fn found_or<T: Drop>(found: Result<Option<T>, NoMemory>, had: T) -> Result<T, NoMemory>
    ensures { result ≡ found_or found had }
{
    match found {
        Ok(Some(other)) => Ok(other),
        Ok(None) => Ok(had),
        Err(fault) => Err(fault),
    }
}

/// The core without the test at an index, with its proof, where a test is left and no value answers
/// them. The test that joined the core last is needed, since the tests before it had a value.
fn without_test(
    alloc: Global,
    question: &Question<'_>,
    core: &[u32],
    index: usize,
    last: u32,
) -> Result<Option<Kept>, NoMemory>
    ensures { IfOk result (λ found. IfSome found (IsKept question.now)) }
{
    if index >= core.len() || core[index] == last {
        return Ok(None);
    }
    let fewer = without(alloc, core, index)?;
    confirmed(alloc, question, fewer)
}

/// The core without the test at an index, with its proof, where it still has one.
fn smaller(
    alloc: Global,
    question: &Question<'_>,
    kept: Kept,
    index: usize,
    last: u32,
) -> Result<Kept, NoMemory>
    requires kept { IsKept question.now kept }
    ensures { IfOk result (IsKept question.now) }
{
    let fewer = without_test(alloc, question, kept.core.as_slice(), index, last);
    found_or(fewer, kept)
}

/// The core without the tests that it doesn't need.
pub fn cut(alloc: Global, question: &Question<'_>, first: Kept, last: u32) -> Result<Kept, NoMemory>
    requires kept { IsKept question.now first }
    ensures { IfOk result (IsKept question.now) }
{
    let count = first.core.len();
    let mut kept = first;
    for index in (0..count).rev() {
        kept = smaller(alloc, question, kept, index, last)?;
    }
    Ok(kept)
}

/// Whether the proof rests on the test, which is answered so: one for a member of a key's values on that
/// member's test and on those that are answered no, and any other proof on all tests of its core.
fn is_named(proof: &SlotProof, n: u32, holds: bool) -> bool {
    match proof {
        SlotProof::Member(member, _) => n == *member || !holds,
        SlotProof::SomeMember(_) => !holds,
        _ => true,
    }
}

/// The tests of the core that its proof rests on.
fn named_tests(
    alloc: Global,
    path: &Path,
    proof: &SlotProof,
    core: &[u32],
) -> Result<Core, NoMemory> {
    let mut named = Core::new(alloc);
    for n in core {
        let holds = path.answer(*n).unwrap_or(false);
        if is_named(proof, *n, holds) {
            named.push(*n)?;
        }
    }
    Ok(named)
}

/// The tests alone that the proof rests on, with a proof of theirs, where they are fewer.
fn named_alone(
    alloc: Global,
    question: &Question<'_>,
    first: &Kept,
) -> Result<Option<Kept>, NoMemory>
    ensures { IfOk result (λ found. IfSome found (IsKept question.now)) }
{
    let named = named_tests(alloc, question.path, &first.proof, first.core.as_slice())?;
    if named.len() == first.core.len() {
        return Ok(None);
    }
    confirmed(alloc, question, named)
}

/// The conflict of the tests alone that its proof rests on. Each test of a key with several values that
/// is answered yes has a product of its own, so that `cut` would look at many of them again and again.
pub fn trimmed(alloc: Global, question: &Question<'_>, first: Kept) -> Result<Kept, NoMemory>
    requires kept { IsKept question.now first }
    ensures { IfOk result (IsKept question.now) }
{
    let fewer = named_alone(alloc, question, &first);
    found_or(fewer, first)
}
