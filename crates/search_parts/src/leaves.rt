//! Parts without splits, with what they need.
ghost use Rattle.std.specs.Prelude.{◌≡◌, ◌<◌, ◌≤◌, IfOk, OnOk, length};
ghost use Rattle.nogoods.specs.Hits.{answers_at};
ghost use Rattle.refute_check.specs.Proofs.{by_clauses, by_value, proof_of, reuse};
ghost use Rattle.search_parts.specs.declared.learning.TheConstants.{MOST_LEARNED};
ghost use Rattle.search_parts.specs.declared.part.Needs.TheVariants.{Just, Open};
ghost use Rattle.search_parts.specs.Making.{IsPartOf, IsSlotPart};
ghost use Rattle.search_parts.specs.Needs.{AddsAnswer, AreAnswersTo};

use crate::part::{Needs, Part};
use crate::shortening::is_answered;
use cnf_clauses::Conflict;
use formula_tree::Path;
use nogoods::Tracking;
use plain_lists::NoMemory;
use refute_check::Refutation;
use slot_theory::{Core, SlotProof};
use std::alloc::Global;
use std::rc::Rc;

/// The part that the tree's value closes. What it needs is left open.
///
/// The only error is want of memory.
pub fn value_part(alloc: Global) -> Result<Part, NoMemory>
    ensures { IfOk result (IsPartOf by_value Open) }
{
    Ok(Part {
        refutation: Rc::new(alloc, Refutation::ByValue)?,
        needs: Needs::Open,
    })
}

/// The part that a conflict of unit propagation closes. It needs the answers that the hints rest on.
///
/// The only error is want of memory.
pub fn clauses_part(alloc: Global, conflict: Conflict) -> Result<Part, NoMemory>
    ensures { IfOk result (IsPartOf (by_clauses conflict.hints) (Just conflict.answers)) }
{
    let Conflict { hints, answers } = conflict;
    Ok(Part {
        refutation: Rc::new(alloc, Refutation::ByClauses { hints })?,
        needs: Needs::Just(answers),
    })
}

/// The part that a core closes under the path. It needs the path's answers to the core's tests.
///
/// The only error is want of memory.
pub fn slot_part(
    alloc: Global,
    path: &Path,
    core: Core,
    proof: Rc<SlotProof>,
) -> Result<Part, NoMemory>
    ensures { IfOk result (IsSlotPart path.now core proof.value) }
{
    let answers = answers_to(alloc, core.as_slice(), path)?;
    Ok(Part {
        refutation: Rc::new(alloc, Refutation::BySlot { core, proof })?,
        needs: Needs::Just(answers),
    })
}

/// The part that reuses the label of a stored list. It needs the answers of the list.
///
/// The only error is want of memory.
pub fn reuse_part(alloc: Global, learned: &Tracking, number: usize) -> Result<Part, NoMemory>
    requires within { number < length learned.now.lists }
    requires few { length learned.now.lists ≤ MOST_LEARNED }
    ensures { IfOk result (IsPartOf (reuse number) (Just (answers_at learned.now.lists number))) }
{
    let answers = stored(learned, number)?;
    let number = number as u32;
    Ok(Part {
        refutation: Rc::new(alloc, Refutation::Reuse { number })?,
        needs: Needs::Just(answers),
    })
}

// The answers of the list of a number.
fn stored(learned: &Tracking, number: usize) -> Result<Path, NoMemory>
    requires { number < length learned.now.lists }
    ensures { IfOk result (λ answers. answers ≡ answers_at learned.now.lists number) }
{
    learned.at(number).copy()
}

/// A part that was kept with the answers that it needs. It is shared.
///
/// The only error is want of memory.
pub fn kept_part(refutation: &Rc<Refutation>, answers: &Path) -> Result<Part, NoMemory>
    ensures { IfOk result (IsPartOf (proof_of refutation.now.value) (Just answers.now)) }
{
    Ok(Part {
        refutation: refutation.clone()?,
        needs: Needs::Just(answers.copy()?),
    })
}

/// The path's answers to the tests of a core, in the order of the core. A test that the path leaves open
/// has none.
///
/// The only error is want of memory.
pub fn answers_to(alloc: Global, core: &[u32], path: &Path) -> Result<Path, NoMemory>
    ensures { IfOk result (AreAnswersTo core.now path.now) }
{
    let mut answers = Path::new(alloc);
    'tests: for test in core {
        add_answer(&mut answers, *test, path)?;
    }
    Ok(answers)
}

// Adds the path's answer to a test, where it has one.
fn add_answer(answers: &mut Path, test: u32, path: &Path) -> Result<(), NoMemory>
    ensures { OnOk result (AddsAnswer path.now test answers.old answers.new) }
{
    if is_answered(test, answers) {
        return Ok(());
    }
    match path.answer(test) {
        Some(answer) => answers.push(test, answer),
        None => Ok(()),
    }
}
