//! Labels numbered by their lines.
ghost use Rattle.std.specs.Prelude.{◌≡◌, ◌++◌, ◌+◌, ◌<◌, ◌^◌, [], IfOk, OnOk, slice_index_or};
ghost use Rattle.refute_check.specs.Proofs.{label, labels, proof_of, split};
ghost use Rattle.search_parts.specs.Making.{part_proof};
ghost use Rattle.search_parts.specs.Renaming.{line_names, renamed_proof};

use crate::part::Part;
use plain_lists::{List, NoMemory};
use refute_check::{AnswerList, Refutation};
use std::alloc::Global;
use std::rc::Rc;

/// The part with its labels numbered by their lines, where so many labels begin before it. A label's
/// number was its place in the order in which labels end: `names` has the new numbers of those that end
/// before the part, and then also of its own. Parts without splits and labels are shared.
///
/// Labels are numbered by 32 bits. The only error is want of memory. The names, which `finished` makes for
/// itself, aren't used then.
pub(crate) fn renumbered(
    alloc: Global,
    part: &Rc<Refutation>,
    names: &mut Vec<u32>,
    begun: u32,
) -> Result<(Rc<Refutation>, u32), NoMemory>
    requires { begun + labels (proof_of part.now.value) < 2 ^ 32 }
    ensures part { IfOk result (λ r.
        proof_of r.0.value ≡ renamed_proof names.old.items begun (proof_of part.now.value)) }
    ensures count { IfOk result (λ r. r.1 ≡ begun + labels (proof_of part.now.value)) }
    ensures names { OnOk result (
        names.new.items ≡ names.old.items ++ line_names begun (proof_of part.now.value)) }
{
    match &**part {
        Refutation::Split { test, yes, no } => {
            let (yes, middle) = renumbered(alloc, yes, names, begun)?;
            let (no, end) = renumbered(alloc, no, names, middle)?;
            Ok((split_of(alloc, *test, yes, no)?, end))
        }
        Refutation::Label { answers, inner, .. } => {
            let (inner, end) = renumbered(alloc, inner, names, begun + 1)?;
            names.push(begun)?;
            Ok((label_of(alloc, begun, answers, inner)?, end))
        }
        Refutation::Reuse { number } => {
            let number = name_at(names.as_slice(), *number);
            Ok((Rc::new(alloc, Refutation::Reuse { number })?, begun))
        }
        Refutation::ByValue => Ok((part.clone()?, begun)),
        Refutation::BySlot { .. } => Ok((part.clone()?, begun)),
        Refutation::ByClauses { .. } => Ok((part.clone()?, begun)),
    }
}

// The split on a test.
fn split_of(
    alloc: Global,
    test: u32,
    yes: Rc<Refutation>,
    no: Rc<Refutation>,
) -> Result<Rc<Refutation>, NoMemory>
    ensures { IfOk result (λ r. proof_of r.value ≡
        split test (proof_of yes.value) (proof_of no.value)) }
{
    Ok(Rc::new(alloc, Refutation::Split { test, yes, no })?)
}

// The node of a label.
fn label_of(
    alloc: Global,
    number: u32,
    answers: &AnswerList,
    inner: Rc<Refutation>,
) -> Result<Rc<Refutation>, NoMemory>
    ensures { IfOk result (λ r. proof_of r.value ≡
        label number answers.now (proof_of inner.value)) }
{
    let answers = copy(alloc, answers)?;
    Ok(Rc::new(
        alloc,
        Refutation::Label {
            number,
            answers,
            inner,
        },
    )?)
}

/// The whole refutation, whose labels were numbered in the order in which they end, with its labels
/// numbered by their lines.
///
/// Labels are numbered by 32 bits. The only error is want of memory.
pub fn finished(alloc: Global, part: Part) -> Result<Rc<Refutation>, NoMemory>
    requires { labels (part_proof part) < 2 ^ 32 }
    ensures { IfOk result (λ r. proof_of r.value ≡ renamed_proof [] 0 (part_proof part)) }
{
    let mut names = Vec::new(alloc);
    let (refutation, _) = renumbered(alloc, &part.refutation, &mut names, 0)?;
    Ok(refutation)
}

// The number at a place, or 0 past the end.
fn name_at(names: &[u32], place: u32) -> u32
    ensures { result ≡ slice_index_or names.now place 0 }
{
    match names.get(place as usize) {
        Some(name) => *name,
        None => 0,
    }
}

fn copy(alloc: Global, answers: &AnswerList) -> Result<AnswerList, NoMemory>
    ensures { IfOk result (λ list. list ≡ answers.now) }
{
    Ok(List::from_vec(Vec::from_slice(alloc, answers.as_slice())?))
}
