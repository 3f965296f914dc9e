//! Splits of two refuted sides. As long as lists are learned, each becomes the node of a label, under answers that
//! are all needed.
ghost use Rattle.std.specs.Prelude.{◌≡◌, ◌↔◌, ◌<◌, ◌≤◌, IfOk, IsTrue, OnErr, OnOk, length};
ghost use Rattle.tree_values.specs.Models.{answered_tree};
ghost use Rattle.refute_check.specs.Proofs.{label, proof_of, split};
ghost use Rattle.search_parts.specs.declared.learning.TheConstants.{MOST_LEARNED};
ghost use Rattle.search_parts.specs.declared.part.Needs.TheVariants.{Just, Unknown};
ghost use Rattle.search_parts.specs.Joining.{AreReady, IsJoined};
ghost use Rattle.search_parts.specs.Making.{IsPartOf, part_proof};

use crate::learning::MOST_LEARNED;
use crate::least::least_answers;
use crate::part::{Halves, Needs, Part};
use formula_tree::Path;
use nogoods::Tracking;
use plain_lists::{List, NoMemory};
use refute_check::Refutation;
use std::alloc::Global;
use std::rc::Rc;
use tree_values::TreeValues;

/// The split of two sides under the path, which the values answer and the lists follow. Where fewer lists
/// than the most are learned it becomes the node of a label, whose answers are learned.
///
/// The only error is want of memory: the lists and the values are then as before.
pub fn join(
    alloc: Global,
    path: &Path,
    halves: Halves,
    learned: &mut Tracking,
    values: &mut TreeValues,
) -> Result<Part, NoMemory>
    requires ready { AreReady path.now halves learned.old values.old }
    ensures joined { IfOk result (IsJoined
        path.now halves learned.old.lists learned.new.lists (answered_tree values.old)) }
    ensures follows { learned.new.path ≡ learned.old.path }
    ensures kept { OnErr result (learned.new.lists ≡ learned.old.lists) }
    ensures few { OnOk result (length learned.new.lists ≤ MOST_LEARNED) }
    ensures values { values.new ≡ values.old }
{
    if has_room(learned) {
        return learn(alloc, path, halves, learned, values);
    }
    bare(alloc, halves)
}

// Whether one more list may be learned.
fn has_room(learned: &Tracking) -> bool
    ensures { IsTrue result ↔ (length learned.now.lists < MOST_LEARNED) }
{
    learned.len() < MOST_LEARNED
}

// The split as the node of a label, whose answers are learned.
fn learn(
    alloc: Global,
    path: &Path,
    halves: Halves,
    learned: &mut Tracking,
    values: &mut TreeValues,
) -> Result<Part, NoMemory>
    requires ready { AreReady path.now halves learned.old values.old }
    requires room { length learned.old.lists < MOST_LEARNED }
    ensures joined { IfOk result (IsJoined
        path.now halves learned.old.lists learned.new.lists (answered_tree values.old)) }
    ensures follows { learned.new.path ≡ learned.old.path }
    ensures kept { OnErr result (learned.new.lists ≡ learned.old.lists) }
    ensures few { OnOk result (length learned.new.lists ≤ MOST_LEARNED) }
    ensures values { values.new ≡ values.old }
{
    let (yes, no) = (&halves.yes.needs, &halves.no.needs);
    let answers = least_answers(alloc, path, halves.test, yes, no, values)?;
    let number = learned.len() as u32;
    // What stays is a copy, which has no more room than it needs.
    let kept = answers.copy()?;
    let part = labelled(alloc, number, answers, halves)?;
    learned.learn(kept)?;
    Ok(part)
}

// The split itself. What it needs isn't known.
fn bare(alloc: Global, halves: Halves) -> Result<Part, NoMemory>
    ensures { IfOk result (IsPartOf
        (split halves.test (part_proof halves.yes) (part_proof halves.no)) Unknown) }
{
    Ok(Part {
        refutation: both(alloc, halves)?,
        needs: Needs::Unknown,
    })
}

// The split as the node of a label.
fn labelled(alloc: Global, number: u32, needs: Path, halves: Halves) -> Result<Part, NoMemory>
    ensures { IfOk result (IsPartOf
        (label number needs (split halves.test (part_proof halves.yes) (part_proof halves.no)))
        (Just needs)) }
{
    let inner = both(alloc, halves)?;
    let answers = List::from_vec(Vec::from_slice(alloc, needs.as_slice())?);
    Ok(Part {
        refutation: Rc::new(
            alloc,
            Refutation::Label {
                number,
                answers,
                inner,
            },
        )?,
        needs: Needs::Just(needs),
    })
}

fn both(alloc: Global, halves: Halves) -> Result<Rc<Refutation>, NoMemory>
    ensures { IfOk result (λ r. proof_of r.value ≡
        split halves.test (part_proof halves.yes) (part_proof halves.no)) }
{
    let Halves { test, yes, no } = halves;
    let yes = yes.refutation;
    let no = no.refutation;
    Ok(Rc::new(alloc, Refutation::Split { test, yes, no })?)
}
