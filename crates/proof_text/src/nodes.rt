//! Nodes of refutations, one by one in reading order.
ghost use Rattle.std.specs.Prelude.{◌≡◌, ◌≤◌, ◌++◌, ◌∷◌, [], IfOk, OnOk};
ghost use Rattle.refute_check.specs.Proofs.{proof_of};
ghost use Rattle.refute_check.specs.declared.refutation.Refutation.TheVariants.{ByValue};
ghost use Rattle.proof_text.specs.Around.{AreAround};
ghost use Rattle.proof_text.specs.LineForms.{ExpectNode, ExpectSlotProof};
ghost use Rattle.proof_text.specs.SlotLines.{IsOfCore, lines_after};
ghost use Rattle.proof_text.specs.Spelling.{node_lines, node_line_numbers};
ghost use Rattle.proof_text.specs.Steps.{HasLineRoom, ArePartsRead};

use crate::fault::ProofAnswer;
use crate::limits::{Limits, MOST_NESTING};
use crate::lines::{Around, NodeLine, node_line};
use crate::location::{Location, answer_here, line_at, with_label};
use crate::read::LineList;
use crate::slots::read_slot_proof;
use plain_lists::NoMemory;
use refute_check::{Refutation, SharedProofs};
use slot_theory::Core;
use std::alloc::Global;
use std::rc::Rc;

/// What is kept while nodes are read.
#[derive(Drop)]
pub(crate) struct Trail {
    /// The numbers of the labels that the next node is inside of.
    pub inside: Vec<u32>,
    /// The line of each node so far.
    pub lines: LineList,
    /// The proofs of slots so far, each kept once.
    pub proofs: SharedProofs,
}

/// The node, to be shared.
pub(crate) fn shared(alloc: Global, node: Refutation) -> Result<Rc<Refutation>, NoMemory>
    ensures { IfOk result (λ r. r.value ≡ node) }
{
    Ok(Rc::new(alloc, node)?)
}

// One node that stands in many places takes memory once.
fn again(node: &Rc<Refutation>) -> Result<Rc<Refutation>, NoMemory>
    ensures { IfOk result (λ r. r.value ≡ node.now.value) }
{
    Ok(node.clone()?)
}

// One label more around.
fn enter(inside: &mut Vec<u32>, number: u32) -> Result<(), NoMemory>
    ensures { OnOk result (inside.new.items ≡ inside.old.items ++ number ∷ []) }
{
    inside.push(number)?;
    Ok(())
}

// A node of a core, whose line was read: its proof stands next.
fn read_core<'a>(
    alloc: Global,
    limits: Limits,
    core: Core,
    location: Location<'a>,
    proofs: &mut SharedProofs,
) -> Result<(Rc<Refutation>, Location<'a>), ProofAnswer>
    requires { HasLineRoom location }
    ensures read { ArePartsRead (λ node. lines_after (proof_of node.value)) limits
        (ExpectSlotProof ∷ []) location.entry result }
    ensures core { IfOk result (λ r. IsOfCore core (proof_of r.0.value)) }
{
    let (proof, end) = read_slot_proof(alloc, limits, location)?;
    let proof = proofs.share(alloc, proof)?.proof;
    Ok((shared(alloc, Refutation::BySlot { core, proof })?, end))
}

/// The node at the location, below so many splits and labels, with all that is below it. The line of each
/// node is put behind those before, and the labels around are as before. `value` stands wherever the
/// tree's value is asked.
pub(crate) fn read_node<'a>(
    alloc: Global,
    limits: Limits,
    depth: u32,
    location: Location<'a>,
    value: &Rc<Refutation>,
    trail: &mut Trail,
) -> Result<(Rc<Refutation>, Location<'a>), ProofAnswer>
    requires room { HasLineRoom location }
    requires depth { depth ≤ MOST_NESTING }
    requires around { AreAround trail.old.inside.items location.begun }
    requires value { value.now.value ≡ ByValue }
    ensures read { ArePartsRead (λ node. node_lines (proof_of node.value)) limits
        (ExpectNode depth trail.old.inside.items ∷ []) location.entry result }
    ensures inside { OnOk result (trail.new.inside.items ≡ trail.old.inside.items) }
    ensures lines { IfOk result (λ r. trail.new.lines ≡
        trail.old.lines ++ node_line_numbers location.entry.number (proof_of r.0.value)) }
{
    let (line, behind) = line_at(location)?;
    trail.lines.push(location.number)?;
    let around = Around {
        depth,
        begun: location.begun,
        inside: trail.inside.as_slice(),
    };
    match node_line(alloc, limits, around, line) {
        Ok(NodeLine::Split(test)) => {
            let (yes, middle) = read_node(alloc, limits, depth + 1, behind, value, trail)?;
            let (no, end) = read_node(alloc, limits, depth + 1, middle, value, trail)?;
            Ok((shared(alloc, Refutation::Split { test, yes, no })?, end))
        }
        Ok(NodeLine::Label(number, answers)) => {
            enter(&mut trail.inside, number)?;
            let (inner, end) = read_node(
                alloc,
                limits,
                depth + 1,
                with_label(behind),
                value,
                trail,
            )?;
            trail.inside.pop();
            Ok((
                shared(
                    alloc,
                    Refutation::Label {
                        number,
                        answers,
                        inner,
                    },
                )?,
                end,
            ))
        }
        Ok(NodeLine::Slot(core)) => read_core(alloc, limits, core, behind, &mut trail.proofs),
        Ok(NodeLine::Value) => Ok((again(value)?, behind)),
        Ok(NodeLine::Clauses(hints)) => Ok((
            shared(alloc, Refutation::ByClauses { hints })?,
            behind,
        )),
        Ok(NodeLine::Reuse(number)) => Ok((shared(alloc, Refutation::Reuse { number })?, behind)),
        Err(answer) => Err(answer_here(location.number, answer)),
    }
}
