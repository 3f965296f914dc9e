//! The check of cores and their proofs.
ghost use Rattle.std.specs.Prelude.{◌≡◌, ◌<◌, ◌^◌, ◌↔◌, IfOk, IsTrue, All, length};
ghost use Rattle.policy_model.specs.declared.test.Slot.TheVariants.{Principal};
ghost use Rattle.policy_model.specs.Soundness.{SchemaIsSound, TestSuits};
ghost use Rattle.slot_theory.specs.Slots.{IsWordSlot};
ghost use Rattle.slot_theory.specs.Possible.{PathInRange};
ghost use Rattle.slot_theory.specs.Cores.{Accepts};
ghost use Rattle.slot_theory.specs.Question.{IsConflictOf, IsCoreOf, KindShowsOf, PrincipalShowsOf, ShowsOf, WordShowsOf};

use crate::cores::is_core;
use crate::keys::key_shows;
use crate::kinds::{is_contradicted, open_tests};
use crate::outcome::{Core, KindProof, SlotProof};
use crate::question::Question;
use crate::slots::{shape_at, slot_of};
use crate::wants::is_closed_for;
use formula_tree::Path;
use pattern_automata::Closed;
use plain_lists::NoMemory;
use policy_model::PrincipalKind::{self, Aws, CanonicalUser, Federated, Service};
use policy_model::{Schema, Slot, TestList, shape_of};
use std::alloc::Global;

/// Whether the proof shows that no word answers the core as the path does.
fn word_shows(
    alloc: Global,
    question: &Question<'_>,
    core: &[u32],
    proof: &SlotProof,
) -> Result<bool, NoMemory>
    requires core { IsCoreOf question.now core.now }
    requires slot { IsWordSlot question.now.slot.now }
    ensures { IfOk result (λ yes. IsTrue yes ↔ WordShowsOf question.now core.now proof.now) }
{
    match proof {
        SlotProof::Word(closed) => {
            let shape = shape_at(question.schema, question.slot);
            is_closed_for(alloc, question, core, shape, closed)
        }
        _ => Ok(false),
    }
}

/// Whether the proof shows that no principal of the kind answers the core as the path does.
fn kind_shows(
    alloc: Global,
    question: &Question<'_>,
    core: &[u32],
    kind: PrincipalKind,
    proof: &KindProof,
) -> Result<bool, NoMemory>
    requires core { IsCoreOf question.now core.now }
    requires slot { question.now.slot.now ≡ Principal }
    ensures { IfOk result (λ yes. IsTrue yes ↔ KindShowsOf question.now core.now kind proof.now) }
{
    match proof {
        KindProof::Never => Ok(is_contradicted(question.tests, question.path, core, kind)),
        KindProof::Closed(closed) => {
            let open = open_tests(alloc, question.tests, core, kind)?;
            let shape = shape_of(&question.schema.shapes, kind);
            is_closed_for(alloc, question, open.as_slice(), shape, closed)
        }
    }
}

/// Whether the proof shows that no principal answers the core as the path does.
fn principal_shows(
    alloc: Global,
    question: &Question<'_>,
    core: &[u32],
    proof: &SlotProof,
) -> Result<bool, NoMemory>
    requires core { IsCoreOf question.now core.now }
    requires slot { question.now.slot.now ≡ Principal }
    ensures { IfOk result (λ yes. IsTrue yes ↔ PrincipalShowsOf question.now core.now proof.now) }
{
    match proof {
        SlotProof::Kinds(aws, service, federated, canonical) => Ok(
            kind_shows(alloc, question, core, Aws, aws)?
                && kind_shows(alloc, question, core, Service, service)?
                && kind_shows(alloc, question, core, Federated, federated)?
                && kind_shows(alloc, question, core, CanonicalUser, canonical)?,
        ),
        _ => Ok(false),
    }
}

/// Whether the proof shows that no value of the slot answers the core as the path does.
fn shows(
    alloc: Global,
    question: &Question<'_>,
    core: &[u32],
    proof: &SlotProof,
) -> Result<bool, NoMemory>
    requires core { IsCoreOf question.now core.now }
    ensures { IfOk result (λ yes. IsTrue yes ↔ ShowsOf question.now core.now proof.now) }
{
    match question.slot {
        Slot::Principal => principal_shows(alloc, question, core, proof),
        Slot::Action | Slot::Resource => word_shows(alloc, question, core, proof),
        Slot::Key(name) => match question.schema.get(name) {
            Some(rule) => key_shows(alloc, question, rule, core, proof),
            None => Ok(false),
        },
    }
}

/// Whether the core is one of the slot, and the proof shows that no value answers it as the path does.
fn is_conflict(
    alloc: Global,
    question: &Question<'_>,
    core: &[u32],
    proof: &SlotProof,
) -> Result<bool, NoMemory>
    ensures { IfOk result (λ yes. IsTrue yes ↔ IsConflictOf question.now core.now proof.now) }
{
    if !is_core(question.tests, question.path, question.slot, core) {
        return Ok(false);
    }
    shows(alloc, question, core, proof)
}

/// Whether the core and its proof are accepted under the path. The core has a test, its numbers strictly rise, the
/// path answers each of its tests, and all are on one slot. The proof shows that no value of the slot answers so:
///
/// - Action and resource: its set is closed for what the core, `?*` and the slot's shape want of a word.
/// - Principal, kind by kind: a test has a fixed answer for the kind that isn't the path's, or a set is closed for
///   the tests without a fixed answer.
/// - A key that is to be absent: another test of the core is answered yes, or the key is required.
/// - A key whose values aren't texts: none answer so, which is decided anew.
/// - A key that needs one text: a set is closed for what all tests and the key's rule want of it.
/// - A key with several texts: a set is closed for the value of one test that is answered yes, beside the tests that
///   are answered no and the rule. If the key is required, the yes test may be left out.
///
/// The schema is sound, the tests suit it and are numbered by 32 bits, and the path's are in range. The
/// only error is want of memory.
pub fn accepts(
    alloc: Global,
    schema: &Schema,
    tests: &TestList,
    path: &Path,
    core: &Core,
    proof: &SlotProof,
) -> Result<bool, NoMemory>
    requires sound { SchemaIsSound schema.now }
    requires suit { All (TestSuits schema.now) tests.now }
    requires count { length tests.now < 2 ^ 32 }
    requires range { PathInRange tests.now path.now }
    ensures { IfOk result (λ yes.
        IsTrue yes ↔ Accepts schema.now tests.now path.now core.now proof.now) }
{
    let Some(first) = core.get(0) else {
        return Ok(false);
    };
    let Some(test) = tests.get(*first as usize) else {
        return Ok(false);
    };
    let slot = slot_of(alloc, test)?;
    let question = Question {
        schema,
        tests: tests.as_slice(),
        path,
        slot: &slot,
        // A check looks for no value.
        states: 1,
    };
    is_conflict(alloc, &question, core.as_slice(), proof)
}
