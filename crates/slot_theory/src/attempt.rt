//! Attempts: a value for a core is found by products, and tried on all answered tests of the slot.
ghost use Rattle.std.specs.Prelude.{◌≡◌, IfOk};
ghost use Rattle.policy_model.specs.declared.test.Slot.TheVariants.{Principal};
ghost use Rattle.slot_theory.specs.Slots.{IsWordSlot};
ghost use Rattle.slot_theory.specs.Question.{IsCoreOf};
ghost use Rattle.slot_theory.specs.Steps.{IsAttempt, IsKindAttempt};

use crate::keys::attempt_key;
use crate::kinds::{is_contradicted, open_tests};
use crate::outcome::{KindProof, SlotProof, SlotValue};
use crate::question::Question;
use crate::slots::shape_at;
use crate::steps::{Attempt, KindAttempt};
use crate::trial::tried;
use crate::wants::solve;
use pattern_automata::{LastClosed, Product};
use plain_lists::NoMemory;
use policy_model::PrincipalKind::{self, Aws, CanonicalUser, Federated, Service};
use policy_model::{Slot, shape_of};
use std::alloc::Global;

/// A word for the core, tried on all answered tests of the slot.
fn attempt_word(
    alloc: Global,
    question: &Question<'_>,
    core: &[u32],
    last_closed: &mut LastClosed,
) -> Result<Attempt, NoMemory>
    requires slot { IsWordSlot question.now.slot.now }
    requires core { IsCoreOf question.now core.now }
    ensures { IfOk result (IsAttempt question.now core.now) }
{
    let shape = shape_at(question.schema, question.slot);
    match solve(alloc, question, core, shape, last_closed)? {
        Product::Empty(closed) => Ok(Attempt::Empty(SlotProof::Word(closed))),
        Product::TooMany(texts) => Ok(Attempt::Full(texts)),
        Product::Found(text) => Ok(tried(question, SlotValue::Word(text))),
    }
}

/// A principal of the kind for the core, tried on all answered tests of the slot.
fn attempt_kind(
    alloc: Global,
    question: &Question<'_>,
    core: &[u32],
    kind: PrincipalKind,
    last_closed: &mut LastClosed,
) -> Result<KindAttempt, NoMemory>
    requires slot { question.now.slot.now ≡ Principal }
    requires core { IsCoreOf question.now core.now }
    ensures { IfOk result (IsKindAttempt question.now core.now kind) }
{
    if is_contradicted(question.tests, question.path, core, kind) {
        return Ok(KindAttempt::Empty(KindProof::Never));
    }
    let open = open_tests(alloc, question.tests, core, kind)?;
    let shape = shape_of(&question.schema.shapes, kind);
    match solve(alloc, question, open.as_slice(), shape, last_closed)? {
        Product::Empty(closed) => Ok(KindAttempt::Empty(KindProof::Closed(closed))),
        Product::TooMany(texts) => Ok(KindAttempt::Whole(Attempt::Full(texts))),
        Product::Found(id) => {
            let value = SlotValue::Principal(kind, id);
            Ok(KindAttempt::Whole(tried(question, value)))
        }
    }
}

/// A principal for the core, looked for kind by kind.
fn attempt_principal(
    alloc: Global,
    question: &Question<'_>,
    core: &[u32],
    last_closed: &mut LastClosed,
) -> Result<Attempt, NoMemory>
    requires slot { question.now.slot.now ≡ Principal }
    requires core { IsCoreOf question.now core.now }
    ensures { IfOk result (IsAttempt question.now core.now) }
{
    let aws = match attempt_kind(alloc, question, core, Aws, last_closed)? {
        KindAttempt::Empty(proof) => proof,
        KindAttempt::Whole(attempt) => return Ok(attempt),
    };
    let service = match attempt_kind(alloc, question, core, Service, last_closed)? {
        KindAttempt::Empty(proof) => proof,
        KindAttempt::Whole(attempt) => return Ok(attempt),
    };
    let federated = match attempt_kind(alloc, question, core, Federated, last_closed)? {
        KindAttempt::Empty(proof) => proof,
        KindAttempt::Whole(attempt) => return Ok(attempt),
    };
    let canonical = match attempt_kind(alloc, question, core, CanonicalUser, last_closed)? {
        KindAttempt::Empty(proof) => proof,
        KindAttempt::Whole(attempt) => return Ok(attempt),
    };
    Ok(Attempt::Empty(SlotProof::Kinds(aws, service, federated, canonical)))
}

/// A value for the core, tried on all answered tests of the slot.
pub fn attempt(
    alloc: Global,
    question: &Question<'_>,
    core: &[u32],
    last_closed: &mut LastClosed,
) -> Result<Attempt, NoMemory>
    requires core { IsCoreOf question.now core.now }
    ensures { IfOk result (IsAttempt question.now core.now) }
{
    match question.slot {
        Slot::Principal => attempt_principal(alloc, question, core, last_closed),
        Slot::Action | Slot::Resource => attempt_word(alloc, question, core, last_closed),
        Slot::Key(name) => match question.schema.get(name) {
            Some(rule) => attempt_key(alloc, question, rule, core),
            None => unreachable!(),
        },
    }
}
