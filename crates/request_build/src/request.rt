//! Builds requests.
ghost use Rattle.std.specs.Prelude.{◌≡◌, IfOk, All};
ghost use Rattle.policy_model.specs.Requests.{IsValid};
ghost use Rattle.policy_model.specs.Soundness.{SchemaIsSound, TestSuits};
ghost use Rattle.policy_model.specs.declared.principal.PrincipalKind.TheVariants.{Aws};
ghost use Rattle.policy_model.specs.declared.test.Slot.TheVariants as slot;
ghost use Rattle.slot_theory.specs.Cores.{HasTest};
ghost use Rattle.slot_theory.specs.Possible.{AnswersPath, PathInRange};
ghost use Rattle.slot_theory.specs.Unasked.{stated_word};
ghost use Rattle.request_build.specs.Built.{AreSlotValues, KeysAreStated};
ghost use Rattle.request_build.specs.Taken.{action_in, joined_request, principal_in, resource_in};

use crate::context::context_in;
use formula_tree::Path;
use plain_lists::{List, NoMemory};
use policy_model::{PrincipalKind, Request, Schema, Slot, TestList};
use slot_theory::{SlotValue, stated_value};
use std::alloc::Global;
use wildcard_lang::Text;

/// A value for each of some slots.
pub type SlotValues = List<(Slot, SlotValue)>;

// The kind and the id of a principal that nothing is asked of.
fn stated_principal(alloc: Global, schema: &Schema) -> Result<(PrincipalKind, Text), NoMemory>
    requires { SchemaIsSound schema.now }
    ensures { IfOk result (λ p. p ≡ (Aws, stated_word schema.now.shapes.aws)) }
{
    match stated_value(alloc, schema, &Slot::Principal)? {
        SlotValue::Principal(kind, id) => Ok((kind, id)),
        SlotValue::Word(_) | SlotValue::Values(_) => unreachable!(),
    }
}

// The action that nothing is asked of.
fn stated_action(alloc: Global, schema: &Schema) -> Result<Text, NoMemory>
    requires { SchemaIsSound schema.now }
    ensures { IfOk result (λ t. t ≡ stated_word schema.now.shapes.action) }
{
    match stated_value(alloc, schema, &Slot::Action)? {
        SlotValue::Word(text) => Ok(text),
        SlotValue::Principal(_, _) | SlotValue::Values(_) => unreachable!(),
    }
}

// The resource that nothing is asked of.
fn stated_resource(alloc: Global, schema: &Schema) -> Result<Text, NoMemory>
    requires { SchemaIsSound schema.now }
    ensures { IfOk result (λ t. t ≡ stated_word schema.now.shapes.resource) }
{
    match stated_value(alloc, schema, &Slot::Resource)? {
        SlotValue::Word(text) => Ok(text),
        SlotValue::Principal(_, _) | SlotValue::Values(_) => unreachable!(),
    }
}

// The kind and the id of the first value of the principal, or the stated ones.
fn principal_in(
    alloc: Global,
    schema: &Schema,
    values: &[(Slot, SlotValue)],
) -> Result<(PrincipalKind, Text), NoMemory>
    requires { SchemaIsSound schema.now }
    ensures { IfOk result (λ p. p ≡ principal_in schema.now.shapes values.now) }
{
    match values {
        [] => stated_principal(alloc, schema),
        [(Slot::Principal, SlotValue::Principal(kind, id)), ..] => Ok((*kind, id.copy()?)),
        [_, rest @ ..] => principal_in(alloc, schema, rest),
    }
}

// The word of the first value of the action, or the stated one.
fn action_in(alloc: Global, schema: &Schema, values: &[(Slot, SlotValue)]) -> Result<Text, NoMemory>
    requires { SchemaIsSound schema.now }
    ensures { IfOk result (λ t. t ≡ action_in schema.now.shapes values.now) }
{
    match values {
        [] => stated_action(alloc, schema),
        [(Slot::Action, SlotValue::Word(text)), ..] => text.copy(),
        [_, rest @ ..] => action_in(alloc, schema, rest),
    }
}

// The word of the first value of the resource, or the stated one.
fn resource_in(
    alloc: Global,
    schema: &Schema,
    values: &[(Slot, SlotValue)],
) -> Result<Text, NoMemory>
    requires { SchemaIsSound schema.now }
    ensures { IfOk result (λ t. t ≡ resource_in schema.now.shapes values.now) }
{
    match values {
        [] => stated_resource(alloc, schema),
        [(Slot::Resource, SlotValue::Word(text)), ..] => text.copy(),
        [_, rest @ ..] => resource_in(alloc, schema, rest),
    }
}

/// The request whose slots have these values. A slot without a value has a stated one:
///
/// - The principal is an `AWS` principal. Its id, the action and the resource are a sample of their shape, or `x`
///   where they have no shape or the sample is empty.
/// - A required key has one value: the first listed one, or else a sample of its shape, or else `x`, true, 0,
///   0.0.0.0 or no bytes by its kind. No other key without values is there.
///
/// The schema is sound, and the values are one for each slot of a test of the path, each permitted and
/// answering its slot's tests as the path does. The only error is want of memory.
pub fn build(
    alloc: Global,
    schema: &Schema,
    _tests: &TestList,
    _path: &Path,
    values: &SlotValues,
) -> Result<Request, NoMemory>
    requires sound { SchemaIsSound schema.now }
    requires suit { All (TestSuits schema.now) _tests.now }
    requires range { PathInRange _tests.now _path.now }
    requires values { AreSlotValues schema.now _tests.now _path.now values.now }
    ensures joined { IfOk result (λ r. r ≡ joined_request schema.now values.now) }
    ensures valid { IfOk result (IsValid schema.now) }
    ensures answers { IfOk result (AnswersPath _tests.now _path.now) }
    ensures principal { IfOk result (λ r. ¬ HasTest _tests.now _path.now slot.Principal →
        (r.kind ≡ Aws) × (r.id ≡ stated_word schema.now.shapes.aws)) }
    ensures action { IfOk result (λ r. ¬ HasTest _tests.now _path.now slot.Action →
        r.action ≡ stated_word schema.now.shapes.action) }
    ensures resource { IfOk result (λ r. ¬ HasTest _tests.now _path.now slot.Resource →
        r.resource ≡ stated_word schema.now.shapes.resource) }
    ensures keys { IfOk result (KeysAreStated schema.now _tests.now _path.now) }
{
    let values = values.as_slice();
    let (kind, id) = principal_in(alloc, schema, values)?;
    Ok(Request {
        kind,
        id,
        action: action_in(alloc, schema, values)?,
        resource: resource_in(alloc, schema, values)?,
        context: context_in(alloc, schema, values)?,
    })
}
