//! What is summarised, and what evaluates a request.
ghost use Rattle.std.specs.Prelude.{IfOk, option_map};
ghost use Rattle.policy_model.specs.Soundness.{IsSound, SchemaIsSound};
ghost use Rattle.run_inputs.specs.Printing.{OrAnswered};
ghost use Rattle.run_inputs.specs.OneSets.{FitsItsSchema, IsSetRunRefusal, IsOneSetRefusal, IsSetRunOf, IsOneSetOf};
ghost use Rattle.run_inputs.specs.Refusals.{IsRefusedBy};

use crate::printed::EarlyEnd;
use crate::reading::{named_schema, set_of};
use crate::refusal::{Refusal, refused};
use crate::role::Role;
use policy_model::{PolicySet, Schema};
use request_schema::{InferAnswer, infer};
use std::alloc::Global;

/// A set of policies, under the schema of its run.
#[derive(Drop)]
pub struct OneSet {
    pub schema: Schema,
    pub set: PolicySet,
}

/// A set under the schema of its run, or the line on the first condition that it can't answer.
pub fn run_one(alloc: Global, named: &Schema, set: PolicySet) -> Result<OneSet, EarlyEnd>
    requires sound { SchemaIsSound named.now }
    requires set_sound { IsSound set }
    ensures run { OrAnswered result (IsSetRunOf named.now set)
        (IsRefusedBy (IsSetRunRefusal named.now set)) }
    ensures fits { IfOk result FitsItsSchema }
{
    match infer(alloc, named, &set, None) {
        Ok(schema) => Ok(OneSet { schema, set }),
        Err(InferAnswer::Refused(fault)) => {
            Err(refused(alloc, Refusal::BadCondition(Role::Set, fault)))
        }
        Err(InferAnswer::NoMemory) => Err(EarlyEnd::NoMemory),
    }
}

/// The set that files stand for, its own and that of a schema where one is named, or the line on the first
/// fault: of the schema, then of the set, then of both together.
pub fn read_one(alloc: Global, set: &[u8], schema: Option<&[u8]>) -> Result<OneSet, EarlyEnd>
    ensures read { OrAnswered result
        (IsOneSetOf set.now (option_map (λ f. f.now) schema.entry))
        (IsRefusedBy (IsOneSetRefusal set.now (option_map (λ f. f.now) schema.entry))) }
    ensures fits { IfOk result FitsItsSchema }
{
    let named = named_schema(alloc, schema)?;
    let set = set_of(alloc, Role::Set, set)?;
    run_one(alloc, &named, set)
}
