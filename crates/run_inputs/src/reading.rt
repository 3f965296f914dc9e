//! What single files stand for.
ghost use Rattle.std.specs.Prelude.{IfOk, Some, option_map};
ghost use Rattle.policy_model.specs.Soundness.{IsSound, SchemaIsSound};
ghost use Rattle.run_inputs.specs.Printing.{OrAnswered};
ghost use Rattle.run_inputs.specs.Refusals.{IsRefusedBy};
ghost use Rattle.run_inputs.specs.Standing.{IsSchemaFileRefusal, IsSetFileRefusal, NamesSchema, StandsFor};

use crate::printed::EarlyEnd;
use crate::refusal::{Refusal, refused};
use crate::role::Role;
use policy_json::{PolicyAnswer, read_set};
use policy_model::{PolicySet, Schema};
use request_schema::{SchemaAnswer, built_in, read_schema};
use std::alloc::Global;

// The schema of a file.
fn schema_of(alloc: Global, bytes: &[u8]) -> Result<Schema, EarlyEnd>
    ensures value { OrAnswered result (NamesSchema (Some bytes.now))
        (IsRefusedBy (IsSchemaFileRefusal (Some bytes.now))) }
    ensures sound { IfOk result SchemaIsSound }
{
    match read_schema(alloc, bytes) {
        Ok(schema) => Ok(schema),
        Err(SchemaAnswer::Refused(fault)) => Err(refused(alloc, Refusal::BadSchema(fault))),
        Err(SchemaAnswer::NoMemory) => Err(EarlyEnd::NoMemory),
    }
}

/// The schema of the file, or that of the built-in keys where none is named.
pub fn named_schema(alloc: Global, file: Option<&[u8]>) -> Result<Schema, EarlyEnd>
    ensures value { OrAnswered result (NamesSchema (option_map (λ f. f.now) file.entry))
        (IsRefusedBy (IsSchemaFileRefusal (option_map (λ f. f.now) file.entry))) }
    ensures sound { IfOk result SchemaIsSound }
{
    match file {
        Some(bytes) => schema_of(alloc, bytes),
        None => Ok(built_in(alloc)?),
    }
}

/// The set of the role's file.
pub fn set_of(alloc: Global, role: Role, bytes: &[u8]) -> Result<PolicySet, EarlyEnd>
    ensures value { OrAnswered result (StandsFor bytes.now)
        (IsRefusedBy (IsSetFileRefusal role bytes.now)) }
    ensures sound { IfOk result IsSound }
{
    match read_set(alloc, bytes) {
        Ok(set) => Ok(set),
        Err(PolicyAnswer::Refused(fault)) => Err(refused(alloc, Refusal::BadSet(role, fault))),
        Err(PolicyAnswer::NoMemory) => Err(EarlyEnd::NoMemory),
    }
}
