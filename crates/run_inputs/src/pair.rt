//! What is compared.
ghost use Rattle.std.specs.Prelude.{◌≡◌, IfOk, option_map};
ghost use Rattle.policy_model.specs.Soundness.{IsSound, SchemaIsSound};
ghost use Rattle.run_inputs.specs.Printing.{OrAnswered};
ghost use Rattle.run_inputs.specs.Pairs.{IsFitting, IsPairRefusal, IsPairRunRefusal, IsPairOf, IsPairRunOf, contents, infer_role};
ghost use Rattle.run_inputs.specs.Refusals.{IsRefusedBy};

use crate::printed::EarlyEnd;
use crate::reading::{named_schema, set_of};
use crate::refusal::{Refusal, refused};
use crate::role::Role;
use policy_model::{PolicySet, Schema};
use request_schema::{InferAnswer, InferFault, infer};
use std::alloc::Global;

/// Two sets of policies, under the schema of their run.
#[derive(Drop)]
pub struct Pair {
    pub schema: Schema,
    pub first: PolicySet,
    pub second: PolicySet,
}

// The set that a condition stands in.
fn infer_role(fault: &InferFault) -> Role
    ensures { result ≡ infer_role fault.now }
{
    if fault.second {
        Role::Second
    } else {
        Role::First
    }
}

/// Two sets under the schema of their run, or the line on the first condition that it can't answer.
pub fn run_pair(
    alloc: Global,
    named: &Schema,
    first: PolicySet,
    second: PolicySet,
) -> Result<Pair, EarlyEnd>
    requires sound { SchemaIsSound named.now }
    requires first_sound { IsSound first }
    requires second_sound { IsSound second }
    ensures run { OrAnswered result (IsPairRunOf named.now first second)
        (IsRefusedBy (IsPairRunRefusal named.now first second)) }
    ensures fitting { IfOk result IsFitting }
{
    match infer(alloc, named, &first, Some(&second)) {
        Ok(schema) => Ok(Pair {
            schema,
            first,
            second,
        }),
        Err(InferAnswer::Refused(fault)) => {
            Err(refused(alloc, Refusal::BadCondition(infer_role(&fault), fault)))
        }
        Err(InferAnswer::NoMemory) => Err(EarlyEnd::NoMemory),
    }
}

/// The pair that files stand for, those of two sets and that of a schema where one is named. Otherwise the line on
/// the first fault: of the schema, then of the first set, then of the second, then of both together.
pub fn read_pair(
    alloc: Global,
    first: &[u8],
    second: &[u8],
    schema: Option<&[u8]>,
) -> Result<Pair, EarlyEnd>
    ensures read { OrAnswered result
        (IsPairOf (contents first.now second.now (option_map (λ f. f.now) schema.entry)))
        (IsRefusedBy
        (IsPairRefusal (contents first.now second.now (option_map (λ f. f.now) schema.entry)))) }
    ensures fitting { IfOk result IsFitting }
{
    let named = named_schema(alloc, schema)?;
    let first = set_of(alloc, Role::First, first)?;
    let second = set_of(alloc, Role::Second, second)?;
    run_pair(alloc, &named, first, second)
}
