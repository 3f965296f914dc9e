//! Evaluates a request under a set of policies.
ghost use Rattle.std.specs.Prelude.{option_map};
ghost use Rattle.policy_model.specs.Requests.{IsValid};
ghost use Rattle.policy_model.specs.Soundness.{SchemaFits};
ghost use Rattle.run_inputs.specs.Printing.{IfPrinted, OrAnswered};
ghost use Rattle.run_inputs.specs.OneSets.{FitsItsSchema};
ghost use Rattle.eval_answers.specs.Evaluated.{IsEvaluation, IsEvaluationPrinted, IsRequestFault, IsRequestPrinted, IsUngranted, StandsForRequest, evaluation_contents};

use crate::answer::{Denial, Evaluation};
use crate::text::{evaluation_status, evaluation_text, no_request};
use policy_eval::{Decider, allows, decider, deciders_tell_what_is_allowed};
use policy_model::{PolicySet, Request, Schema};
use request_json::{RequestAnswer, read_request};
use run_inputs::{EarlyEnd, OneSet, Printed, read_one};
use std::alloc::Global;

// Why no grant lets a request through, by whether the set has guards.
fn ungranted(set: &PolicySet) -> Denial
    ensures { IsUngranted set.now result }
{
    if set.guards.as_slice().is_empty() {
        Denial::NoStatement
    } else {
        Denial::NoGrant
    }
}

// What the set says of the request.
fn decision_on(set: &PolicySet, schema: &Schema, request: &Request) -> Evaluation
    requires fits { SchemaFits schema.now set.now }
    requires valid { IsValid schema.now request.now }
    ensures { IsEvaluation schema.now set.now request.now result }
{
    deciders_tell_what_is_allowed();
    match decider(set, schema, request) {
        Decider::Statement(name) => {
            if allows(set, schema, request) {
                Evaluation::Allowed(name)
            } else {
                Evaluation::Denied(Denial::ByStatement(name))
            }
        }
        Decider::NoGrant => Evaluation::Denied(ungranted(set)),
        Decider::NoGuard(guard) => Evaluation::Denied(Denial::NoGuard(guard)),
    }
}

// The request of a file.
fn request_of(alloc: Global, schema: &Schema, bytes: &[u8]) -> Result<Request, EarlyEnd>
    ensures { OrAnswered result (StandsForRequest schema.now bytes.now)
        (IsRequestFault schema.now bytes.now) }
{
    match read_request(alloc, schema, bytes) {
        Ok(request) => Ok(request),
        Err(RequestAnswer::Refused(fault)) => Err(no_request(alloc, fault)),
        Err(RequestAnswer::NoMemory) => Err(EarlyEnd::NoMemory),
    }
}

// What is printed of a set under the schema of its run, and of a request file.
fn print_request(alloc: Global, one: &OneSet, request: &[u8]) -> Result<Printed, EarlyEnd>
    requires { FitsItsSchema one.now }
    ensures { IfPrinted result (IsRequestPrinted request.now one.now) }
{
    let request = request_of(alloc, &one.schema, request)?;
    let answer = decision_on(&one.set, &one.schema, &request);
    Ok(Printed {
        text: evaluation_text(alloc, answer)?,
        status: evaluation_status(answer),
    })
}

/// What is printed of files that were read: those of a set and of a request, and that of a schema where one
/// is named.
pub fn print_evaluation(
    alloc: Global,
    set: &[u8],
    request: &[u8],
    schema: Option<&[u8]>,
) -> Result<Printed, EarlyEnd>
    ensures { IfPrinted result (IsEvaluationPrinted (evaluation_contents
        set.now request.now (option_map (λ f. f.now) schema.entry))) }
{
    let one = read_one(alloc, set, schema)?;
    print_request(alloc, &one, request)
}
