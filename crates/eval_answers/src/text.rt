//! The texts of the answers.
ghost use Rattle.std.specs.Prelude.{◌≡◌, IfOk, string_bytes};
ghost use Rattle.run_inputs.specs.Printing.{IfAnswered, PrintsText};
ghost use Rattle.run_inputs.specs.declared.status.Status.TheVariants.{Refused};
ghost use Rattle.eval_answers.specs.Sayings.{denial_text, evaluation_status, evaluation_text, number_end, request_fault_line, request_fault_text, request_word, statement_line};

use crate::answer::{Denial, Evaluation};
use policy_model::StatementName;
use request_json::{RequestCode, RequestFault};
use run_inputs::{EarlyEnd, Printed, Status, element_text, number_text, refused_line};
use std::alloc::{AllocError, Global};

fn request_word(code: RequestCode) -> &'static str
    ensures { result.now ≡ request_word code }
{
    match code {
        RequestCode::Q1NotJson => "Q1 NotJson",
        RequestCode::Q2Shape => "Q2 Shape",
        RequestCode::Q3BadValue => "Q3 BadValue",
        RequestCode::Q4NotValid => "Q4 NotValid",
    }
}

// A fault of a request file with its element.
fn request_fault_text(alloc: Global, fault: &RequestFault) -> Result<String, AllocError>
    ensures { IfOk result (λ s. string_bytes s ≡ request_fault_text fault.now) }
{
    let code = request_word(fault.code);
    let element = element_text(alloc, &fault.element)?;
    let element = element.as_str();
    format!(in alloc; "{code}: {element}")
}

// The number of a statement, at the end of a line that names it.
#[tactic(auto, unfolding(crate::specs::Sayings::number_end))]
fn number_end(alloc: Global, number: u32) -> Result<String, AllocError>
    ensures { IfOk result (λ s. string_bytes s ≡ number_end number) }
{
    format!(in alloc; ", statement {number}\n")
}

// The end of a line that names a statement.
#[tactic(auto, unfolding(crate::specs::Sayings::statement_line))]
fn statement_line(alloc: Global, name: StatementName) -> Result<String, AllocError>
    ensures { IfOk result (λ s. string_bytes s ≡ statement_line name) }
{
    let end = number_end(alloc, name.statement)?;
    let document = number_text(alloc, name.document)?;
    let document = document.as_str();
    let end = end.as_str();
    format!(in alloc; "document {document}{end}")
}

// The line on a request that isn't allowed.
#[tactic(auto, unfolding(crate::specs::Sayings::denial_text))]
fn denial_text(alloc: Global, denial: Denial) -> Result<String, AllocError>
    ensures { IfOk result (λ s. string_bytes s ≡ denial_text denial) }
{
    match denial {
        Denial::ByStatement(name) => {
            let line = statement_line(alloc, name)?;
            let line = line.as_str();
            format!(in alloc; "denied: {line}")
        }
        Denial::NoStatement => String::from_str(alloc, "denied: no statement applies\n"),
        Denial::NoGrant => String::from_str(alloc, "denied: no grant applies\n"),
        Denial::NoGuard(guard) => format!(in alloc; "denied: guard {guard} allows nothing\n"),
    }
}

// The line on a request file that stands for no request.
fn request_fault_line(alloc: Global, fault: &RequestFault) -> Result<String, AllocError>
    ensures { IfOk result (λ s. string_bytes s ≡ request_fault_line fault.now) }
{
    refused_line(alloc, "request", request_fault_text(alloc, fault)?.as_str())
}

/// What is printed of a request file that stands for no request.
pub fn no_request(alloc: Global, fault: RequestFault) -> EarlyEnd
    ensures { IfAnswered result (PrintsText (request_fault_line fault) Refused) }
{
    match request_fault_line(alloc, &fault) {
        Ok(text) => EarlyEnd::Answered(Printed {
            text,
            status: Status::Refused,
        }),
        Err(_) => EarlyEnd::NoMemory,
    }
}

/// The line of an evaluation.
#[tactic(auto, unfolding(crate::specs::Sayings::evaluation_text))]
pub fn evaluation_text(alloc: Global, answer: Evaluation) -> Result<String, AllocError>
    ensures { IfOk result (λ s. string_bytes s ≡ evaluation_text answer) }
{
    match answer {
        Evaluation::Allowed(name) => {
            let line = statement_line(alloc, name)?;
            let line = line.as_str();
            format!(in alloc; "allowed: {line}")
        }
        Evaluation::Denied(denial) => denial_text(alloc, denial),
    }
}

/// The status of an evaluation.
pub fn evaluation_status(answer: Evaluation) -> Status
    ensures { result ≡ evaluation_status answer }
{
    match answer {
        Evaluation::Allowed(_) => Status::Holds,
        Evaluation::Denied(_) => Status::Fails,
    }
}
