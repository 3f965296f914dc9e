//! The texts of the answers.
ghost use Rattle.std.specs.Prelude.{◌≡◌, IfOk, string_bytes};
ghost use Rattle.idle_answers.specs.UseTexts.{name_end, statement_start, statements_line, use_text};

use crate::answer::UseAnswer;
use policy_model::StatementName;
use request_json::write_request;
use run_inputs::{number_text, shortage_text};
use std::alloc::{AllocError, Global};

/// The line on how many statements there are.
#[tactic(auto, unfolding(crate::specs::UseTexts::statements_line))]
pub(crate) fn statements_line(alloc: Global, count: usize) -> Result<String, AllocError>
    ensures { IfOk result (λ s. string_bytes s ≡ statements_line count) }
{
    format!(in alloc; "statements: {count}\n")
}

// The number of a statement, with which the start of its line ends.
#[tactic(auto, unfolding(crate::specs::UseTexts::name_end))]
fn name_end(alloc: Global, number: u32) -> Result<String, AllocError>
    ensures { IfOk result (λ s. string_bytes s ≡ name_end number) }
{
    format!(in alloc; ", statement {number}: ")
}

/// The start of a statement's line.
#[tactic(auto, unfolding(crate::specs::UseTexts::statement_start))]
pub(crate) fn statement_start(alloc: Global, name: StatementName) -> Result<String, AllocError>
    ensures { IfOk result (λ s. string_bytes s ≡ statement_start name) }
{
    let end = name_end(alloc, name.statement)?;
    let document = number_text(alloc, name.document)?;
    let document = document.as_str();
    let end = end.as_str();
    format!(in alloc; "document {document}{end}")
}

/// The answer on a statement, behind the start of its line.
#[tactic(auto, unfolding(crate::specs::UseTexts::use_text))]
pub(crate) fn use_text(alloc: Global, answer: &UseAnswer) -> Result<String, AllocError>
    ensures { IfOk result (λ s. string_bytes s ≡ use_text answer.now) }
{
    match answer {
        UseAnswer::Used(request) => {
            let request = write_request(alloc, request)?;
            format!(in alloc; "used\n{request}\n")
        }
        UseAnswer::Idle => String::from_str(alloc, "idle\n"),
        UseAnswer::Proved(proof) => {
            let proof = proof.as_str();
            format!(in alloc; "idle\n{proof}")
        }
        UseAnswer::Undecided(shortage) => shortage_text(alloc, shortage),
    }
}
