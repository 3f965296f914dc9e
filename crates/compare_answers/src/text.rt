//! The texts of the answers.
ghost use Rattle.std.specs.Prelude.{◌≡◌, ◌++◌, IfOk, string_bytes};
ghost use Rattle.proof_text.specs.Lines.{verdict_line};
ghost use Rattle.compare_answers.specs.Texts.{check_text, comparison_text};

use crate::answer::{CheckAnswer, ComparisonAnswer};
use request_json::write_request;
use run_inputs::{accepted_line, not_closing_line, proof_fault_text, shortage_text};
use std::alloc::{AllocError, Global};

// A certificate behind the line of the verdict. It is put in front of it in place, since a certificate may have
// many megabytes.
fn behind_verdict(proof: String) -> Result<String, AllocError>
    ensures { IfOk result (λ s. string_bytes s ≡ verdict_line ++ string_bytes proof) }
{
    let mut text = proof;
    text.insert_str(0, "not more permissive\n")?;
    Ok(text)
}

/// The text of an answer to a comparison: one line, for `More` the request on a second one, and for `Proved`
/// the certificate behind the line.
#[tactic(auto, unfolding(crate::specs::Texts::comparison_text))]
pub fn comparison_text(alloc: Global, answer: ComparisonAnswer) -> Result<String, AllocError>
    ensures { IfOk result (λ s. string_bytes s ≡ comparison_text answer) }
{
    match answer {
        ComparisonAnswer::NotMore => String::from_str(alloc, "not more permissive\n"),
        ComparisonAnswer::More(request) => {
            let request = write_request(alloc, &request)?;
            format!(in alloc; "more permissive\n{request}\n")
        }
        ComparisonAnswer::Proved(proof) => behind_verdict(proof),
        ComparisonAnswer::Undecided(shortage) => shortage_text(alloc, &shortage),
    }
}

/// The line of an answer to a check.
pub fn check_text(alloc: Global, answer: CheckAnswer) -> Result<String, AllocError>
    ensures { IfOk result (λ s. string_bytes s ≡ check_text answer) }
{
    match answer {
        CheckAnswer::Accepted => accepted_line(alloc),
        CheckAnswer::NotClosing(line) => not_closing_line(alloc, line),
        CheckAnswer::BadProof(fault) => proof_fault_text(alloc, fault),
    }
}
