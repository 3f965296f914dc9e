//! The lines on certificates that are checked.
ghost use Rattle.std.specs.Prelude.{◌≡◌, IfOk, string_bytes};
ghost use Rattle.run_inputs.specs.CertificateLines.{accepted_line, bad_end, bad_line, not_closing_line, proof_fault_text, proof_word};

use proof_text::{ProofCode, ProofFault};
use std::alloc::{AllocError, Global};

fn proof_word(code: ProofCode) -> &'static str
    ensures { result.now ≡ proof_word code }
{
    match code {
        ProofCode::C1Syntax => "C1",
        ProofCode::C2Version => "C2",
        ProofCode::C3TestNumber => "C3",
        ProofCode::C4Limit => "C4",
    }
}

// The end of the line on a fault of a file, by its line.
#[tactic(auto, unfolding(crate::specs::CertificateLines::bad_end))]
fn bad_end(alloc: Global, line: u32) -> Result<String, AllocError>
    ensures { IfOk result (λ s. string_bytes s ≡ bad_end line) }
{
    format!(in alloc; " line {line}\n")
}

/// The line on a fault of a file, by its code and its line.
#[tactic(auto, unfolding(crate::specs::CertificateLines::bad_line))]
pub fn bad_line(alloc: Global, code: &str, line: u32) -> Result<String, AllocError>
    ensures { IfOk result (λ s. string_bytes s ≡ bad_line code.now line) }
{
    let end = bad_end(alloc, line)?;
    let end = end.as_str();
    format!(in alloc; "bad proof: {code}{end}")
}

/// The line on the first fault of a certificate.
pub fn proof_fault_text(alloc: Global, fault: ProofFault) -> Result<String, AllocError>
    ensures { IfOk result (λ s. string_bytes s ≡ proof_fault_text fault) }
{
    bad_line(alloc, proof_word(fault.code), fault.line)
}

/// The line on the first node of a certificate that fails.
#[tactic(auto, unfolding(crate::specs::CertificateLines::not_closing_line))]
pub fn not_closing_line(alloc: Global, line: u32) -> Result<String, AllocError>
    ensures { IfOk result (λ s. string_bytes s ≡ not_closing_line line) }
{
    format!(in alloc; "not closing: line {line}\n")
}

/// The line on a certificate that is accepted.
pub fn accepted_line(alloc: Global) -> Result<String, AllocError>
    ensures { IfOk result (λ s. string_bytes s ≡ accepted_line) }
{
    String::from_str(alloc, "accepted\n")
}
