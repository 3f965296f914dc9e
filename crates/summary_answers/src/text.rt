//! The text of a summary.
ghost use Rattle.std.specs.Prelude.{◌≡◌, ◌++◌, IfOk, OnOk, flat_map, string_bytes};
ghost use Rattle.findings.specs.Findings.{IsFinding};
ghost use Rattle.summary_answers.specs.FindingTexts.{count_line, found_lines, found_text, request_end};
ghost use Rattle.summary_answers.specs.Found.{HaveFindings};

use crate::answer::Found;
use findings::{Finding, finding_text};
use policy_model::Request;
use request_json::write_request;
use std::alloc::{AllocError, Global};
use strata::Strata;

// The end of a finding's line, and the line of its request.
#[tactic(auto, unfolding(crate::specs::FindingTexts::request_end))]
fn request_end(alloc: Global, request: &Request) -> Result<String, AllocError>
    ensures { IfOk result (λ s. string_bytes s ≡ request_end request.now) }
{
    let request = write_request(alloc, request)?;
    format!(in alloc; "\n{request}\n")
}

// A finding's line and that of its request.
#[tactic(auto, unfolding(crate::specs::FindingTexts::found_lines))]
fn found_lines(
    alloc: Global,
    strata: &Strata,
    found: &(Finding, Request),
) -> Result<String, AllocError>
    requires { IsFinding strata.now.dimensions found.now.0 }
    ensures { IfOk result (λ s. string_bytes s ≡ found_lines strata.now.dimensions found.now) }
{
    let finding = finding_text(alloc, strata, &found.0)?;
    let end = request_end(alloc, &found.1)?;
    let finding = finding.as_str();
    let end = end.as_str();
    format!(in alloc; "{finding}{end}")
}

// How many findings there are.
#[tactic(auto, unfolding(crate::specs::FindingTexts::count_line))]
fn count_line(alloc: Global, count: usize) -> Result<String, AllocError>
    ensures { IfOk result (λ s. string_bytes s ≡ count_line count) }
{
    format!(in alloc; "findings: {count}\n")
}

// A finding's line and that of its request, behind a text.
fn put_found(
    alloc: Global,
    text: &mut String,
    strata: &Strata,
    found: &(Finding, Request),
) -> Result<(), AllocError>
    requires { IsFinding strata.now.dimensions found.now.0 }
    ensures { OnOk result (string_bytes text.new ≡
        string_bytes text.old ++ found_lines strata.now.dimensions found.now) }
{
    let printed = found_lines(alloc, strata, found)?;
    text.push_str(printed.as_str())?;
    Ok(())
}

// The lines of all findings, behind a text.
fn put_each(
    alloc: Global,
    text: &mut String,
    strata: &Strata,
    summary: &[(Finding, Request)],
) -> Result<(), AllocError>
    requires { HaveFindings strata.now.dimensions summary.now }
    ensures { OnOk result (string_bytes text.new ≡
        string_bytes text.old ++ flat_map (found_lines strata.now.dimensions) summary.now) }
{
    'found: for found in summary {
        put_found(alloc, text, strata, found)?;
    }
    Ok(())
}

/// The text of a summary: how many findings there are, and then for each its line, the JSON list of the texts
/// of its predicates, and the line of its request. The only error is want of memory.
pub fn found_text(alloc: Global, found: &Found) -> Result<String, AllocError>
    requires { HaveFindings found.now.strata.dimensions found.now.summary }
    ensures { IfOk result (λ s. string_bytes s ≡ found_text found.now) }
{
    let mut text = count_line(alloc, found.summary.len())?;
    put_each(alloc, &mut text, &found.strata, found.summary.as_slice())?;
    Ok(text)
}
