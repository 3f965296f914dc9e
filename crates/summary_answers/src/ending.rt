//! The lines that end a command before it has a summary.
ghost use Rattle.std.specs.Prelude.{◌≡◌, ◌<◌, [], IfOk, get_or, length, string_bytes};
ghost use Rattle.std.specs.Str.{chars};
ghost use Rattle.command_words.specs.Asked.{texts_in};
ghost use Rattle.run_inputs.specs.Printing.{IfAnswered, PrintsText};
ghost use Rattle.run_inputs.specs.declared.status.Status.TheVariants.{Refused};
ghost use Rattle.run_inputs.specs.Parts.{element_text};
ghost use Rattle.findings.specs.Findings.{IsFinding};
ghost use Rattle.findings.specs.Texts.{finding_text};
ghost use Rattle.summary_answers.specs.FindingTexts.{EndsWith, finding_end, findings_line, predicates_element, splits_line, states_end, states_line, too_many_line, unknown_line};

use findings::{Finding, finding_text};
use policy_model::Slot;
use run_inputs::{EarlyEnd, Printed, Status, element_text, number_text, refused_line, slot_word};
use serde_json::Value;
use std::alloc::{AllocError, Global};
use strata::Strata;
use wildcard_lang::Text;

/// The text, where there was memory for it, ends a command with the status.
pub fn ended(text: Result<String, AllocError>, status: Status) -> EarlyEnd
    ensures { EndsWith text status result }
{
    match text {
        Ok(text) => EarlyEnd::Answered(Printed { text, status }),
        Err(_) => EarlyEnd::NoMemory,
    }
}

// The line on a dimension that isn't known.
fn unknown_line(alloc: Global, name: &str) -> Result<String, AllocError>
    ensures { IfOk result (λ s. string_bytes s ≡ unknown_line (chars name.now)) }
{
    let element = element_text(alloc, &Text::of(alloc, name)?)?;
    refused_line(alloc, "schema: S5 UnknownDimension", element.as_str())
}

/// What is printed of a dimension that isn't known.
pub fn unknown(alloc: Global, name: &str) -> EarlyEnd
    ensures { IfAnswered result (PrintsText (unknown_line (chars name.now)) Refused) }
{
    ended(unknown_line(alloc, name), Status::Refused)
}

// What is refused where too many predicates are named of a dimension, as JSON.
fn predicates_text(alloc: Global, name: &Text) -> Result<String, AllocError>
    ensures { IfOk result (λ s. string_bytes s ≡ element_text (predicates_element name.now)) }
{
    let name = name.to_utf8()?;
    let element = format!(in alloc; "predicates of {name}")?;
    Value::String(element).to_string(alloc)
}

// The line on a dimension with too many named predicates.
fn too_many_text(alloc: Global, name: &Text) -> Result<String, AllocError>
    ensures { IfOk result (λ s. string_bytes s ≡ too_many_line name.now) }
{
    let element = predicates_text(alloc, name)?;
    let element = element.as_str();
    format!(in alloc; "refused: query: P17 Limit: document 0, statement 0, {element}\n")
}

/// The line on the dimension of this index, which has too many named predicates.
pub fn too_many_line(alloc: Global, names: &[String], dimension: u32) -> Result<String, AllocError>
    requires { dimension < length names.now }
    ensures { IfOk result (λ s.
        string_bytes s ≡ too_many_line (chars (get_or (texts_in names.now) dimension []))) }
{
    let name = Text::of(alloc, names[dimension as usize].as_str())?;
    too_many_text(alloc, &name)
}

/// The line on the number of findings that are looked at.
#[tactic(auto, unfolding(crate::specs::FindingTexts::findings_line))]
pub fn findings_line(alloc: Global, findings: u32) -> Result<String, AllocError>
    ensures { IfOk result (λ s. string_bytes s ≡ findings_line findings) }
{
    format!(in alloc; "undecided: findings {findings}\n")
}

// The end of a line on a finding's query.
#[tactic(auto, unfolding(crate::specs::FindingTexts::finding_end))]
fn finding_end(alloc: Global, strata: &Strata, finding: &Finding) -> Result<String, AllocError>
    requires { IsFinding strata.now.dimensions finding.now }
    ensures { IfOk result (λ s.
        string_bytes s ≡ finding_end (finding_text strata.now.dimensions finding.now)) }
{
    let finding = finding_text(alloc, strata, finding)?;
    let finding = finding.as_str();
    format!(in alloc; " in {finding}\n")
}

/// The line on the splits for the query of a finding.
#[tactic(auto, unfolding(crate::specs::FindingTexts::splits_line))]
pub fn splits_line(
    alloc: Global,
    splits: u32,
    strata: &Strata,
    finding: &Finding,
) -> Result<String, AllocError>
    requires { IsFinding strata.now.dimensions finding.now }
    ensures { IfOk result (λ s.
        string_bytes s ≡ splits_line splits (finding_text strata.now.dimensions finding.now)) }
{
    let end = finding_end(alloc, strata, finding)?;
    let splits = number_text(alloc, splits)?;
    let splits = splits.as_str();
    let end = end.as_str();
    format!(in alloc; "undecided: splits {splits}{end}")
}

// The end of the line on the states of a slot in a finding's query.
#[tactic(auto, unfolding(crate::specs::FindingTexts::states_end))]
fn states_end(
    alloc: Global,
    slot: &Slot,
    strata: &Strata,
    finding: &Finding,
) -> Result<String, AllocError>
    requires { IsFinding strata.now.dimensions finding.now }
    ensures { IfOk result (λ s.
        string_bytes s ≡ states_end slot.now (finding_text strata.now.dimensions finding.now)) }
{
    let end = finding_end(alloc, strata, finding)?;
    let slot = slot_word(alloc, slot)?;
    let end = end.as_str();
    format!(in alloc; " at {slot}{end}")
}

/// The line on the states of a slot in the query of a finding.
#[tactic(auto, unfolding(crate::specs::FindingTexts::states_line))]
pub fn states_line(
    alloc: Global,
    states: u32,
    slot: &Slot,
    strata: &Strata,
    finding: &Finding,
) -> Result<String, AllocError>
    requires { IsFinding strata.now.dimensions finding.now }
    ensures { IfOk result (λ s. string_bytes s
        ≡ states_line states slot.now (finding_text strata.now.dimensions finding.now)) }
{
    let end = states_end(alloc, slot, strata, finding)?;
    let states = number_text(alloc, states)?;
    let states = states.as_str();
    let end = end.as_str();
    format!(in alloc; "undecided: states {states}{end}")
}
