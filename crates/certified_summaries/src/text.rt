//! The lines that only summaries with certificates, and checks of them, print.
ghost use Rattle.std.specs.Prelude.{◌≡◌, IfOk, string_bytes};
ghost use Rattle.certified_summaries.specs.CoverTexts.{cover_splits_line, cover_states_end, cover_states_line, cover_tests_line, head_fault_text, head_word, not_summary_line};

use crate::fault::{HeadCode, HeadFault};
use policy_model::Slot;
use run_inputs::{bad_line, number_text, slot_word};
use std::alloc::{AllocError, Global};

fn head_word(code: HeadCode) -> &'static str
    ensures { result.now ≡ head_word code }
{
    match code {
        HeadCode::C5Count => "C5",
        HeadCode::C6Finding => "C6",
        HeadCode::C7Request => "C7",
    }
}

/// The line on the first line before a certificate that fails.
pub(crate) fn head_fault_text(alloc: Global, fault: HeadFault) -> Result<String, AllocError>
    ensures { IfOk result (λ s. string_bytes s ≡ head_fault_text fault) }
{
    bad_line(alloc, head_word(fault.code), fault.line)
}

/// The line on the first pair that keeps a list from standing for a region, by the line of its finding.
#[tactic(auto, unfolding(crate::specs::CoverTexts::not_summary_line))]
pub(crate) fn not_summary_line(alloc: Global, line: u32) -> Result<String, AllocError>
    ensures { IfOk result (λ s. string_bytes s ≡ not_summary_line line) }
{
    format!(in alloc; "not a summary: line {line}\n")
}

/// The line on a cover whose query has more than 1,000 tests.
pub(crate) fn cover_tests_line(alloc: Global) -> Result<String, AllocError>
    ensures { IfOk result (λ s. string_bytes s ≡ cover_tests_line) }
{
    String::from_str(
        alloc,
        "refused: query: P17 Limit: document 0, statement 0, \"cover tests\"\n",
    )
}

/// The line on the splits for the query of a cover.
#[tactic(auto, unfolding(crate::specs::CoverTexts::cover_splits_line))]
pub(crate) fn cover_splits_line(alloc: Global, splits: u32) -> Result<String, AllocError>
    ensures { IfOk result (λ s. string_bytes s ≡ cover_splits_line splits) }
{
    format!(in alloc; "undecided: splits {splits} in cover\n")
}

// The end of the line on the states of a slot for it.
#[tactic(auto, unfolding(crate::specs::CoverTexts::cover_states_end))]
fn cover_states_end(alloc: Global, slot: &Slot) -> Result<String, AllocError>
    ensures { IfOk result (λ s. string_bytes s ≡ cover_states_end slot.now) }
{
    let slot = slot_word(alloc, slot)?;
    format!(in alloc; " at {slot} in cover\n")
}

/// The line on the states of a slot for the query of a cover.
#[tactic(auto, unfolding(crate::specs::CoverTexts::cover_states_line))]
pub(crate) fn cover_states_line(
    alloc: Global,
    states: u32,
    slot: &Slot,
) -> Result<String, AllocError>
    ensures { IfOk result (λ s. string_bytes s ≡ cover_states_line states slot.now) }
{
    let end = cover_states_end(alloc, slot)?;
    let states = number_text(alloc, states)?;
    let states = states.as_str();
    let end = end.as_str();
    format!(in alloc; "undecided: states {states}{end}")
}
