//! Budgets that are too small for a query.
ghost use Rattle.std.specs.Prelude.{◌≡◌, IfOk, string_bytes};
ghost use Rattle.run_inputs.specs.Parts.{shortage_text};

use crate::lines::{number_text, slot_end};
use policy_model::Slot;
use std::alloc::{AllocError, Global};

/// A budget that is too small for a query, by its number.
#[derive(Drop)]
pub enum Shortage {
    /// The plain run needs more splits, and so does the propagated run.
    Splits(u32),
    /// More product states are needed at the slot: at a node of the plain run, or of a summary for two
    /// predicates of the dimension.
    States(u32, Slot),
}

// The line on the states of a slot.
#[tactic(auto, unfolding(crate::specs::Parts::shortage_text))]
fn states_text(alloc: Global, states: u32, slot: &Slot) -> Result<String, AllocError>
    ensures { IfOk result (λ s. string_bytes s ≡ shortage_text (Shortage.States states slot.now)) }
{
    let end = slot_end(alloc, slot)?;
    let states = number_text(alloc, states)?;
    let states = states.as_str();
    let end = end.as_str();
    format!(in alloc; "undecided: states {states}{end}")
}

/// The line on a budget that is too small for a query.
#[tactic(auto, unfolding(crate::specs::Parts::shortage_text))]
pub fn shortage_text(alloc: Global, shortage: &Shortage) -> Result<String, AllocError>
    ensures { IfOk result (λ s. string_bytes s ≡ shortage_text shortage.now) }
{
    match shortage {
        Shortage::Splits(splits) => format!(in alloc; "undecided: splits {splits}\n"),
        Shortage::States(states, slot) => states_text(alloc, *states, slot),
    }
}
