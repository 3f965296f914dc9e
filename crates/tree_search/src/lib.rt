//! The search: a query refuted over all requests, or met by one.
#![tactic(auto)]

mod cores;
mod deciding;
mod found;
mod outcome;
mod runs;
mod search;
mod state;
mod values;

pub use deciding::decide;
pub use outcome::{Budgets, Decided, Wide};
pub use runs::queries_have_runs;
