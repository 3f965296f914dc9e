//! Summaries of a region by the search: which predicates lie below which is answered by products, and whose
//! a finding is by the search for a request.
#![tactic(auto)]

mod asking;
mod finding;
mod inclusion;
mod outcome;
mod questions;
mod samples;

pub use finding::{find_strata, find_summary, strata_are_made};
pub use outcome::{Limits, Outcome};
