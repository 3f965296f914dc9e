//! A search by conflict-driven clause learning with the slots' theory behind it. What it refutes the check of clausal
//! proofs refutes.
#![tactic(auto)]

mod choosing;
mod meeting;
mod outcome;
mod searching;
mod slots;

pub use outcome::Outcome;
pub use searching::search;
