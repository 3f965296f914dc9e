//! Learned refutations: values that close under lists of answers, and a store that finds the first
//! one whose answers a path contains.
#![tactic(auto)]

mod store;
mod tracking;
mod watching;

pub use plain_lists::NoMemory;
pub use store::{Closes, Store};
pub use tracking::Tracking;
