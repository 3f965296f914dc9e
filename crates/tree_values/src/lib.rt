//! The value of a formula under answers that are given and taken back one by one, in any order. An
//! answer costs what it changes.
#![tactic(auto)]

mod cut;
mod graph;
mod node;
mod seen;
mod settling;
mod tree_values;

pub use cut::Sides;
pub use plain_lists::NoMemory;
pub use tree_values::TreeValues;
