//! What is printed to `load`: the comparisons, both ways, and the summary of two sets of a size that is
//! asked for, each by the first line of its answer.
#![tactic(auto)]

mod loading;

pub use loading::{LoadLines, print_load};
