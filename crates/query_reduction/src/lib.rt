//! A query's formula without what other parts of it make needless.
#![tactic(auto)]

mod candidates;
mod claims;
mod conjuncts;
mod implies;
mod reducer;
mod reduction;

pub use reducer::Reducer;
pub use reduction::reduced;
