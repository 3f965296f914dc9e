//! Which tests lead to which, which exclude one another, and which always hold, on valid requests.
#![tactic(auto)]

mod bounds;
mod conds;
mod entries;
mod kept;
mod keys;
mod lists;
mod places;
mod tests;
mod words;

pub use kept::Relations;
pub use tests::{always, excludes, leads};
