//! Two sets of policies of a size that is asked for, on which the work of the comparer can be seen.
#![tactic(auto)]

mod keys;
mod patterns;
mod sets;

pub use keys::{KEY_NUMBERS, load_limits};
pub use plain_lists::NoMemory;
pub use sets::load_pair;
