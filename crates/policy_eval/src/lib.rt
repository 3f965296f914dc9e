//! What a set of policies allows, and which statement, or which lack of one, decides.
#![tactic(auto)]

mod conditions;
mod eval;
mod first;
mod laws;
mod outcome;

pub use eval::allows;
pub use first::decider;
pub use laws::{deciders_are_equal, deciders_tell_what_is_allowed};
pub use outcome::Decider;
