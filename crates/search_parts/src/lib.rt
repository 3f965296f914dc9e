//! Parts of a refutation while a search makes it: what they need of their path, how they are put together,
//! and the numbers of their labels.
#![tactic(auto)]

mod joining;
mod learning;
mod least;
mod leaves;
mod needless;
mod part;
mod renumbering;
mod shortening;

pub use joining::join;
pub use learning::{MOST_LEARNED, search_limits};
pub use least::least_answers;
pub use leaves::{answers_to, clauses_part, kept_part, reuse_part, slot_part, value_part};
pub use part::{Halves, Needs, Part};
pub use plain_lists::NoMemory;
pub use renumbering::finished;
pub use shortening::Shortening;
