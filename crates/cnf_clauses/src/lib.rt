//! The clauses of a formula, unit propagation over them, and the replay of its hints.
#![tactic(auto)]

mod clause;
mod clauses;
mod decided;
mod explaining;
mod following;
mod index;
mod laws;
mod looking;
mod making;
mod numbering;
mod propagation;
mod replaying;
mod trail;
mod watching;

pub use clauses::{Clauses, Hints};
pub use following::{Conflict, Following, Start};
pub use laws::{
    clause_limits, clauses_have_truths, replayed_hints_exclude_yes, replays_are_convex,
    satisfied_clauses_never_replay,
};
pub use making::MOST_CLAUSES;
pub use numbering::clauses_of;
pub use plain_lists::NoMemory;
pub use propagation::conflict;
pub use replaying::replay;
