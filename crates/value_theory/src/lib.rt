//! Whether some truth value, number, address or byte string meets clauses over conditions on it.
#![tactic(auto)]

mod clause;
mod kinds;
mod meaning;
mod samples;
mod search;

pub use clause::{ClauseList, Literal, LiteralList};
pub use kinds::{PlainCond, PlainCondList, PlainKind, PlainValue};
pub use meaning::{meets_condition, meets_is_meaning};
pub use plain_lists::NoMemory;
pub use samples::{SampleList, sample_points, samples_stand_for_all};
pub use search::{PlainWants, Solved, solve};
