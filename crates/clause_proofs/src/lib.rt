//! Clausal proofs of queries, and their check.
#![tactic(auto)]

mod checking;
mod laws;
mod lines;

pub use checking::refutes;
pub use laws::clausal_proofs_refute;
pub use lines::Line;
