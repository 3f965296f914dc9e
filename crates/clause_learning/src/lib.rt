//! Learns clauses from conflicts. Nothing rests on any of it: what is said of a query the check of clausal proofs or a
//! request shows.
#![tactic(auto)]

mod activity;
mod analysis;
mod asked;
mod assignment;
mod guessing;
mod learning;
mod limits;
mod propagation;
mod running;
mod size;
mod solver;
mod store;
mod trimming;
mod watches;

pub use asked::Asked;
pub use assignment::Assignment;
pub use guessing::Guesses;
pub use limits::{Limits, MOST_WORK};
pub use running::Ending;
pub use size::{Size, size_of, states_of};
pub use solver::Solver;
pub use store::{Literal, Store};
