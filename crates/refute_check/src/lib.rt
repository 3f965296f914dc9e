//! Refutations of queries, and their check.
#![tactic(auto)]

mod accepted;
mod closing;
mod labels;
mod refutation;
mod runs;
mod sharing;
mod verdict;

pub use closing::{closed_paths_are_no, closed_queries_are_no, verdicts_are_equal};
pub use refutation::{AnswerList, Refutation};
pub use runs::{
    PossiblePaths, paths_have_propagated_runs, plain_runs_end_where_met,
    possible_paths_are_extensible, propagated_runs_are_determined, propagated_runs_are_shorter,
    propagated_runs_end_where_met,
};
pub use sharing::{SharedProof, SharedProofs};
pub use verdict::{Verdict, check};
