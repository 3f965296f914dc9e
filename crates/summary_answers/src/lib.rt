//! What is found of a region by dimensions, and printed: the maximal irreducible findings that cover it, each with
//! a request of its own.
#![tactic(auto)]

mod answer;
mod dimensions;
mod ending;
mod limits;
mod printing;
mod subject;
mod summary;
mod text;

pub use answer::Found;
pub use dimensions::slots_of;
pub use ending::{ended, too_many_line};
pub use limits::{MOST_CHANGE_PREDICATES, change_limits_of, limits_of, predicate_limits};
pub use printing::{print_subject_findings, print_subject_summary, print_summary, status_by};
pub use subject::{Subject, subject_of_pair, subject_of_set};
pub use summary::{found, query_of};
pub use text::found_text;
