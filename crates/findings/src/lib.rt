//! Summaries of a region of requests, such as those that a set of policies allows: findings, one predicate
//! of each dimension, that have a request of their own and no such finding above them.
#![tactic(auto)]

mod beside;
mod certified;
mod cover;
mod decide;
mod evaluation;
mod granted;
mod inhabited;
mod known;
mod less;
mod meaning;
mod nobody;
mod numbering;
mod order;
mod outcome;
mod own;
mod query;
mod reading;
mod region;
mod screening;
mod short;
mod standing;
mod steps;
mod summary;
mod text;
mod walk;

pub use certified::{
    closed_covers_leave_nobody_out, cover_limits, summaries_stand, summary_verdicts_are_equal,
};
pub use cover::{CoverFault, cover_query};
pub use decide::{Asked, Decide, Wide};
pub use meaning::{summaries_are_flat, summaries_are_needed, summaries_cover, visits_are_bounded};
pub use outcome::{Finding, FindingList, Summary, SummaryFault};
pub use query::finding_query;
pub use region::Region;
pub use standing::{SummaryVerdict, check_summary};
pub use summary::summarise;
pub use text::{finding_text, predicate_text, some_is_narrow, some_takes_either_case};
