//! A query decided by two searches in turn, without a certificate.
#![tactic(auto)]

mod stages;
mod verdict;

pub use stages::{FEW_SPLITS, decide_in_stages};
pub use verdict::Verdict;
