//! Findings, summaries, and why there is none.
use crate::decide::Wide;
use plain_lists::List;
use policy_model::Request;
use std::alloc::AllocError;

/// For each dimension the number of one of its predicates, in the order of the dimensions.
pub type Finding = List<u32>;

/// A list of findings.
pub type FindingList = List<Finding>;

/// Findings in the order of their numbers. Beside each stands a request that is its own: one that no
/// finer finding has.
pub type Summary = List<(Finding, Request)>;

/// Why there is no summary.
#[derive(Drop)]
pub enum SummaryFault {
    /// More findings must be looked at than may be.
    OutOfFindings,
    /// The query of this finding, which must be looked at, needs more splits.
    OutOfSplits(Finding),
    /// The query of this finding, which must be looked at, needs more states.
    OutOfStates(Finding, Wide),
    /// There was no memory.
    NoMemory,
}

impl From<AllocError> for SummaryFault {
    ghost use Rattle.std.specs.Prelude.{◌≡◌};
    ghost use Rattle.findings.specs.declared.outcome.SummaryFault.TheVariants.{NoMemory};

    ghost from_gives = { λ _ e. e ≡ NoMemory };

    fn from(_: AllocError) -> Self {
        SummaryFault::NoMemory
    }
}
