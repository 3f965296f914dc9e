//! The limits of a summary, and what it comes to.
use findings::{Finding, Summary, Wide};
use policy_model::Slot;
use strata::Strata;
use wildcard_lang::TextList;

/// How much may be done for a summary.
#[derive(Clone, Copy)]
pub struct Limits {
    /// The most splits on a test, for the query of each finding.
    pub splits: u32,
    /// The most predicates that are named of a dimension, `Every` among them.
    pub predicates: u32,
    /// The most product states of a slot's patterns.
    pub states: u32,
    /// The most findings that are looked at.
    pub findings: u32,
}

/// What a summary comes to.
#[derive(Drop)]
pub enum Outcome {
    /// The summary, with the strata that its numbers are of.
    Found(Strata, Summary),
    /// In the dimension of this index, the first such one, more predicates are named.
    TooManyPredicates(u32),
    /// Two predicates of the slot take more states: one more text than there may be states, no two of
    /// which have the same product state of the patterns of these two.
    Wide(Slot, TextList),
    /// More findings must be looked at.
    OutOfFindings,
    /// The query of this finding, which must be looked at, needs more splits.
    OutOfSplits(Strata, Finding),
    /// It needs more states.
    OutOfStates(Strata, Finding, Wide),
}
