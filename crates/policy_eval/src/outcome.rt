//! What decides on a request.
use policy_model::StatementName;

/// What decides on a request under a set of policies.
#[derive(Clone, Copy)]
pub enum Decider {
    /// The first Deny statement that applies, or where the set allows the request the first Allow
    /// statement of the grants that applies.
    Statement(StatementName),
    /// No Allow statement of the grants applies.
    NoGrant,
    /// The guard of this number, counted from 1, is the first that has no Allow statement that applies.
    NoGuard(u32),
}
