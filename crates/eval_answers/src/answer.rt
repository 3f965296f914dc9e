//! The answers to an evaluation of a request.
use policy_model::StatementName;

/// Why a set doesn't allow a request.
#[derive(Clone, Copy)]
pub enum Denial {
    /// The first Deny statement that applies.
    ByStatement(StatementName),
    /// No Allow statement applies, in a set without guards.
    NoStatement,
    /// No Allow statement of the grants applies, in a set with guards.
    NoGrant,
    /// The guard of this number, counted from 1, is the first without an Allow statement that applies.
    NoGuard(u32),
}

/// Whether a set allows a request, and what decides.
#[derive(Clone, Copy)]
pub enum Evaluation {
    /// The set allows the request: the first Allow statement of the grants that applies.
    Allowed(StatementName),
    /// The set doesn't allow the request.
    Denied(Denial),
}
