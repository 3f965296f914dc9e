//! What a search finds.
use policy_model::Request;

/// What a search finds.
#[derive(Drop)]
pub enum Outcome {
    /// No valid request makes the query yes.
    Refuted,
    /// A valid request that makes the query yes.
    Met(Request),
    /// Neither was found within the limits.
    Open,
}
