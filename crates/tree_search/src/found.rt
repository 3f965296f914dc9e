//! What is found from a node of a search on.
use crate::outcome::Wide;
use policy_model::Request;
use search_parts::Part;

/// What is found from a node on.
#[derive(Drop)]
pub(crate) enum Found {
    /// A part of a refutation that closes under the node's path.
    Refuted(Part),
    /// A valid request that makes the query yes.
    Met(Request),
    /// The plain run needs more splits, and so does the propagated run.
    OutOfSplits,
    /// A slot needs more states.
    OutOfStates(Wide),
}
