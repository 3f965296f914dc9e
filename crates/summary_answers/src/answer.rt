//! What a summary finds.
use findings::Summary;
use policy_compile::Query;
use strata::Strata;

/// The summary of a region by dimensions, with the query and the strata that it is of.
#[derive(Drop)]
pub struct Found {
    /// Whether a request lies in the region.
    pub query: Query,
    /// The predicates of each dimension and their order.
    pub strata: Strata,
    /// The findings in the order of their numbers, each with a request of its own.
    pub summary: Summary,
}
