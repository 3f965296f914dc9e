//! What a search is asked.
use policy_compile::Query;
use policy_model::Schema;
use std::alloc::Global;

/// What a search is asked.
#[derive(Drop)]
pub struct Asked<'a> {
    pub alloc: Global,
    pub schema: &'a Schema,
    pub query: &'a Query,
    /// The most product states of a slot's patterns.
    pub states: u32,
}
