//! Queries: what sets of policies ask of a request, as a tree over numbered tests.
#![tactic(auto)]

mod builder;
mod compile;
mod conditions;
mod elements;
mod limits;
mod meaning;
mod nodes;
mod outcome;
mod sets;

pub use compile::{query, set_query};
pub use limits::{
    parts_ask_no_other_tests, queries_are_within_limits, query_limits,
    same_tests_meet_limits_alike, tests_come_from_elements,
};
pub use meaning::{
    numbers_are_below, queries_compare, refuted_queries_cover, set_queries_allow,
    tests_of_queries_suit, tests_of_set_queries_suit,
};
pub use outcome::{Query, QueryFault};
