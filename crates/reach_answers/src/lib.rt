//! What is printed to the question who is allowed anything from outside a trust zone: the findings of the set
//! that denies everything to requests from inside.
#![tactic(auto)]

mod outside_zone;
mod printing;
mod zone_file;

pub use printing::print_reach;
