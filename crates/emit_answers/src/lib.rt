//! What is printed of a set by dimensions as a policy: the document of its findings, which allows the requests
//! that lie in them.
#![tactic(auto)]

mod printing;
mod writing;

pub use printing::print_emit;
