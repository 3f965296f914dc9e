//! What is printed to the question what a change of two sets newly allows, and to a check of a certified answer to it,
//! whoever wrote it: the findings of what the first set allows and the second doesn't.
#![tactic(auto)]

mod check;
mod printing;

pub use check::print_new_access_check;
pub use printing::print_new_access;
