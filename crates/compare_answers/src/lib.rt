//! What is printed of a pair of sets: whether the second allows each request that the first allows, with a
//! request or a certificate that shows it, and whether a certificate does.
#![tactic(auto)]

mod answer;
mod certificates;
mod decision;
mod printing;
mod reduction;
mod staged;
mod text;

pub use answer::{CheckAnswer, ComparisonAnswer};
pub use certificates::{checks_agree, printed_proofs_are_accepted};
pub use decision::few_tests_are_decided;
pub use printing::{print_check, print_comparison, print_pair};
