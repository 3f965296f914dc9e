//! What is printed of a set and a request: whether the set allows it, and the statement or the lack of one
//! that decides.
#![tactic(auto)]

mod answer;
mod evaluation;
mod text;

pub use answer::{Denial, Evaluation};
pub use evaluation::print_evaluation;
