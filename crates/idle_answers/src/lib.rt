//! What is printed of the statements of a set: of each whether the set needs it, with a request or a certificate
//! that shows it.
#![tactic(auto)]

mod answer;
mod certificates;
mod deciding;
mod printing;
mod settling;
mod text;

pub use answer::UseAnswer;
pub use certificates::idle_proofs_are_accepted;
pub use printing::print_idle;
