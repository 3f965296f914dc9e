//! Writes policies from findings: one Allow statement a finding, which allows what lies in it.
#![tactic(auto)]

mod conditions;
mod fault;
mod known_keys;
mod meaning;
mod operators;
mod part;
mod policy;
mod statement;
mod texts;

pub use fault::EmitFault;
pub use known_keys::emitted_keys_are_known;
pub use meaning::{
    emitted_policies_are_read, emitted_sets_allow_findings, emitted_sets_allow_the_set,
};
pub use policy::emit;
