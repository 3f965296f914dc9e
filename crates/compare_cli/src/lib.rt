//! The comparer of IAM policies: from the arguments of a command line and the files that they name to
//! the bytes of an answer and a status. The commands are `compare`, `check`, `summary`, `check-summary`,
//! `reach`, `idle`, `emit`, `eval` and `load`.
#![tactic(auto)]

mod commands;
mod files;
mod top;

pub use run_inputs::{Status, exit_number};
pub use top::{USAGE, run};
