//! Reads the sets of policies that files of the IAM JSON policy language stand for.
#![tactic(auto)]

mod accounts;
mod conditions;
mod counts;
mod document;
mod element;
mod fault;
mod location;
mod names;
mod operands;
mod operator_names;
mod principals;
mod readings;
mod requirement;
mod set;
mod statement;
mod texts;

pub use document::MOST_DOCUMENTS;
pub use fault::{PolicyAnswer, PolicyCode, PolicyFault};
pub use readings::{accounts_are_read, operators_are_named, read_sets_are_of_forms, set_limits};
pub use set::{MOST_GUARDS, read_set};
pub use statement::MOST_STATEMENTS;
