//! The condition keys that requests may have: those that every schema has, those of schema files,
//! and those that sets of policies use besides.
#![tactic(auto)]

mod file;
mod found;
mod global_keys;
mod head;
mod infer_fault;
mod inference;
mod key_use;
mod requirement;
mod rules;
mod run_rules;
mod schema_fault;
mod value_text;
mod words;

pub use file::read_schema;
pub use global_keys::built_in;
pub use infer_fault::{InferAnswer, InferFault};
pub use inference::infer;
pub use rules::{MOST_VALUES, schema_limits};
pub use run_rules::keys_have_their_rules;
pub use schema_fault::{SchemaAnswer, SchemaCode, SchemaFault};
pub use value_text::value_written;
