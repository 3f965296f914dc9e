//! What a set that was read from a file makes of the predicates that its tests name. Their forms are distinguished,
//! and read again, by their texts. A set whose conditions stand for such predicates asks no key for more than the set
//! does. It has laws alone.
#![tactic(auto)]

mod forms;
mod keys;

pub use forms::{
    findings_are_written_apart, predicates_are_of_written_forms, predicates_are_written_apart,
};
pub use keys::known_keys_keep_schemas;
