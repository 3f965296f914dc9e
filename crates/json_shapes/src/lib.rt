//! Looks into JSON values: their shapes, their members, and the names of objects. Readers of files in
//! forms of their own stand on it.
#![tactic(auto)]

mod compact;
mod elements;
mod names;
mod objects;
mod read;
mod read_error;
mod shapes;

pub use compact::compact_texts_are_read_again;
pub use elements::{are_strings, list_under, members, text_of, values_in};
pub use names::is_among;
pub use objects::{has_strings, is_object_of};
pub use read::read_json;
pub use read_error::ReadError;
pub use shapes::{
    has, is_absent_or_string, is_list, is_list_at, is_object, is_object_or_list, is_text_at,
};
