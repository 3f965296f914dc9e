//! Texts as JSON.
use serde_json::Value;
use std::alloc::{AllocError, Global};
use wildcard_lang::Text;

/// The text as JSON.
pub(crate) fn quoted(alloc: Global, text: &Text) -> Result<String, AllocError> {
    let text = Value::String(text.to_utf8()?);
    text.to_string(alloc)
}
