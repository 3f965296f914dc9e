//! What a product answers.
use crate::states::Closed;
use wildcard_lang::{Text, TextList};

/// What a product finds.
#[derive(Drop)]
pub enum Product {
    /// A text that meets the clauses.
    Found(Text),
    /// A closed set, so no text meets them.
    Empty(Closed),
    /// One more text than the limit, no two with the same product state.
    TooMany(TextList),
}
