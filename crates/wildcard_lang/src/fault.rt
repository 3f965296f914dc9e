//! Why a text is no pattern.

use std::alloc::AllocError;

/// Why a reader gave no pattern. Where several causes stand together, the first in this order comes.
#[derive(Clone, Copy)]
pub enum PatternFault {
    /// A `${` that begins none of the escapes `${*}`, `${?}` and `${$}` stands in the text.
    PolicyVariable,
    /// The pattern of an ARN has fewer than five plain colons.
    ArnParts,
    /// There are more than 2,048 pieces.
    TooLong,
    /// There was no memory.
    NoMemory,
}

impl From<AllocError> for PatternFault {
    ghost use Rattle.std.specs.Prelude.{◌≡◌};
    ghost use Rattle.wildcard_lang.specs.declared.fault.PatternFault.TheVariants.{NoMemory};

    ghost from_gives = { λ _ e. e ≡ NoMemory };

    fn from(_: AllocError) -> Self {
        PatternFault::NoMemory
    }
}
