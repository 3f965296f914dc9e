//! Why files aren't read.
ghost use Rattle.std.specs.Prelude.{◌≡◌};
ghost use Rattle.json_shapes.specs.declared.read_error.ReadError.TheVariants.{NoMemory};

use std::alloc::AllocError;

/// What stands instead of what a file, or a part of one, stands for.
#[derive(Drop)]
pub enum ReadError<F> {
    /// The first fault of the file, or of the part.
    Refused(F),
    NoMemory,
}

impl<F> From<AllocError> for ReadError<F> {
    ghost from_gives = { λ _ e. e ≡ NoMemory };

    fn from(_: AllocError) -> Self {
        ReadError::NoMemory
    }
}
