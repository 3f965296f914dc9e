//! Why no policy is written.
use std::alloc::AllocError;

/// Why no policy is written.
#[derive(Drop)]
pub enum EmitFault {
    /// There are more findings than a set may have statements, which are 2,000.
    TooManyStatements,
    /// There was no memory.
    NoMemory,
}

impl From<AllocError> for EmitFault {
    ghost use Rattle.std.specs.Prelude.{◌≡◌};
    ghost use Rattle.policy_emit.specs.declared.fault.EmitFault.TheVariants.{NoMemory};

    ghost from_gives = { λ _ e. e ≡ NoMemory };

    fn from(_: AllocError) -> Self {
        EmitFault::NoMemory
    }
}
