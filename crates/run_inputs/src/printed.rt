//! What a run prints.
ghost use Rattle.std.specs.Prelude.{◌≡◌};
ghost use Rattle.run_inputs.specs.Printing.{IsPrintedOf};
ghost use Rattle.run_inputs.specs.declared.printed.EarlyEnd.TheVariants.{NoMemory};

use crate::status::Status;
use std::alloc::AllocError;

/// What is printed, and how the run ends where that is written whole.
#[derive(Drop)]
pub struct Printed {
    pub text: String,
    pub status: Status,
}

/// Why a command ends before it has an answer of its own. The texts of faults take memory, so that they
/// are made where the faults are met, and not by a conversion.
#[derive(Drop)]
pub enum EarlyEnd {
    /// This is printed, and nothing else.
    Answered(Printed),
    /// There was no memory.
    NoMemory,
}

impl From<AllocError> for EarlyEnd {
    ghost from_gives = { λ _ e. e ≡ NoMemory };

    fn from(_: AllocError) -> Self {
        EarlyEnd::NoMemory
    }
}

/// What is printed, at the end of a command or before; `Err` only for want of memory.
pub fn printed_of(ended: Result<Printed, EarlyEnd>) -> Result<Printed, AllocError>
    ensures { IsPrintedOf ended result }
{
    match ended {
        Ok(printed) => Ok(printed),
        Err(EarlyEnd::Answered(printed)) => Ok(printed),
        Err(EarlyEnd::NoMemory) => Err(AllocError),
    }
}
