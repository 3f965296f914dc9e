//! Why a certificate isn't read.
ghost use Rattle.std.specs.Prelude.{◌≡◌};
ghost use Rattle.proof_text.specs.declared.fault.ProofAnswer.TheVariants.{NoMemory};

use std::alloc::AllocError;

/// What is wrong with a line of a certificate.
#[derive(Clone, Copy, Debug)]
pub enum ProofCode {
    /// The line isn't of a form that may stand there, it is missing, or it stands behind the end.
    C1Syntax,
    /// The certificate is of another format than is asked for.
    C2Version,
    /// A number of a test that isn't less than the number of tests.
    C3TestNumber,
    /// A number above 4,294,967,295, or a split or label below 2,000 others.
    C4Limit,
}

/// The first line that isn't as it must be, counted from the file's first, from 1. The number of a
/// line that is missing is the one after the last.
#[derive(Clone, Copy)]
pub struct ProofFault {
    pub code: ProofCode,
    pub line: u32,
}

/// What stands instead of a refutation.
#[derive(Clone, Copy)]
pub enum ProofAnswer {
    /// The file's first fault.
    Refused(ProofFault),
    NoMemory,
}

impl From<AllocError> for ProofAnswer {
    ghost from_gives = { λ _ e. e ≡ NoMemory };

    fn from(_: AllocError) -> Self {
        ProofAnswer::NoMemory
    }
}

/// What stands instead of what a line says.
#[derive(Clone, Copy)]
pub(crate) enum LineAnswer {
    /// The first check that the line fails.
    Fails(ProofCode),
    NoMemory,
}

impl From<AllocError> for LineAnswer {
    ghost use Rattle.proof_text.specs.declared.fault.LineAnswer.TheVariants.{NoMemory as NoLineMemory};

    ghost from_gives = { λ _ e. e ≡ NoLineMemory };

    fn from(_: AllocError) -> Self {
        LineAnswer::NoMemory
    }
}
