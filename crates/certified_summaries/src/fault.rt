//! Why the lines before the certificate of a summary aren't read.
ghost use Rattle.std.specs.Prelude.{◌≡◌};
ghost use Rattle.certified_summaries.specs.Heads.{head_fault_at};
ghost use Rattle.certified_summaries.specs.declared.fault.HeadAnswer.TheVariants.{NoMemory, Refused};

use std::alloc::AllocError;

/// What is wrong with a line before the certificate of a summary.
#[derive(Clone, Copy)]
pub enum HeadCode {
    /// The first line doesn't say how many findings there are, up to 1,000,000, or a line of a finding is
    /// missing.
    C5Count,
    /// The line isn't the text of a finding.
    C6Finding,
    /// The line isn't that of a request.
    C7Request,
}

/// The first line that isn't as it must be, counted from the file's first, from 1. The number of a line that
/// is missing is the one after the last.
#[derive(Clone, Copy)]
pub struct HeadFault {
    pub code: HeadCode,
    pub line: u32,
}

/// What stands instead of what lines say.
#[derive(Clone, Copy)]
pub(crate) enum HeadAnswer {
    /// The first line that fails.
    Refused(HeadFault),
    NoMemory,
}

impl From<AllocError> for HeadAnswer {
    ghost from_gives = { λ _ e. e ≡ NoMemory };

    fn from(_: AllocError) -> Self {
        HeadAnswer::NoMemory
    }
}

/// The fault of this code at a line.
pub(crate) fn fault_at(line: u32, code: HeadCode) -> HeadAnswer
    ensures { result ≡ Refused (head_fault_at line code) }
{
    HeadAnswer::Refused(HeadFault { code, line })
}
