//! How a run ends.
ghost use Rattle.std.specs.Prelude.{◌≡◌};
ghost use Rattle.run_inputs.specs.Statuses.{exit_number};

/// How a run ends.
#[derive(Clone, Copy)]
pub enum Status {
    /// The answer is yes: `not more permissive`, `accepted` or `allowed`; no statement is idle; nobody
    /// outside a zone is allowed anything; or it is a summary, a policy, or the lines of a load.
    Holds,
    /// The answer is no: `more permissive` or `denied`; a statement is idle; or there are findings outside a
    /// zone.
    Fails,
    /// A file was refused, or a dimension, or sets that are past a limit or that no schema can answer.
    Refused,
    /// A budget ran out.
    Undecided,
    /// The arguments are of no command's form.
    Usage,
    /// A file couldn't be read.
    ReadFault,
    /// The answer couldn't be written whole.
    WriteFault,
    /// There was no memory. Nothing was written.
    NoMemory,
    /// A certificate doesn't hold, or a certified summary doesn't.
    BadProof,
}

/// The program's exit number for a status.
pub fn exit_number(status: Status) -> u8
    ensures { result ≡ exit_number status }
{
    match status {
        Status::Holds => 0,
        Status::Fails => 1,
        Status::Refused => 2,
        Status::Undecided => 3,
        Status::Usage => 4,
        Status::ReadFault => 5,
        Status::WriteFault => 6,
        Status::NoMemory => 7,
        Status::BadProof => 8,
    }
}
