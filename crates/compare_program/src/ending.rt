//! How the program ends: by a run, or without one.
ghost use Rattle.std.specs.Prelude.{◌≡◌, ℕ, true, false};
ghost use Rattle.std.specs.Process.{exit_status};
ghost use Rattle.run_inputs.specs.Statuses.{exit_number};
ghost use Rattle.compare_program.specs.Numbers.{EndNumbers, IsRefusedNumber};

use crate::running::Ran;
use compare_cli::{Status, exit_number};
use std::io;
use std::io::Eprint;
use std::marker::Model;
use std::process::{ExitCode, Termination};

/// The exit number where the runtime refuses the arguments. No status has it.
pub(crate) const NO_ARGUMENTS: u8 = 9;

/// How the program ended: its exit number, and whether a run was made. It can't be dropped: who has it
/// must end with it.
pub struct Ended {
    number: u8,
    is_of_run: bool,
}

impl Model for Ended {
    ghost use Rattle.compare_program.specs.Numbers.{End};

    ghost Value = { End };

    ghost view = { λ ended. record { number = ended.number; is_of_run = ended.is_of_run } };
}

impl Ended {
    /// The end by a run.
    pub(crate) fn after(ran: Ran) -> Ended
        ensures { result ≡ record { number = exit_number ran; is_of_run = true } }
    {
        Ended {
            number: ran.number(),
            is_of_run: true,
        }
    }

    /// The end where there are no arguments.
    pub(crate) fn without(error: &io::Error) -> Ended
        ensures number { IsRefusedNumber error.now result.number }
        ensures no_run { result.is_of_run ≡ false }
    {
        Ended {
            number: refused_number(error),
            is_of_run: false,
        }
    }
}

impl Termination for Ended {
    fn report<R: Eprint>(self, _rt: &R) -> ExitCode
        ensures { exit_status result ≡ self.number }
    {
        let Ended {
            number,
            is_of_run: _,
        } = self;
        ExitCode::from(number)
    }
}

/// The exit number of refused arguments, as a number.
pub fn program_numbers()
    ensures { EndNumbers }
{}

// The exit number where there are no arguments.
fn refused_number(error: &io::Error) -> u8
    ensures { IsRefusedNumber error.now result }
{
    if error.kind() == io::ErrorKind::OutOfMemory {
        exit_number(Status::NoMemory)
    } else {
        NO_ARGUMENTS
    }
}
