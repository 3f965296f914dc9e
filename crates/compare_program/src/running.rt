//! One run of the arguments, and the token that it was made.
ghost use Rattle.std.specs.Prelude.{◌≡◌};
ghost use Rattle.command_words.specs.Asked.{asked_by};
ghost use Rattle.run_inputs.specs.Readings.{reading_of};
ghost use Rattle.run_inputs.specs.Statuses.{exit_number};
ghost use Rattle.compare_cli.specs.Commands.{NameNoFile};
ghost use Rattle.compare_program.specs.Runs.{KeepsPromises};

use compare_cli::{Status, exit_number, run};
use pol_outside::{Folder, Sink};
use std::alloc::Global;
use std::marker::Model;

/// That a run was made, seen as the status that it ended with. `run_once` alone makes one, and it can't be
/// dropped.
pub(crate) struct Ran {
    status: Status,
}

impl Model for Ran {
    ghost use Rattle.run_inputs.specs.declared.status.Status.{Status};

    ghost Value = { Status };

    ghost view = { λ ran. ran.status };
}

impl Ran {
    /// The exit number of its status.
    pub(crate) fn number(self) -> u8
        ensures { result ≡ exit_number self }
    {
        let Ran { status } = self;
        exit_number(status)
    }
}

/// Runs the arguments over a folder and a sink.
pub(crate) fn run_once<F: Folder, S: Sink>(
    alloc: Global,
    arguments: &[String],
    folder: &mut F,
    sink: &mut S,
) -> Ran
    ensures run { KeepsPromises arguments.now
        (reading_of F.held F.faults F.last_fault F.asked folder.old folder.new)
        (record {
          faults_before = S.faults sink.old;
          faults = S.faults sink.new;
          before = S.written sink.old;
          now = S.written sink.new;
        })
        result }
    ensures untouched { NameNoFile (asked_by arguments.now) → folder.new ≡ folder.old }
    ensures held { F.held folder.new ≡ F.held folder.old }
{
    Ran {
        status: run(alloc, arguments, folder, sink),
    }
}
