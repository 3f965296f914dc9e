//! The program over a folder and a sink.
ghost use Rattle.std.specs.Prelude.{◌≡◌, IfOk};
ghost use Rattle.run_inputs.specs.Readings.{reading_of};
ghost use Rattle.compare_program.specs.Runs.{HasArguments, IsProgramEnd, NamesNoFile, arguments_of};

use crate::ending::Ended;
use crate::running::run_once;
use pol_outside::{Folder, Sink};
use std::alloc::{AllocError, Global};
use std::env::Args;
use std::io;

// The words after the program's name.
fn behind_first(alloc: Global, words: Args) -> Result<Vec<String>, AllocError>
    ensures { IfOk result (λ arguments. arguments.items ≡ arguments_of words) }
{
    let mut words = words;
    let _program = words.next();
    words.collect(alloc)
}

/// The arguments: the words that the runtime gives, without the first, which is the program's name. The
/// runtime's error where it gives none, or want of memory.
pub fn arguments_of(alloc: Global, words: io::Result<Args>) -> io::Result<Vec<String>>
    ensures { HasArguments words result }
{
    match words {
        Ok(words) => match behind_first(alloc, words) {
            Ok(arguments) => Ok(arguments),
            Err(error) => Err(io::Error::from(error)),
        },
        Err(error) => Err(error),
    }
}

/// Runs the arguments over a folder and a sink, once. The number is the exit number of the status that the run
/// ends with. Where there are no arguments it is 9, or that of want of memory, and no run is made: nothing is
/// read and nothing is written.
pub fn program_over<F: Folder, S: Sink>(
    alloc: Global,
    arguments: io::Result<Vec<String>>,
    folder: &mut F,
    sink: &mut S,
) -> Ended
    ensures ends { IsProgramEnd arguments
        (reading_of F.held F.faults F.last_fault F.asked folder.old folder.new)
        (record {
          faults_before = S.faults sink.old;
          faults = S.faults sink.new;
          before = S.written sink.old;
          now = S.written sink.new;
        })
        result }
    ensures untouched { NamesNoFile arguments → folder.new ≡ folder.old }
    ensures held { F.held folder.new ≡ F.held folder.old }
{
    match arguments {
        Ok(arguments) => Ended::after(run_once(alloc, arguments.as_slice(), folder, sink)),
        Err(error) => Ended::without(&error),
    }
}
