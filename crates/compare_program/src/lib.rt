//! The program that compares sets of IAM policies, as a function that each program crate calls.
#![tactic(auto)]

ghost use Rattle.compare_program.specs.Numbers.{IsEndNumber};

mod ending;
mod over;
mod running;

pub use ending::{Ended, program_numbers};
pub use over::{arguments_of, program_over};
use pol_outside::{DiskFolder, StdSink};
use std::{env, io};

/// One run over the real files and standard output, with the words that the system gives. No contract can speak
/// of what it reads and writes, since that is the system's. That the run is right is what `program_over` promises
/// of every folder and sink.
pub fn program(rt: HostRuntime) -> Ended
    ensures { IsEndNumber result.number }
{
    let mut folder = DiskFolder::new(&rt);
    let mut sink = StdSink::new(io::writer(&rt));
    let arguments = arguments_of(rt.alloc(), env::args(&rt));
    program_over(rt.alloc(), arguments, &mut folder, &mut sink)
}
