//! Runs over real files and standard output.
use crate::memory::{arguments_of, number_of_run};
use pol_outside::{DiskFolder, StdSink};
use std::io;
use std::io::Write;

fn real_number(rt: &HostRuntime, arguments: &[String]) -> u8 {
    let mut folder = DiskFolder::new(rt);
    let mut sink = StdSink::new(io::writer(rt));
    number_of_run(rt.alloc(), arguments, &mut folder, &mut sink)
}

/// Prints the words as arguments of the program, then the answer of their run over real files, then its
/// exit number.
pub(crate) fn print_real(rt: &HostRuntime, out: &mut impl Write, words: &str) -> io::Result<()> {
    writeln!(out, "$ compare_main {words}")?;
    let arguments = arguments_of(rt.alloc(), words)?;
    let number = real_number(rt, arguments.as_slice());
    writeln!(out, "exit {number}")
}
