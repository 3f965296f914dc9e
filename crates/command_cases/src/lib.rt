//! Runs the comparer as cases say, and prints how each run ends and what it wrote.
//!
//! A case is the lines up to an empty one: its name, and then lines that begin with a word. Folders and sinks
//! are in memory, but of `real ARGUMENTS`, which runs over real files and standard output: these are the
//! examples of README.
//!
//! `first TEXT`, `second TEXT`, `schema TEXT` and `proof TEXT` are the files of these names, in which
//! `⟦N|TEXT⟧` stands for N times TEXT, and in `proof` then `/` for a line feed; a file without a line isn't
//! there. `take N` and `put N` make the folder's or the sink's call of that number fail, `room N` and
//! `most N` are the bytes that the sink has room for and takes at a call. Then `$ ARGUMENTS` is a run, its
//! arguments one space apart. `faults,take N,most N $ ARGUMENTS` is a run with faults of its own, and
//! `again,take N $ ARGUMENTS` two runs over one folder, the second into a sink that never fails. `set TEXT`
//! compares the text with that of each line `set` of the case, under its schema where it has one, over a
//! folder and a sink that never fail, and prints the exit numbers. `file TEXT` compares a file with itself,
//! and prints the first fault of a faulty file, and of any other that it isn't more permissive.
//!
//! A command with its files has a tab behind it and between them: `check FIRST SECOND PROOF` and `eval SET
//! REQUEST`, and behind them a schema's file or none. In a certificate `/` stands for a line feed. The exit
//! number is printed, and what the run wrote. `printed FIRST SECOND` compares two sets, and checks what that
//! printed with its certificate: both exit numbers are printed, and the answer of the check. `splits N` and
//! `labels N` check certificates that nest deep.
//!
//! `damaged PROOF FIRST SECOND` damages a certificate; the word `printed` stands for the one that `compare
//! --proof` prints of the sets. The certificate is printed and its answer, and behind the name of each kind of
//! damage the answers to all certificates that it makes: each line left out, doubled, swapped with the
//! next, each number of each line one more, and one less where it isn't 0. These answers are printed without
//! the words `bad proof` and `line`.
#![tactic(auto)]

mod commands;
mod damage;
mod damages;
mod deep;
mod memory;
mod real;
mod rows;

use commands::print_command;
use real::print_real;
use rows::{print_faulty, print_file, print_row, print_words};
use std::io;
use std::io::Write;

fn print_line(rt: &HostRuntime, out: &mut impl Write, case: &str, line: &str) -> io::Result<()> {
    let alloc = rt.alloc();
    if line.starts_with('$') {
        writeln!(out, "{line}")?;
        return print_words(alloc, out, case, line);
    }
    if line.starts_with("faults,") || line.starts_with("again,") {
        writeln!(out, "{line}")?;
        return print_faulty(alloc, out, case, line);
    }
    if let Some(first) = line.strip_prefix("set ") {
        return print_row(alloc, out, case, first);
    }
    if let Some(file) = line.strip_prefix("file ") {
        return print_file(alloc, out, file);
    }
    if let Some(words) = line.strip_prefix("real ") {
        return print_real(rt, out, words);
    }
    match line.split_once('\t') {
        Some((command, files)) => print_command(alloc, out, command, files),
        None => Ok(()),
    }
}

/// Prints the name of a case, and what its other lines ask for.
fn print_case(rt: &HostRuntime, out: &mut impl Write, case: &str) -> io::Result<()> {
    let Some(name) = case.lines().next() else {
        return Ok(());
    };
    writeln!(out, "{name}")?;
    for line in case.lines().skip(1) {
        print_line(rt, out, case, line)?;
    }
    Ok(())
}

/// Prints how the runs of each case of a text end, and what they write.
pub fn print_runs(rt: &HostRuntime, out: &mut impl Write, text: &str) -> io::Result<()> {
    for case in text.split("\n\n") {
        print_case(rt, out, case)?;
    }
    Ok(())
}
