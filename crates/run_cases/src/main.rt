//! Prints what the libraries of tests answer to the parts of standard input. A part begins with a line `== WORD`,
//! which is printed too: `calls`, `readings`, `conditions` and `runs` are lines of the crates `call_cases`,
//! `reading_cases`, `condition_cases` and `command_cases`.
//!
//! At its end it is the program, by its own words. In the file `args` these have a byte that no UTF-8 has, so it ends with
//! 9, and writes nothing more.
#![tactic(auto)]

use call_cases::print_calls;
use command_cases::print_runs;
use compare_program::{Ended, program};
use condition_cases::print_conditions;
use reading_cases::print_readings;
use std::io;
use std::io::{ErrorKind, Write};

/// Prints the word of a part, and what its library answers to the lines behind it.
fn print_part(rt: &HostRuntime, out: &mut impl Write, part: &str) -> io::Result<()> {
    let (word, text) = part.split_once('\n').unwrap_or((part, ""));
    writeln!(out, "== {word}")?;
    match word {
        "calls" => print_calls(rt, out, text),
        "readings" => print_readings(rt.alloc(), out, text),
        "conditions" => print_conditions(rt.alloc(), out, text),
        "runs" => print_runs(rt, out, text),
        _ => Err(ErrorKind::InvalidData.into()),
    }
}

fn print_parts(rt: &HostRuntime, input: &str) -> io::Result<()> {
    let mut out = io::writer(rt);
    for part in input.strip_prefix("== ").unwrap_or(input).split("\n== ") {
        print_part(rt, &mut out, part)?;
    }
    Ok(())
}

fn print_input(rt: &HostRuntime) -> io::Result<()> {
    let input = io::read_to_string(rt.alloc(), rt.reader())?;
    print_parts(rt, input.as_str())
}

fn main(rt: HostRuntime) -> Ended {
    if let Err(error) = print_input(&rt) {
        let _ = eprintln!(rt; "{error}");
    }
    program(rt)
}
