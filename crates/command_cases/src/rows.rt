//! Runs over the files and faults of a case, and comparisons of its sets.
ghost use Rattle.std.specs.Prelude.{◌<◌, IfOk};

use crate::memory::{arguments_of, lines_of, number_of_run, unpacked, written_by_words};
use line_expansion::expand;
use pol_outside::{MemoryFolder, MemorySink, SafeFolder, SafeSink};
use std::alloc::Global;
use std::io;
use std::io::{ErrorKind, Write};

/// Room for the answer of a run, where its case names none.
const ROOM: u64 = 4096;

/// What stands behind the word at the front of a line of a case, or of faults, below its first line.
fn behind<'a>(case: &'a str, word: &str) -> Option<&'a str> {
    for line in case.lines().skip(1) {
        if let Some(rest) = line.strip_prefix(word) {
            return Some(rest);
        }
    }
    None
}

fn number_behind(case: &str, word: &str, default: u64) -> io::Result<u64> {
    match behind(case, word) {
        Some(text) => match text.parse::<u64>() {
            Ok(number) => Ok(number),
            Err(_) => Err(ErrorKind::InvalidData.into()),
        },
        None => Ok(default),
    }
}

/// The most bytes that a sink takes at a call: at least one.
fn most_of(faults: &str) -> io::Result<usize>
    ensures { IfOk result (λ n. 0 < n) }
{
    match number_behind(faults, "most ", ROOM)? {
        0 => Err(ErrorKind::InvalidData.into()),
        most => Ok(most as usize),
    }
}

// Puts a file into the folder, with its text expanded.
fn hold(alloc: Global, folder: &mut MemoryFolder, name: &str, text: &str) -> io::Result<()> {
    let file = expand(alloc, text)?;
    folder.hold(name, file.as_bytes())?;
    Ok(())
}

// Puts a certificate into the folder. Its text is expanded first; then `/` stands for a line feed.
fn hold_proof(alloc: Global, folder: &mut MemoryFolder, text: &str) -> io::Result<()> {
    let packed = expand(alloc, text)?;
    folder.hold("proof", unpacked(alloc, packed.as_str())?.as_bytes())?;
    Ok(())
}

// Puts the files of a case into the folder.
fn hold_files(alloc: Global, folder: &mut MemoryFolder, case: &str) -> io::Result<()> {
    for name in ["first", "second", "schema"] {
        if let Some(text) = behind(case, name) {
            hold(alloc, folder, name, text.trim_start())?;
        }
    }
    match behind(case, "proof ") {
        Some(text) => hold_proof(alloc, folder, text),
        None => Ok(()),
    }
}

// Puts the files of a case into the folder, and makes its call of the faults' number fail.
fn fill(alloc: Global, folder: &mut MemoryFolder, case: &str, faults: &str) -> io::Result<()> {
    hold_files(alloc, folder, case)?;
    folder.fail_at(number_behind(faults, "take ", 0)?)?;
    Ok(())
}

fn sink_of(alloc: Global, faults: &str) -> io::Result<MemorySink> {
    let room = number_behind(faults, "room ", ROOM)? as usize;
    let most = most_of(faults)?;
    let call = number_behind(faults, "put ", 0)?;
    let mut sink = MemorySink::new(alloc, room, most)?;
    sink.fail_at(call)?;
    Ok(sink)
}

fn print_end(out: &mut impl Write, number: u8, written: &[u8]) -> io::Result<()> {
    writeln!(out, "exit {number}")?;
    out.write_all(written)?;
    out.write_all(b"\n")
}

// Prints the end of a run over the folder, into a sink that fails as the faults say.
fn print_over(
    alloc: Global,
    out: &mut impl Write,
    folder: &mut MemoryFolder,
    faults: &str,
    arguments: &[String],
) -> io::Result<()> {
    let mut sink = sink_of(alloc, faults)?;
    let number = number_of_run(alloc, arguments, folder, &mut sink);
    print_end(out, number, sink.written())
}

/// Prints the exit number of a run in memory, and what it wrote.
fn print_run(
    alloc: Global,
    out: &mut impl Write,
    case: &str,
    arguments: &[String],
) -> io::Result<()> {
    let mut folder = MemoryFolder::new(alloc);
    fill(alloc, &mut folder, case, case)?;
    print_over(alloc, out, &mut folder, case, arguments)
}

// Prints the end of a run over the folder, which gets the files of a case, with faults of its own; and
// behind the word `again` that of a second run, over this folder again and a sink that never fails.
fn print_faulty_over(
    alloc: Global,
    out: &mut impl Write,
    folder: &mut MemoryFolder,
    case: &str,
    faults: &str,
    words: &str,
) -> io::Result<()> {
    fill(alloc, folder, case, faults)?;
    let arguments = arguments_of(alloc, words)?;
    print_over(alloc, out, folder, faults, arguments.as_slice())?;
    if faults.starts_with("again") {
        print_over(alloc, out, folder, "", arguments.as_slice())?;
    }
    Ok(())
}

/// Prints the exit numbers of the runs of a line that has faults of its own, and what they wrote.
pub(crate) fn print_faulty(
    alloc: Global,
    out: &mut impl Write,
    case: &str,
    line: &str,
) -> io::Result<()> {
    let Some((faults, words)) = line.split_once(" $ ") else {
        return Err(ErrorKind::InvalidData.into());
    };
    let faults = lines_of(alloc, faults, ',')?;
    print_faulty_over(
        alloc,
        out,
        &mut MemoryFolder::new(alloc),
        case,
        faults.as_str(),
        words,
    )
}

/// Prints the exit number of the run in memory of a line's words behind its first, and what it wrote.
pub(crate) fn print_words(
    alloc: Global,
    out: &mut impl Write,
    case: &str,
    line: &str,
) -> io::Result<()> {
    let words = arguments_of(alloc, line)?;
    match words.as_slice().split_first() {
        Some((_, arguments)) => print_run(alloc, out, case, arguments),
        None => Ok(()),
    }
}

fn words_of_sets(schema: bool) -> &'static str {
    if schema {
        "compare first second --schema schema"
    } else {
        "compare first second"
    }
}

// Prints the exit number of the folder's first file against a set.
fn print_number(
    alloc: Global,
    out: &mut impl Write,
    folder: &mut SafeFolder,
    second: &str,
    arguments: &[String],
) -> io::Result<()> {
    folder.hold("second", second.as_bytes())?;
    let number = number_of_run(alloc, arguments, folder, &mut SafeSink::new());
    write!(out, "{number}")
}

// Prints the exit number of the folder's first file against each set of a case.
fn print_numbers(
    alloc: Global,
    out: &mut impl Write,
    folder: &mut SafeFolder,
    case: &str,
    arguments: &[String],
) -> io::Result<()> {
    for line in case.lines() {
        if let Some(second) = line.strip_prefix("set ") {
            print_number(alloc, out, folder, second, arguments)?;
        }
    }
    out.write_all(b"\n")
}

// Prints the exit number of a file against each set of a case, over the folder, under the case's schema
// where it has one.
fn print_first(
    alloc: Global,
    out: &mut impl Write,
    folder: &mut SafeFolder,
    case: &str,
    first: &str,
) -> io::Result<()> {
    folder.hold("first", first.as_bytes())?;
    let schema = behind(case, "schema ");
    folder.hold("schema", schema.unwrap_or("").as_bytes())?;
    let arguments = arguments_of(alloc, words_of_sets(schema.is_some()))?;
    print_numbers(alloc, out, folder, case, arguments.as_slice())
}

/// Prints the exit numbers of a file against each set of a case.
pub(crate) fn print_row(
    alloc: Global,
    out: &mut impl Write,
    case: &str,
    first: &str,
) -> io::Result<()> {
    print_first(alloc, out, &mut SafeFolder::new(alloc), case, first)
}

fn print_held(
    alloc: Global,
    out: &mut impl Write,
    folder: &mut MemoryFolder,
    line: &str,
) -> io::Result<()> {
    hold(alloc, folder, "file", line)?;
    let written = written_by_words(alloc, folder, "compare file file")?;
    out.write_all(written.as_bytes())
}

/// Prints what the comparison of a file with itself writes.
pub(crate) fn print_file(alloc: Global, out: &mut impl Write, line: &str) -> io::Result<()> {
    print_held(alloc, out, &mut MemoryFolder::new(alloc), line)
}
