//! Runs over folders and sinks in memory.
use compare_cli::{exit_number, run};
use pol_outside::{Folder, MemoryFolder, MemorySink, Sink};
use std::alloc::Global;
use std::io::{ErrorKind, Write};
use std::{io, str};

/// Room for every answer.
const ROOM: usize = 65_536;

/// The words of a text, one space apart.
pub(crate) fn arguments_of(alloc: Global, words: &str) -> io::Result<Vec<String>> {
    let mut arguments = Vec::new(alloc);
    for word in words.split(' ') {
        arguments.push(String::from_str(alloc, word)?)?;
    }
    Ok(arguments)
}

fn text_of(alloc: Global, bytes: &[u8]) -> io::Result<String> {
    match str::from_utf8(bytes) {
        Ok(text) => Ok(String::from_str(alloc, text)?),
        Err(_) => Err(ErrorKind::InvalidData.into()),
    }
}

/// The exit number of the run of the arguments.
pub(crate) fn number_of_run<F: Folder, S: Sink>(
    alloc: Global,
    arguments: &[String],
    folder: &mut F,
    sink: &mut S,
) -> u8 {
    exit_number(run(alloc, arguments, folder, sink))
}

/// What the run of the arguments over the folder writes.
pub(crate) fn written_by(
    alloc: Global,
    folder: &mut MemoryFolder,
    arguments: &[String],
) -> io::Result<String> {
    let mut sink = MemorySink::new(alloc, ROOM, ROOM)?;
    number_of_run(alloc, arguments, folder, &mut sink);
    text_of(alloc, sink.written())
}

/// What the run of the words over the folder writes.
pub(crate) fn written_by_words(
    alloc: Global,
    folder: &mut MemoryFolder,
    words: &str,
) -> io::Result<String> {
    let arguments = arguments_of(alloc, words)?;
    written_by(alloc, folder, arguments.as_slice())
}

// Prints the exit number of the run of the words over the folder.
fn print_number(
    alloc: Global,
    out: &mut impl Write,
    folder: &mut MemoryFolder,
    sink: &mut MemorySink,
    words: &str,
) -> io::Result<()> {
    let arguments = arguments_of(alloc, words)?;
    let number = number_of_run(alloc, arguments.as_slice(), folder, sink);
    write!(out, "{number} ")
}

/// Prints the exit number of the run of the words over the folder, and what it wrote.
pub(crate) fn print_asked(
    alloc: Global,
    out: &mut impl Write,
    folder: &mut MemoryFolder,
    words: &str,
) -> io::Result<()> {
    let mut sink = MemorySink::new(alloc, ROOM, ROOM)?;
    print_number(alloc, out, folder, &mut sink, words)?;
    out.write_all(sink.written())
}

/// Prints the exit number of the run of the words over the folder, which then has what it wrote as its
/// certificate.
pub(crate) fn print_and_hold(
    alloc: Global,
    out: &mut impl Write,
    folder: &mut MemoryFolder,
    words: &str,
) -> io::Result<()> {
    let mut sink = MemorySink::new(alloc, ROOM, ROOM)?;
    print_number(alloc, out, folder, &mut sink, words)?;
    folder.hold("proof", sink.written())?;
    Ok(())
}

/// The text in which a character stands for a line feed.
pub(crate) fn lines_of(alloc: Global, packed: &str, mark: char) -> io::Result<String> {
    let mut text = String::new(alloc);
    for c in packed.chars() {
        text.push(if c == mark { '\n' } else { c })?;
    }
    Ok(text)
}

/// The text of a certificate, in which `/` stands for a line feed.
pub(crate) fn unpacked(alloc: Global, packed: &str) -> io::Result<String> {
    lines_of(alloc, packed, '/')
}

fn hold(alloc: Global, folder: &mut MemoryFolder, name: &str, text: &str) -> io::Result<()> {
    if name == "proof" {
        folder.hold(name, unpacked(alloc, text)?.as_bytes())?;
    } else {
        folder.hold(name, text.as_bytes())?;
    }
    Ok(())
}

/// Puts files, a tab between them, into the folder under the names in turn. Behind them stands a schema's
/// file or nothing. Whether it is a file.
pub(crate) fn hold_files(
    alloc: Global,
    folder: &mut MemoryFolder,
    names: &[&str],
    files: &str,
) -> io::Result<bool> {
    let mut rest = files;
    for name in names {
        let (text, behind) = rest.split_once('\t').unwrap_or((rest, ""));
        hold(alloc, folder, name, text)?;
        rest = behind;
    }
    hold(alloc, folder, "schema", rest)?;
    Ok(!rest.is_empty())
}
