//! Lines that begin with a command, a tab behind it and between its files.
use crate::damages::print_damages;
use crate::deep::{chain_of_splits, set_of_actions};
use crate::memory::{hold_files, print_and_hold, print_asked};
use pol_outside::MemoryFolder;
use std::alloc::Global;
use std::io;
use std::io::{ErrorKind, Write};

/// The words that check the folder's certificate.
pub(crate) fn words_of_check(schema: bool) -> &'static str {
    if schema {
        "check first second proof --schema schema"
    } else {
        "check first second proof"
    }
}

fn words_of_evaluation(schema: bool) -> &'static str {
    if schema {
        "eval set request --schema schema"
    } else {
        "eval set request"
    }
}

fn words_of_comparison(schema: bool) -> &'static str {
    if schema {
        "compare first second --proof --states 100000 --schema schema"
    } else {
        "compare first second --proof --states 100000"
    }
}

/// Prints the check of the certificate of a line.
fn print_check(
    alloc: Global,
    out: &mut impl Write,
    folder: &mut MemoryFolder,
    files: &str,
) -> io::Result<()> {
    let schema = hold_files(alloc, folder, &["first", "second", "proof"], files)?;
    print_asked(alloc, out, folder, words_of_check(schema))
}

/// Prints the evaluation of the request of a line.
fn print_evaluation(
    alloc: Global,
    out: &mut impl Write,
    folder: &mut MemoryFolder,
    files: &str,
) -> io::Result<()> {
    let schema = hold_files(alloc, folder, &["set", "request"], files)?;
    print_asked(alloc, out, folder, words_of_evaluation(schema))
}

/// Prints the check of what a comparison of the files of a line printed with its certificate.
fn print_printed(
    alloc: Global,
    out: &mut impl Write,
    folder: &mut MemoryFolder,
    files: &str,
) -> io::Result<()> {
    let schema = hold_files(alloc, folder, &["first", "second"], files)?;
    print_and_hold(alloc, out, folder, words_of_comparison(schema))?;
    print_asked(alloc, out, folder, words_of_check(schema))
}

fn hold_twice(folder: &mut MemoryFolder, set: &[u8]) -> io::Result<()> {
    folder.hold("first", set)?;
    folder.hold("second", set)?;
    Ok(())
}

// Puts a set of so many actions into the folder, as both of its sets.
fn hold_sets(alloc: Global, folder: &mut MemoryFolder, count: u32) -> io::Result<()> {
    let set = set_of_actions(alloc, count)?;
    hold_twice(folder, set.as_bytes())
}

// Puts the certificate that splits on each of so many actions into the folder.
fn hold_deep(alloc: Global, folder: &mut MemoryFolder, count: u32, labels: bool) -> io::Result<()> {
    let certificate = chain_of_splits(alloc, count, labels)?;
    folder.hold("proof", certificate.as_bytes())?;
    Ok(())
}

/// Prints the check of a certificate that splits on each of so many actions, in labels or not.
fn print_deep(
    alloc: Global,
    out: &mut impl Write,
    folder: &mut MemoryFolder,
    number: &str,
    labels: bool,
) -> io::Result<()> {
    let Ok(count) = number.parse::<u32>() else {
        return Err(ErrorKind::InvalidData.into());
    };
    hold_sets(alloc, folder, count)?;
    hold_deep(alloc, folder, count, labels)?;
    print_asked(alloc, out, folder, words_of_check(false))
}

fn print_over(
    alloc: Global,
    out: &mut impl Write,
    folder: &mut MemoryFolder,
    command: &str,
    files: &str,
) -> io::Result<()> {
    match command {
        "check" => print_check(alloc, out, folder, files),
        "eval" => print_evaluation(alloc, out, folder, files),
        "printed" => print_printed(alloc, out, folder, files),
        "splits" => print_deep(alloc, out, folder, files, false),
        "labels" => print_deep(alloc, out, folder, files, true),
        "damaged" => print_damages(alloc, out, folder, files),
        _ => Err(ErrorKind::InvalidData.into()),
    }
}

/// Prints what the command does with its files.
pub(crate) fn print_command(
    alloc: Global,
    out: &mut impl Write,
    command: &str,
    files: &str,
) -> io::Result<()> {
    print_over(alloc, out, &mut MemoryFolder::new(alloc), command, files)
}
