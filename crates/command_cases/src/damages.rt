//! The answers of `check` to damaged certificates.
use crate::commands::words_of_check;
use crate::damage::{Change, changed, count_of_numbers, repeated, swapped};
use crate::memory::{arguments_of, hold_files, unpacked, written_by, written_by_words};
use pol_outside::MemoryFolder;
use std::alloc::Global;
use std::io;
use std::io::Write;

/// The certificate that a line gives, or that `compare --proof` prints.
fn certificate_of(
    alloc: Global,
    folder: &mut MemoryFolder,
    packed: &str,
    schema: bool,
) -> io::Result<String> {
    match (packed, schema) {
        ("printed", false) => written_by_words(alloc, folder, "compare first second --proof"),
        ("printed", true) => written_by_words(
            alloc,
            folder,
            "compare first second --proof --schema schema",
        ),
        _ => unpacked(alloc, packed),
    }
}

fn print_answer(out: &mut impl Write, answer: &str) -> io::Result<()> {
    let answer = answer.trim_end();
    out.write_all(b" | ")?;
    let answer = answer.strip_prefix("bad proof: ").unwrap_or(answer);
    for part in answer.split(" line") {
        out.write_all(part.as_bytes())?;
    }
    Ok(())
}

/// The answer to a certificate of the folder's files.
fn answer_to(
    alloc: Global,
    folder: &mut MemoryFolder,
    arguments: &[String],
    certificate: &str,
) -> io::Result<String> {
    folder.hold("proof", certificate.as_bytes())?;
    written_by(alloc, folder, arguments)
}

fn print_check(
    alloc: Global,
    out: &mut impl Write,
    folder: &mut MemoryFolder,
    arguments: &[String],
    certificate: &str,
) -> io::Result<()> {
    let answer = answer_to(alloc, folder, arguments, certificate)?;
    print_answer(out, answer.as_str())
}

/// Prints the answers to a certificate with each line so many times.
fn print_repeated(
    alloc: Global,
    out: &mut impl Write,
    folder: &mut MemoryFolder,
    arguments: &[String],
    certificate: &str,
    times: usize,
) -> io::Result<()> {
    for index in 0..certificate.lines().count() {
        let text = repeated(alloc, certificate, index, times)?;
        print_check(alloc, out, folder, arguments, text.as_str())?;
    }
    Ok(())
}

/// Prints the answers to a certificate with each line swapped with the next.
fn print_swapped(
    alloc: Global,
    out: &mut impl Write,
    folder: &mut MemoryFolder,
    arguments: &[String],
    certificate: &str,
) -> io::Result<()> {
    for (index, _) in certificate.lines().skip(1).enumerate() {
        let text = swapped(alloc, certificate, index)?;
        print_check(alloc, out, folder, arguments, text.as_str())?;
    }
    Ok(())
}

/// Prints the answers to a certificate with each of its numbers changed.
fn print_changed(
    alloc: Global,
    out: &mut impl Write,
    folder: &mut MemoryFolder,
    arguments: &[String],
    certificate: &str,
    change: Change,
) -> io::Result<()> {
    for count in 0..count_of_numbers(certificate) {
        if let Some(text) = changed(alloc, certificate, count, change)? {
            print_check(alloc, out, folder, arguments, text.as_str())?;
        }
    }
    Ok(())
}

/// Prints a certificate in one line.
fn print_in_one_line(out: &mut impl Write, certificate: &str) -> io::Result<()> {
    for line in certificate.lines() {
        write!(out, "{line}/")?;
    }
    out.write_all(b"\nas it is")
}

/// Prints the answers to a certificate that has other lines.
fn print_other_lines(
    alloc: Global,
    out: &mut impl Write,
    folder: &mut MemoryFolder,
    arguments: &[String],
    certificate: &str,
) -> io::Result<()> {
    out.write_all(b"\nleft out")?;
    print_repeated(alloc, out, folder, arguments, certificate, 0)?;
    out.write_all(b"\ndoubled")?;
    print_repeated(alloc, out, folder, arguments, certificate, 2)?;
    out.write_all(b"\nswapped")?;
    print_swapped(alloc, out, folder, arguments, certificate)
}

/// Prints the answers to a certificate that has other numbers.
fn print_other_numbers(
    alloc: Global,
    out: &mut impl Write,
    folder: &mut MemoryFolder,
    arguments: &[String],
    certificate: &str,
) -> io::Result<()> {
    out.write_all(b"\none more")?;
    print_changed(alloc, out, folder, arguments, certificate, Change::More)?;
    out.write_all(b"\none less")?;
    print_changed(alloc, out, folder, arguments, certificate, Change::Less)?;
    out.write_all(b"\n")
}

/// Prints a certificate of the folder's files, its answer and those to all its damages.
fn print_answers(
    alloc: Global,
    out: &mut impl Write,
    folder: &mut MemoryFolder,
    arguments: &[String],
    certificate: &str,
) -> io::Result<()> {
    print_in_one_line(out, certificate)?;
    print_check(alloc, out, folder, arguments, certificate)?;
    print_other_lines(alloc, out, folder, arguments, certificate)?;
    print_other_numbers(alloc, out, folder, arguments, certificate)
}

// Prints the answers by the arguments that check the certificate.
fn print_certificate(
    alloc: Global,
    out: &mut impl Write,
    folder: &mut MemoryFolder,
    certificate: &str,
    schema: bool,
) -> io::Result<()> {
    let arguments = arguments_of(alloc, words_of_check(schema))?;
    print_answers(alloc, out, folder, arguments.as_slice(), certificate)
}

/// Prints the certificate of a line, its answer and those to all its damages.
pub(crate) fn print_damages(
    alloc: Global,
    out: &mut impl Write,
    folder: &mut MemoryFolder,
    line: &str,
) -> io::Result<()> {
    let (packed, files) = line.split_once('\t').unwrap_or((line, ""));
    let schema = hold_files(alloc, folder, &["first", "second"], files)?;
    let certificate = certificate_of(alloc, folder, packed, schema)?;
    print_certificate(alloc, out, folder, certificate.as_str(), schema)
}
