//! Certificates with one line of them damaged.

use std::alloc::Global;
use std::io;
use std::io::ErrorKind;

/// What becomes of a number.
#[derive(Clone, Copy)]
pub(crate) enum Change {
    /// One more.
    More,
    /// One less, where it isn't 0.
    Less,
}

fn push_line(text: &mut String, line: &str) -> io::Result<()> {
    writeln!(text, "{line}")?;
    Ok(())
}

fn push_times(text: &mut String, line: &str, times: usize) -> io::Result<()> {
    for _ in 0..times {
        push_line(text, line)?;
    }
    Ok(())
}

fn push_repeated(
    text: &mut String,
    certificate: &str,
    index: usize,
    times: usize,
) -> io::Result<()> {
    for (i, line) in certificate.lines().enumerate() {
        push_times(text, line, if i == index { times } else { 1 })?;
    }
    Ok(())
}

/// The certificate with its line at this index so many times, counted from 0.
pub(crate) fn repeated(
    alloc: Global,
    certificate: &str,
    index: usize,
    times: usize,
) -> io::Result<String> {
    let mut text = String::new(alloc);
    push_repeated(&mut text, certificate, index, times)?;
    Ok(text)
}

fn line_at(certificate: &str, index: usize) -> &str {
    certificate.lines().nth(index).unwrap_or("")
}

fn push_swapped(text: &mut String, certificate: &str, index: usize) -> io::Result<()> {
    for (i, line) in certificate.lines().enumerate() {
        if i != index {
            push_line(text, line)?;
        }
        if i == index.saturating_add(1) {
            push_line(text, line_at(certificate, index))?;
        }
    }
    Ok(())
}

/// The certificate with its line at this index behind the next one.
pub(crate) fn swapped(alloc: Global, certificate: &str, index: usize) -> io::Result<String> {
    let mut text = String::new(alloc);
    push_swapped(&mut text, certificate, index)?;
    Ok(text)
}

fn is_digit(c: char) -> bool {
    c.is_ascii_digit()
}

/// What stands before the first number of a text, and what stands from there on.
fn before_number(text: &str) -> Option<(&str, &str)> {
    let at = text.find(is_digit)?;
    text.split_at_checked(at)
}

/// What stands behind the number at the front of a text.
fn behind_number(text: &str) -> &str {
    text.trim_start_matches(is_digit)
}

/// How many numbers a text has.
pub(crate) fn count_of_numbers(text: &str) -> usize {
    let mut rest = text;
    for count in 0..text.len() {
        let Some((_, from)) = before_number(rest) else {
            return count;
        };
        rest = behind_number(from);
    }
    text.len()
}

fn changed_number(digits: &str, change: Change) -> io::Result<Option<u64>> {
    match (digits.parse::<u64>(), change) {
        (Ok(number), Change::More) => Ok(number.checked_add(1)),
        (Ok(number), Change::Less) => Ok(number.checked_sub(1)),
        (Err(_), _) => Err(ErrorKind::InvalidData.into()),
    }
}

/// What stands behind so many numbers of a text.
fn behind_numbers(text: &str, count: usize) -> &str {
    let mut rest = text;
    for _ in 0..count {
        if let Some((_, from)) = before_number(rest) {
            rest = behind_number(from);
        }
    }
    rest
}

/// A text with the number at its front changed, behind another text, or none where it has no change.
fn with_change(
    alloc: Global,
    before: &str,
    from: &str,
    change: Change,
) -> io::Result<Option<String>> {
    let behind = behind_number(from);
    let digits = from.strip_suffix(behind).unwrap_or("");
    match changed_number(digits, change)? {
        Some(number) => Ok(Some(format!(in alloc; "{before}{number}{behind}")?)),
        None => Ok(None),
    }
}

/// The certificate in which the number behind so many others is changed, or none where it has no change.
pub(crate) fn changed(
    alloc: Global,
    certificate: &str,
    count: usize,
    change: Change,
) -> io::Result<Option<String>> {
    match before_number(behind_numbers(certificate, count)) {
        Some((_, from)) => {
            let before = certificate.strip_suffix(from).unwrap_or("");
            with_change(alloc, before, from, change)
        }
        None => Ok(None),
    }
}
