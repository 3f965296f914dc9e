//! Prints what each line of a text is read as, or its first fault. `⟦N|TEXT⟧` stands for N times
//! TEXT, and a line begins with a word.
//!
//! `words LIST` is a JSON list of the words after the program's name; what they ask is printed, or `usage`.
//!
//! `set FILE` prints the first fault of a file as a set: its code, the numbers of its document and its
//! statement, and its element as JSON text; `none` where it has none. `shown FILE` prints the set that was read,
//! or the fault without quotes. `schema FILE` prints the code and the
//! element of a schema file's first fault, or `none`.
//!
//! `inferred FIRST SECOND SCHEMA` has three files with tabs between them; an empty third file stands for the
//! built-in keys alone. The answer is the further keys that are inferred from the two sets with their kinds, or
//! the first use of a key that is refused.
//!
//! `request SCHEMA FILE` has two files with a tab between them, and prints the code and the element of the
//! request file's first fault, or else the request as it is written. A request whose text isn't read again as
//! itself has a word before it.
//!
//! `certificate TESTS VERSION TEXT` is a number of tests, a format's number and a certificate, in which `/`
//! stands for a line feed, `¶` for a carriage return, and `ÿ` for a byte that no text in UTF-8 has. The code
//! and the line of its first fault are printed; where it has none, how many nodes were read, and the last
//! one's line.
#![tactic(auto)]

mod certificates;
mod conditions;
mod inferred;
mod policies;
mod requests;
mod schemas;
mod showing;
mod shown;
mod texts;
mod words;

use certificates::certificate_answer;
use inferred::inferred_answer;
use line_expansion::expand;
use policies::set_answer;
use requests::request_answer;
use schemas::schema_answer;
use shown::shown_answer;
use std::alloc::Global;
use std::io;
use std::io::{ErrorKind, Write};
use words::words_answer;

fn answer_to(alloc: Global, line: &str) -> io::Result<String> {
    let (word, rest) = line.split_once(' ').unwrap_or((line, ""));
    match word {
        "words" => words_answer(alloc, rest),
        "set" => Ok(set_answer(alloc, rest)?),
        "shown" => Ok(shown_answer(alloc, rest)?),
        "schema" => Ok(schema_answer(alloc, rest)?),
        "inferred" => Ok(inferred_answer(alloc, rest)?),
        "request" => Ok(request_answer(alloc, rest)?),
        "certificate" => certificate_answer(alloc, rest),
        _ => Err(ErrorKind::InvalidData.into()),
    }
}

fn print_answer(alloc: Global, out: &mut impl Write, line: &str) -> io::Result<()> {
    let answer = answer_to(alloc, line)?;
    writeln!(out, "{answer}")
}

fn print_expanded(alloc: Global, out: &mut impl Write, line: &str) -> io::Result<()> {
    let line = expand(alloc, line)?;
    print_answer(alloc, out, line.as_str())
}

/// Prints what each line of a text is read as, or its first fault.
pub fn print_readings(alloc: Global, out: &mut impl Write, text: &str) -> io::Result<()> {
    for line in text.lines() {
        print_expanded(alloc, out, line)?;
    }
    Ok(())
}
