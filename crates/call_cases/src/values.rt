//! What texts stand for: the number of an address, the ends of a block, the units of a decimal or a moment, and
//! a value that meets clauses.
use crate::reading::{address, block, decimal, inside, moment};
use crate::wants::solution;
use std::alloc::Global;
use std::io;
use value_theory::PlainKind;

fn answer(alloc: Global, word: &str, text: &str) -> io::Result<String> {
    match word {
        "address" => address(alloc, text),
        "block" => block(alloc, text),
        "inside" => inside(alloc, text),
        "decimal" => decimal(alloc, text),
        "moment" => moment(alloc, text),
        "truths" => solution(alloc, PlainKind::Truth, text),
        "numbers" => solution(alloc, PlainKind::Number, text),
        "addresses" => solution(alloc, PlainKind::Address, text),
        _ => solution(alloc, PlainKind::Bytes, text),
    }
}

/// The answer to `WORD TEXT`.
pub(crate) fn value_answer(alloc: Global, line: &str) -> io::Result<String> {
    let (word, text) = line.split_once(' ').unwrap_or(("", ""));
    answer(alloc, word, text)
}
