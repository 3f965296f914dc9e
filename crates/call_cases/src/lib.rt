//! Prints what single calls answer to lines of a text. A line begins with a word.
//!
//! `pattern KIND PATTERN TEXT ..`, with tabs behind the kind, prints the pattern that was read, written again, and a
//! mark for each text: `y` where the pattern matches it and `n` where it doesn't; or why the pattern is refused. For
//! the kind `text` it prints the texts, folded. For the kind `pair` there are two patterns, each behind its kind, and
//! the answer is three marks: whether the first covers the second, whether the second covers the first, and whether
//! they clash.
//!
//! `value WORD TEXT` prints what the text stands for, or that it is refused: the number of an address, the ends of a
//! block, the units of a decimal or a moment, and a value that meets clauses.
//!
//! `product LIMIT YES NO OTHER` asks for what the product answers to the wants that the first pattern matches and the
//! two others don't: a text; or the product states of a closed set, and whether it is closed, and whether it is
//! without each of them in turn; or how many texts.
//!
//! `slot ask SLOT SHAPE STATES TEST TEST TEST` asks for a value; of tests that none answers so it prints the kind of
//! the proof and their numbers, and whether they are accepted with it, under the other answers, without their last
//! test, and by fixed answers alone. A line `slot stated SLOT SHAPE` asks nothing. `SHAPE` is that of actions, or of
//! the ids of `AWS` principals, or `-`. A test is its answer, `+`, `-` or `.` for none, and a pattern, or of the
//! principal an entry: `*`, a kind, an account, or `KIND=ID`.
//!
//! `slot key KIND FLAGS VALUES STATES TEST TEST TEST` asks for values of the key `k` under the rule of the three
//! words. A test is its answer and `?`, `=` and a pattern or a truth value, or `#` and some that are divided by bars.
//! Behind `j` it is on another key. A line `slot stated-key KIND FLAGS VALUES` asks nothing.
//!
//! `tree TREE TESTS ANSWERS`, with tabs between them, prints the tree's value under the answers, the test that it waits
//! for where the value is unknown, and whether its clauses conflict, with hints that replay. `clauses TREE TESTS` prints
//! the tree's clauses. TESTS is how many tests there are; a literal and an answer are `+3` and `-3`. Trees are written
//! as `tree_words` has it, and `⟦N|TEXT⟧` stands for N times TEXT.
//!
//! `outside` reads files and writes texts, and prints what came of each call.
#![tactic(auto)]

mod asked;
mod cases;
mod keys;
mod outside;
mod patterns;
mod products;
mod reading;
mod schemas;
mod slots;
mod tree_words;
mod trees;
mod values;
mod wants;

use outside::print_outside;
use patterns::pattern_answer;
use products::product_answer;
use slots::slot_answer;
use std::alloc::Global;
use std::io;
use std::io::{ErrorKind, Write};
use trees::tree_answer;
use values::value_answer;

fn answer_to(alloc: Global, line: &str) -> io::Result<String> {
    let (word, rest) = line.split_once(' ').unwrap_or((line, ""));
    match word {
        "pattern" => pattern_answer(alloc, rest),
        "value" => value_answer(alloc, rest),
        "product" => product_answer(alloc, rest),
        "slot" => slot_answer(alloc, rest),
        "tree" => tree_answer(alloc, rest, true),
        "clauses" => tree_answer(alloc, rest, false),
        _ => Err(ErrorKind::InvalidData.into()),
    }
}

fn print_answer(alloc: Global, out: &mut impl Write, line: &str) -> io::Result<()> {
    let answer = answer_to(alloc, line)?;
    writeln!(out, "{answer}")
}

/// Prints the answer to each line of a text. What a line `outside` reads lies where the program runs.
pub fn print_calls(rt: &HostRuntime, out: &mut impl Write, text: &str) -> io::Result<()> {
    for line in text.lines() {
        if line == "outside" {
            print_outside(rt)?;
        } else {
            print_answer(rt.alloc(), out, line)?;
        }
    }
    Ok(())
}
