//! What the first line of a node says.
ghost use Rattle.std.specs.Prelude.{◌≡◌, option_map};
ghost use Rattle.std.specs.Option.{option_copied};
ghost use Rattle.proof_text.specs.Faults.{has_ended};
ghost use Rattle.proof_text.specs.LineForms.{ExpectVersion, label_said, line_said, said_alone, some_numbers, with_number};
ghost use Rattle.proof_text.specs.LineForms.{one_number};
ghost use Rattle.proof_text.specs.Lines.{certificate_line, clauses_line, reuse_line, slot_line, split_line, value_line};
ghost use Rattle.proof_text.specs.Around.{IsRising, node_here, node_line_value};
ghost use Rattle.proof_text.specs.Steps.{IsLineRead, parts_left};

use crate::answers::{label_in, tests_of};
use crate::fault::{LineAnswer, ProofCode};
use crate::limits::{Limits, MOST_NESTING};
use crate::numbers::{are_below, one_number, rises, some_numbers};
use crate::parts::{content_of, cut};
use cnf_clauses::Hints;
use refute_check::AnswerList;
use slot_theory::Core;
use std::alloc::Global;

/// Where a node stands: below so many splits and labels, behind so many labels that began before, and
/// inside of the labels with these numbers.
#[derive(Clone, Copy)]
pub(crate) struct Around<'a> {
    pub depth: u32,
    pub begun: u32,
    pub inside: &'a [u32],
}

/// What the first line of a node says.
#[derive(Drop)]
pub(crate) enum NodeLine {
    Split(u32),
    Value,
    Slot(Core),
    Clauses(Hints),
    Label(u32, AnswerList),
    Reuse(u32),
}

// A split on a test of the query, below few enough others.
fn split_line(
    limits: Limits,
    around: Around<'_>,
    behind: Option<&[u8]>,
) -> Result<NodeLine, LineAnswer>
    ensures { IsLineRead node_line_value limits around.entry.begun (node_here around.entry)
        (with_number split_line (parts_left 32 (option_copied behind.entry))) result }
{
    let Some(test) = one_number(behind)? else {
        return Err(LineAnswer::Fails(ProofCode::C4Limit));
    };
    if test >= limits.tests {
        return Err(LineAnswer::Fails(ProofCode::C3TestNumber));
    }
    if around.depth >= MOST_NESTING {
        return Err(LineAnswer::Fails(ProofCode::C4Limit));
    }
    Ok(NodeLine::Split(test))
}

fn value_line(
    limits: Limits,
    around: Around<'_>,
    behind: Option<&[u8]>,
) -> Result<NodeLine, LineAnswer>
    ensures { IsLineRead node_line_value limits around.entry.begun (node_here around.entry)
        (said_alone value_line (parts_left 32 (option_copied behind.entry))) result }
{
    if behind.is_some() {
        return Err(LineAnswer::Fails(ProofCode::C1Syntax));
    }
    Ok(NodeLine::Value)
}

// A core of tests of the query, which rise.
fn slot_line(
    alloc: Global,
    limits: Limits,
    around: Around<'_>,
    behind: Option<&[u8]>,
) -> Result<NodeLine, LineAnswer>
    ensures { IsLineRead node_line_value limits around.entry.begun (node_here around.entry)
        (option_map slot_line (some_numbers (parts_left 32 (option_copied behind.entry)))) result }
{
    let Some(core) = some_numbers(alloc, behind)? else {
        return Err(LineAnswer::Fails(ProofCode::C4Limit));
    };
    if !rises(core.as_slice()) {
        return Err(LineAnswer::Fails(ProofCode::C1Syntax));
    }
    if !are_below(core.as_slice(), limits.tests) {
        return Err(LineAnswer::Fails(ProofCode::C3TestNumber));
    }
    Ok(NodeLine::Slot(core))
}

fn clauses_line(
    alloc: Global,
    limits: Limits,
    around: Around<'_>,
    behind: Option<&[u8]>,
) -> Result<NodeLine, LineAnswer>
    ensures { IsLineRead node_line_value limits around.entry.begun (node_here around.entry)
        (option_map clauses_line
        (some_numbers (parts_left 32 (option_copied behind.entry)))) result }
{
    let Some(hints) = some_numbers(alloc, behind)? else {
        return Err(LineAnswer::Fails(ProofCode::C4Limit));
    };
    Ok(NodeLine::Clauses(hints))
}

// A label with the next number and answers to tests of the query, which rise, below few enough others.
fn label_line(
    alloc: Global,
    limits: Limits,
    around: Around<'_>,
    behind: Option<&[u8]>,
) -> Result<NodeLine, LineAnswer>
    ensures { IsLineRead node_line_value limits around.entry.begun (node_here around.entry)
        (label_said (parts_left 32 (option_copied behind.entry))) result }
{
    let Some((number, answers)) = label_in(alloc, behind)? else {
        return Err(LineAnswer::Fails(ProofCode::C4Limit));
    };
    let tests = tests_of(alloc, answers.as_slice())?;
    if number != around.begun {
        return Err(LineAnswer::Fails(ProofCode::C1Syntax));
    }
    if !rises(tests.as_slice()) {
        return Err(LineAnswer::Fails(ProofCode::C1Syntax));
    }
    if !are_below(tests.as_slice(), limits.tests) {
        return Err(LineAnswer::Fails(ProofCode::C3TestNumber));
    }
    if around.depth >= MOST_NESTING {
        return Err(LineAnswer::Fails(ProofCode::C4Limit));
    }
    Ok(NodeLine::Label(number, answers))
}

// Whether the node of the label has ended before.
fn has_ended(around: Around<'_>, number: u32) -> bool
    requires { IsRising around.inside.now }
    ensures { result ≡ has_ended around.entry.begun around.entry.inside.now number }
{
    if number >= around.begun {
        return false;
    }
    around.inside.binary_search(&number).is_err()
}

fn reuse_line(
    limits: Limits,
    around: Around<'_>,
    behind: Option<&[u8]>,
) -> Result<NodeLine, LineAnswer>
    requires { IsRising around.inside.now }
    ensures { IsLineRead node_line_value limits around.entry.begun (node_here around.entry)
        (with_number reuse_line (parts_left 32 (option_copied behind.entry))) result }
{
    let Some(number) = one_number(behind)? else {
        return Err(LineAnswer::Fails(ProofCode::C4Limit));
    };
    if !has_ended(around, number) {
        return Err(LineAnswer::Fails(ProofCode::C1Syntax));
    }
    Ok(NodeLine::Reuse(number))
}

/// What the line says, where a node must stand there.
pub(crate) fn node_line(
    alloc: Global,
    limits: Limits,
    around: Around<'_>,
    line: &[u8],
) -> Result<NodeLine, LineAnswer>
    requires { IsRising around.inside.now }
    ensures { IsLineRead node_line_value limits around.entry.begun (node_here around.entry)
        (line_said (node_here around.entry) line.now) result }
{
    let Some(text) = content_of(line) else {
        return Err(LineAnswer::Fails(ProofCode::C1Syntax));
    };
    let (word, behind) = cut(text, b' ');
    if word == b"split".as_slice() {
        return split_line(limits, around, behind);
    }
    if word == b"value".as_slice() {
        return value_line(limits, around, behind);
    }
    if word == b"slot".as_slice() {
        return slot_line(alloc, limits, around, behind);
    }
    if word == b"clauses".as_slice() {
        return clauses_line(alloc, limits, around, behind);
    }
    if word == b"label".as_slice() {
        return label_line(alloc, limits, around, behind);
    }
    if word == b"reuse".as_slice() {
        return reuse_line(limits, around, behind);
    }
    Err(LineAnswer::Fails(ProofCode::C1Syntax))
}

fn certificate_line(limits: Limits, behind: Option<&[u8]>) -> Result<u32, LineAnswer>
    ensures { IsLineRead certificate_line limits 0 ExpectVersion
        (with_number certificate_line (parts_left 32 (option_copied behind.entry))) result }
{
    let Some(version) = one_number(behind)? else {
        return Err(LineAnswer::Fails(ProofCode::C4Limit));
    };
    if version != limits.version {
        return Err(LineAnswer::Fails(ProofCode::C2Version));
    }
    Ok(version)
}

/// The number of the format, where the line must say it.
pub(crate) fn version_line(limits: Limits, line: &[u8]) -> Result<u32, LineAnswer>
    ensures { IsLineRead certificate_line limits 0 ExpectVersion
        (line_said ExpectVersion line.now) result }
{
    let Some(text) = content_of(line) else {
        return Err(LineAnswer::Fails(ProofCode::C1Syntax));
    };
    let (word, behind) = cut(text, b' ');
    if word == b"certificate".as_slice() {
        return certificate_line(limits, behind);
    }
    Err(LineAnswer::Fails(ProofCode::C1Syntax))
}
