//! What products answer: a text, or the product states of a closed set, and whether it is closed, and whether it is
//! without each of them in turn, or how many texts.
ghost use Rattle.std.specs.Prelude.{◌≡◌, ◌≤◌, ◌+◌, ◌∷◌, [], IfOk, OnOk, length};
ghost use Rattle.pattern_automata.specs.Closed.{InRange};

use pattern_automata::{
    ClauseList, Closed, Literal, LiteralList, PlaceLists, Product, State, Wants, is_closed, product,
};
use std::alloc::Global;
use std::io;
use std::io::ErrorKind;
use wildcard_lang::{Pattern, PatternList, Text, read_glob};

fn read(alloc: Global, text: &str) -> io::Result<Pattern> {
    match read_glob(alloc, text, false, false) {
        Ok(pattern) => Ok(pattern),
        Err(_fault) => Err(ErrorKind::InvalidData.into()),
    }
}

/// The clause of one literal.
fn clause(alloc: Global, pattern: u32, holds: bool) -> io::Result<LiteralList>
    ensures { IfOk result (λ k. k ≡ record { pattern = pattern; holds = holds } ∷ []) }
{
    let mut clause = LiteralList::new(alloc);
    clause.push(Literal { pattern, holds })?;
    Ok(clause)
}

fn push_pattern(alloc: Global, patterns: &mut PatternList, text: &str) -> io::Result<()>
    ensures { OnOk result (length patterns.new ≡ length patterns.old + 1) }
{
    patterns.push(read(alloc, text)?)?;
    Ok(())
}

/// The patterns that a line has as texts.
#[derive(Clone, Copy)]
struct Texts<'a> {
    yes: &'a str,
    no: &'a str,
    other: &'a str,
}

fn patterns_of(alloc: Global, texts: Texts) -> io::Result<PatternList>
    ensures { IfOk result (λ p. length p ≡ 3) }
{
    let mut patterns = PatternList::new(alloc);
    push_pattern(alloc, &mut patterns, texts.yes)?;
    push_pattern(alloc, &mut patterns, texts.no)?;
    push_pattern(alloc, &mut patterns, texts.other)?;
    Ok(patterns)
}

fn clauses_of(alloc: Global) -> io::Result<ClauseList>
    ensures { IfOk result (InRange 3) }
{
    let mut clauses = ClauseList::new(alloc);
    clauses.push(clause(alloc, 0, true)?)?;
    clauses.push(clause(alloc, 1, false)?)?;
    clauses.push(clause(alloc, 2, false)?)?;
    Ok(clauses)
}

/// That the first pattern matches and the others don't.
fn wants_of(alloc: Global, texts: Texts) -> io::Result<Wants>
    ensures { IfOk result (λ w. InRange (length w.patterns) w.clauses) }
{
    let patterns = patterns_of(alloc, texts)?;
    let clauses = clauses_of(alloc)?;
    Ok(Wants { patterns, clauses })
}

/// Writes the places, each after a comma.
fn write_places(places: &[u32], line: &mut String) -> io::Result<()> {
    for place in places {
        write!(line, ",{place}")?;
    }
    Ok(())
}

/// Writes a product state, each of its lists after a bar.
fn write_state(state: &State<'_>, line: &mut String) -> io::Result<()> {
    for i in 0..state.len() {
        line.push_str("|")?;
        write_places(state.get(i), line)?;
    }
    Ok(())
}

fn copy_state(alloc: Global, state: &State<'_>) -> io::Result<PlaceLists> {
    let mut copy = PlaceLists::new(alloc);
    for i in 0..state.len() {
        copy.push(state.get(i))?;
    }
    Ok(copy)
}

fn push_copy(alloc: Global, set: &mut Closed, state: &State<'_>) -> io::Result<()> {
    let copy = copy_state(alloc, state)?;
    set.push(&copy)?;
    Ok(())
}

/// The set without the product state at an index.
fn without(alloc: Global, closed: &Closed, index: usize) -> io::Result<Closed> {
    let mut rest = Closed::new(alloc);
    for i in 0..closed.len() {
        if i != index {
            push_copy(alloc, &mut rest, &closed.get(i))?;
        }
    }
    Ok(rest)
}

/// Writes whether the set is closed without the product state at an index.
fn write_closed(
    alloc: Global,
    wants: &Wants,
    closed: &Closed,
    index: usize,
    line: &mut String,
) -> io::Result<()>
    requires { InRange (length wants.now.patterns) wants.now.clauses }
{
    let rest = without(alloc, closed, index)?;
    let word = if is_closed(alloc, wants, &rest)? {
        " yes"
    } else {
        " no"
    };
    line.push_str(word)?;
    Ok(())
}

/// Writes the product states of the set.
fn write_states(closed: &Closed, line: &mut String) -> io::Result<()> {
    for i in 0..closed.len() {
        line.push_str(" ")?;
        write_state(&closed.get(i), line)?;
    }
    Ok(())
}

/// Writes the set, whether it is closed, and whether it is without each of its members.
fn write_set(alloc: Global, wants: &Wants, closed: &Closed, line: &mut String) -> io::Result<()>
    requires { InRange (length wants.now.patterns) wants.now.clauses }
{
    let count = closed.len();
    write_states(closed, line)?;
    write_closed(alloc, wants, closed, count, line)?;
    for index in 0..count {
        write_closed(alloc, wants, closed, index, line)?;
    }
    Ok(())
}

fn write_text(text: &Text, line: &mut String) -> io::Result<()> {
    let text = text.to_utf8()?;
    write!(line, "text {text}")?;
    Ok(())
}

/// Writes what the product answers.
fn write_answer(alloc: Global, wants: &Wants, answer: &Product, line: &mut String) -> io::Result<()>
    requires { InRange (length wants.now.patterns) wants.now.clauses }
{
    match answer {
        Product::Found(text) => write_text(text, line),
        Product::Empty(closed) => {
            line.push_str("closed")?;
            write_set(alloc, wants, closed, line)
        }
        Product::TooMany(texts) => {
            let count = texts.len();
            write!(line, "{count} texts")?;
            Ok(())
        }
    }
}

/// Writes what the product of the wants answers.
fn write_product(alloc: Global, wants: &Wants, limit: u32, line: &mut String) -> io::Result<()>
    requires range { InRange (length wants.now.patterns) wants.now.clauses }
    requires positive { 1 ≤ limit }
{
    let answer = product(alloc, wants, limit)?;
    write_answer(alloc, wants, &answer, line)
}

fn write_within(alloc: Global, limit: &str, texts: Texts, line: &mut String) -> io::Result<()> {
    match limit.parse::<u32>() {
        Ok(limit) if limit > 0 => write_product(alloc, &wants_of(alloc, texts)?, limit, line),
        _ => Err(ErrorKind::InvalidData.into()),
    }
}

/// The texts of three words.
fn texts_of(words: &str) -> Option<Texts<'_>> {
    let mut words = words.split(' ');
    Some(Texts {
        yes: words.next()?,
        no: words.next()?,
        other: words.next()?,
    })
}

fn write_of_words(alloc: Global, words: &str, line: &mut String) -> io::Result<()> {
    let (limit, texts) = words.split_once(' ').unwrap_or((words, ""));
    match texts_of(texts) {
        Some(texts) => write_within(alloc, limit, texts, line),
        None => Err(ErrorKind::InvalidData.into()),
    }
}

/// The answer to `LIMIT YES NO OTHER`.
pub(crate) fn product_answer(alloc: Global, asked: &str) -> io::Result<String> {
    let mut line = String::new(alloc);
    write_of_words(alloc, asked, &mut line)?;
    Ok(line)
}
