//! What patterns are read as, what they match, and whether one covers or clashes with another.
use std::alloc::Global;
use std::io;
use std::str::Split;
use wildcard_lang::{
    MOST_PIECES, NoMemory, Pattern, PatternFault, Text, clashes, covers, matches, matches_str,
    read_arn, read_glob, read_literal, write_action, write_pattern,
};

/// The pattern of a kind: `glob`, `literal` or `arn`, in capitals with escapes, and with `+` folded;
/// `itself` takes the characters of the text as they are, and `action` is folded.
fn read(alloc: Global, kind: &str, own: &str) -> Result<Pattern, PatternFault> {
    match kind {
        "glob" => read_glob(alloc, own, false, false),
        "glob+" | "action" => read_glob(alloc, own, true, false),
        "GLOB" => read_glob(alloc, own, false, true),
        "GLOB+" => read_glob(alloc, own, true, true),
        "literal" => read_literal(alloc, own, false, false),
        "literal+" => read_literal(alloc, own, true, false),
        "LITERAL" => read_literal(alloc, own, false, true),
        "LITERAL+" => read_literal(alloc, own, true, true),
        "arn" => read_arn(alloc, own, false),
        "ARN" => read_arn(alloc, own, true),
        _ => literal(alloc, &Text::of(alloc, own)?),
    }
}

fn literal(alloc: Global, text: &Text) -> Result<Pattern, PatternFault> {
    if text.len() > MOST_PIECES {
        return Err(PatternFault::TooLong);
    }
    Ok(Pattern::literal(alloc, text)?)
}

fn fault_name(fault: PatternFault) -> &'static str {
    match fault {
        PatternFault::ArnParts => "ArnParts",
        PatternFault::PolicyVariable => "PolicyVariable",
        PatternFault::TooLong => "TooLong",
        PatternFault::NoMemory => "NoMemory",
    }
}

/// What the two calls that match say, where they agree.
fn mark(pattern: &Pattern, chars: &Text, text: &str) -> char {
    match (matches(pattern, chars), matches_str(pattern, text)) {
        (true, true) => 'y',
        (false, false) => 'n',
        _ => '?',
    }
}

/// The pattern of a kind, written again: that of an action without escapes.
fn written(alloc: Global, kind: &str, pattern: &Pattern) -> Result<Text, NoMemory> {
    match kind {
        "action" => write_action(alloc, pattern),
        _ => write_pattern(alloc, &pattern.copy()?),
    }
}

fn show(
    alloc: Global,
    answer: &mut String,
    kind: &str,
    pattern: &Pattern,
    texts: Split<'_, char>,
) -> io::Result<()> {
    answer.push_str(&written(alloc, kind, pattern)?.to_utf8()?)?;
    answer.push('\t')?;
    for text in texts {
        answer.push(mark(pattern, &Text::of(alloc, text)?, text))?;
    }
    Ok(())
}

fn show_folded(alloc: Global, answer: &mut String, texts: Split<'_, char>) -> io::Result<()> {
    for text in texts {
        answer.push_str(&Text::of(alloc, text)?.copy()?.folded()?.to_utf8()?)?;
        answer.push('\t')?;
    }
    Ok(())
}

fn told(is: bool) -> char {
    if is { 'y' } else { 'n' }
}

fn push_told(answer: &mut String, first: &Pattern, second: &Pattern) -> io::Result<()> {
    answer.push(told(covers(first, second)))?;
    answer.push(told(covers(second, first)))?;
    answer.push(told(clashes(first, second)))?;
    Ok(())
}

fn show_pair(alloc: Global, answer: &mut String, mut words: Split<'_, char>) -> io::Result<()> {
    let first = read(
        alloc,
        words.next().unwrap_or(""),
        words.next().unwrap_or(""),
    );
    let second = read(
        alloc,
        words.next().unwrap_or(""),
        words.next().unwrap_or(""),
    );
    match (first, second) {
        (Ok(first), Ok(second)) => push_told(answer, &first, &second),
        _ => Ok(answer.push_str("refused")?),
    }
}

fn push_answer(alloc: Global, answer: &mut String, line: &str) -> io::Result<()> {
    let mut words = line.split('\t');
    let kind = words.next().unwrap_or("");
    if kind == "text" {
        return show_folded(alloc, answer, words);
    }
    if kind == "pair" {
        return show_pair(alloc, answer, words);
    }
    match read(alloc, kind, words.next().unwrap_or("")) {
        Ok(pattern) => show(alloc, answer, kind, &pattern, words),
        Err(fault) => Ok(answer.push_str(fault_name(fault))?),
    }
}

/// The answer to a kind, a pattern and texts, with tabs between them.
pub(crate) fn pattern_answer(alloc: Global, line: &str) -> io::Result<String> {
    let mut answer = String::new(alloc);
    push_answer(alloc, &mut answer, line)?;
    Ok(answer)
}
