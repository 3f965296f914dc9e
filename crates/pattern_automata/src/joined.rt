//! A text that is tried before any product is made: what the patterns that are to match ask for between their stars,
//! one behind the other. Where hundreds are to match it spares product states of them all.
ghost use Rattle.std.specs.Prelude.{length, All, IfOk, IfSome, OnOk};
ghost use Rattle.std.specs.Char.{IsScalar};
ghost use Rattle.pattern_automata.specs.Closed.{InRange};
ghost use Rattle.pattern_automata.specs.Answer.{IsTextFor};

use crate::proposal::{is_one, push_least, unnamed, verified, wanted};
use crate::wants::Wants;
use plain_lists::NoMemory;
use std::alloc::Global;
use wildcard_lang::{Pattern, Piece, Text, matches};

/// The most patterns that are to match, times the pieces of all of them.
const MOST_JOINED: usize = 4_000_000;

/// Behind how many pieces the last character stands that the pattern names before its first wildcard for any number.
fn front_of(pattern: &Pattern) -> usize {
    let mut passed: usize = 0;
    let mut end: usize = 0;
    for piece in pattern.as_slice() {
        if piece.is_many() {
            return end;
        }
        passed = passed.saturating_add(1);
        if !is_one(*piece) {
            end = passed;
        }
    }
    end
}

/// Behind how many pieces the first character stands that the pattern names after its last wildcard for any number.
fn back_of(pattern: &Pattern) -> usize {
    let mut passed: usize = 0;
    let mut begin: usize = 0;
    let mut is_open = true;
    for piece in pattern.as_slice() {
        if is_open {
            begin = passed;
        }
        passed = passed.saturating_add(1);
        is_open = piece.is_many() || (is_open && is_one(*piece));
    }
    if is_open { passed } else { begin }
}

fn has_star(pattern: &Pattern) -> bool {
    pattern.as_slice().iter().any(|piece| piece.is_many())
}

/// The patterns that are to match, by clauses of one literal.
fn all_wanted<'a>(alloc: Global, wants: &'a Wants) -> Result<Vec<&'a Pattern>, NoMemory> {
    let mut all = Vec::new(alloc);
    for clause in wants.clauses.as_slice() {
        if let Some(pattern) = wanted(wants.patterns.as_slice(), clause.as_slice()) {
            all.push(pattern)?;
        }
    }
    Ok(all)
}

/// Whether there are several patterns, each with a wildcard for any number of characters, and not too many to try a
/// text of them all.
fn are_joinable(all: &[&Pattern]) -> bool {
    let mut pieces: usize = 0;
    for pattern in all {
        if !has_star(pattern) {
            return false;
        }
        pieces = pieces.saturating_add(pattern.len());
    }
    all.len() > 1 && pieces.saturating_mul(all.len()) <= MOST_JOINED
}

/// Of the patterns one that names most characters up to its first wildcard for any number.
fn longest_front<'a>(all: &[&'a Pattern]) -> Option<&'a Pattern> {
    let mut known = None;
    let mut most: usize = 0;
    for pattern in all {
        let count = front_of(pattern);
        if count > most {
            most = count;
            known = Some(*pattern);
        }
    }
    known
}

/// Of the patterns one that names most characters behind its last wildcard for any number.
fn longest_back<'a>(all: &[&'a Pattern]) -> Option<&'a Pattern> {
    let mut known = None;
    let mut most: usize = 0;
    for pattern in all {
        let count = pattern.len().saturating_sub(back_of(pattern));
        if count > most {
            most = count;
            known = Some(*pattern);
        }
    }
    known
}

/// What stands for the pieces that are wildcards.
#[derive(Clone, Copy)]
struct Fillers {
    /// For one that takes one character.
    one: char,
    /// For one that takes any number of characters, if anything does.
    many: Option<char>,
}

/// Adds what the piece takes: the least, but for what stands for wildcards.
fn push_taken(piece: Piece, fillers: Fillers, text: &mut Vec<char>) -> Result<(), NoMemory>
    requires { All IsScalar text.old.items }
    ensures { OnOk result (All IsScalar text.new.items) }
{
    match fillers.many {
        Some(many) if piece.is_many() => text.push(many)?,
        _ => push_least(piece, fillers.one, text)?,
    }
    Ok(())
}

/// Adds what the pieces between two places take.
fn push_between(
    pattern: &Pattern,
    from: usize,
    to: usize,
    fillers: Fillers,
    text: &mut Vec<char>,
) -> Result<(), NoMemory>
    requires { All IsScalar text.old.items }
    ensures { OnOk result (All IsScalar text.new.items) }
{
    for place in from..to {
        if let Some(piece) = pattern.as_slice().get(place) {
            push_taken(*piece, fillers, text)?;
        }
    }
    Ok(())
}

/// The text of the beginning and the end.
fn whole(alloc: Global, front: &[char], back: &[char]) -> Result<Text, NoMemory>
    requires front { All IsScalar front.now }
    requires back { All IsScalar back.now }
{
    let mut chars = Vec::from_slice(alloc, front)?;
    chars.extend_from_slice(back)?;
    Ok(Text::from_chars(chars))
}

/// With how many characters at most the front ends that the back begins with.
fn overlap(front: &[char], back: &[char]) -> usize {
    for count in (1..front.len().min(back.len()) + 1).rev() {
        let (_, end) = front.split_at(front.len() - count);
        let (begin, _) = back.split_at(count);
        if end == begin {
            return count;
        }
    }
    0
}

/// The longest beginning and the longest end that the patterns ask for, and between them what each pattern asks for
/// that doesn't match without.
fn joined_by(alloc: Global, all: &[&Pattern], fillers: Fillers) -> Result<Text, NoMemory> {
    let mut front = Vec::new(alloc);
    let mut back = Vec::new(alloc);
    if let Some(pattern) = longest_front(all) {
        push_between(pattern, 0, front_of(pattern), fillers, &mut front)?;
    }
    if let Some(pattern) = longest_back(all) {
        push_between(pattern, back_of(pattern), pattern.len(), fillers, &mut back)?;
    }
    for pattern in all {
        if !matches(pattern, &whole(alloc, front.as_slice(), back.as_slice())?) {
            let (from, to) = (front_of(pattern), back_of(pattern));
            push_between(pattern, from, to, fillers, &mut front)?;
        }
    }
    let shared = overlap(front.as_slice(), back.as_slice());
    front.truncate(front.len().saturating_sub(shared));
    whole(alloc, front.as_slice(), back.as_slice())
}

/// A joined text, where one meets the wants: the shortest, or one with a character that no pattern names for each
/// wildcard, which patterns that are not to match mostly don't.
pub fn joined(alloc: Global, wants: &Wants) -> Result<Option<Text>, NoMemory>
    requires { InRange (length wants.now.patterns) wants.now.clauses }
    ensures { IfOk result (λ found. IfSome found (IsTextFor wants.now)) }
{
    let all = all_wanted(alloc, wants)?;
    if !are_joinable(all.as_slice()) {
        return Ok(None);
    }
    let Some(one) = unnamed(alloc, wants.patterns.as_slice())? else {
        return Ok(None);
    };
    let close = joined_by(alloc, all.as_slice(), Fillers { one, many: None })?;
    if let Some(text) = verified(wants, close) {
        return Ok(Some(text));
    }
    let many = Some(one);
    let apart = joined_by(alloc, all.as_slice(), Fillers { one, many })?;
    Ok(verified(wants, apart))
}
