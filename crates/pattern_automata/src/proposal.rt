//! A text that is tried before any product is made: a shortest one of the pattern that asks for most
//! characters, whose last wildcards take what the other patterns name; or one of all patterns.
ghost use Rattle.std.specs.Prelude.{◌≡◌, ◌↔◌, ◌<◌, length, All, Any, IfOk, IfSome, IsTrue, OnOk};
ghost use Rattle.std.specs.Char.{IsScalar};
ghost use Rattle.pattern_automata.specs.Closed.{InRange, IsLiteralMet, Meets};
ghost use Rattle.pattern_automata.specs.Answer.{IsTextFor};

use crate::joined::joined;
use crate::names::{named_characters, spare};
use crate::wants::{Literal, LiteralList, Wants};
use plain_lists::NoMemory;
use std::alloc::Global;
use wildcard_lang::{Pattern, Piece, Text, matches};

/// The character that stands for those that a wildcard takes, unless a pattern names it.
const ANY: char = 'x';

/// Whether the literal is met by the text.
fn literal_met(patterns: &[Pattern], literal: Literal, text: &Text) -> bool
    requires { literal.pattern < length patterns.now }
    ensures { IsTrue result ↔ IsLiteralMet patterns.now text.now literal }
{
    matches(&patterns[literal.pattern as usize], text) == literal.holds
}

/// Whether a literal of the clause is met by the text. Where it says so it is.
fn clause_met(patterns: &[Pattern], literals: &[Literal], text: &Text) -> bool
    requires { All (λ l. l.pattern < length patterns.now) literals.now }
    ensures { IsTrue result → Any (IsLiteralMet patterns.now text.now) literals.now }
{
    for literal in literals {
        if literal_met(patterns, *literal, text) {
            return true;
        }
    }
    false
}

/// Whether each clause is met by the text.
fn all_met(patterns: &[Pattern], clauses: &[LiteralList], text: &Text) -> bool
    requires { InRange (length patterns.now) clauses.now }
    ensures { IsTrue result → Meets patterns.now clauses.now text.now }
{
    for clause in clauses {
        if !clause_met(patterns, clause.as_slice(), text) {
            return false;
        }
    }
    true
}

/// How many characters a text that the pattern matches has at least.
fn least_length(pattern: &Pattern) -> usize {
    let mut least: usize = 0;
    for piece in pattern.as_slice() {
        least = least.saturating_add(usize::from(!piece.is_many()));
    }
    least
}

/// The pattern that is to match, where the clause says so of one alone.
pub fn wanted<'a>(patterns: &'a [Pattern], clause: &[Literal]) -> Option<&'a Pattern> {
    match clause {
        [literal] if literal.holds => patterns.get(literal.pattern as usize),
        _ => None,
    }
}

/// Of two patterns the one that asks for more characters.
fn longer<'a>(known: Option<&'a Pattern>, other: &'a Pattern) -> &'a Pattern {
    match known {
        Some(pattern) if least_length(pattern) >= least_length(other) => pattern,
        _ => other,
    }
}

/// Of the patterns that are to match one that asks for most characters.
fn longest(wants: &Wants) -> Option<&Pattern> {
    let patterns = wants.patterns.as_slice();
    let mut known = None;
    for clause in wants.clauses.as_slice() {
        if let Some(pattern) = wanted(patterns, clause.as_slice()) {
            known = Some(longer(known, pattern));
        }
    }
    known
}

/// Whether the pattern names that character.
fn names_any(pattern: &Pattern) -> bool {
    pattern
        .as_slice()
        .iter()
        .any(|p| matches!(p, Piece::Lit(ANY) | Piece::LitFold(ANY)))
}

/// Whether one of the patterns does.
fn is_named(patterns: &[Pattern]) -> bool {
    patterns.iter().any(|p| names_any(p))
}

/// Whether the piece takes any one character, but for a colon maybe.
pub fn is_one(piece: Piece) -> bool {
    matches!(piece, Piece::One | Piece::OneNoColon)
}

/// Whether a piece takes any one character.
fn asks_any(pattern: &Pattern) -> bool {
    pattern.as_slice().iter().any(|p| is_one(*p))
}

/// A character that none of the patterns names, if there is one.
pub fn unnamed(alloc: Global, patterns: &[Pattern]) -> Result<Option<char>, NoMemory> {
    if !is_named(patterns) {
        return Ok(Some(ANY));
    }
    let named = named_characters(alloc, patterns)?;
    Ok(spare(&named))
}

/// The character that stands for those that a wildcard of the pattern takes: the one by which a search
/// steps for all that none of the patterns names, if there is one.
fn any_of(
    alloc: Global,
    patterns: &[Pattern],
    pattern: &Pattern,
) -> Result<Option<char>, NoMemory> {
    if asks_any(pattern) {
        return unnamed(alloc, patterns);
    }
    Ok(Some(ANY))
}

/// Adds the least that the piece takes, a wildcard the given character.
pub fn push_least(piece: Piece, any: char, text: &mut Vec<char>) -> Result<(), NoMemory>
    requires { All IsScalar text.old.items }
    ensures { OnOk result (All IsScalar text.new.items) }
{
    match piece {
        Piece::Lit(c) | Piece::LitFold(c) => text.push(c)?,
        Piece::One | Piece::OneNoColon => text.push(any)?,
        Piece::Many | Piece::ManyNoColon => {}
    }
    Ok(())
}

/// How many of the pieces take any one character.
fn wildcards_of(pattern: &Pattern) -> usize {
    let mut count: usize = 0;
    for piece in pattern.as_slice() {
        count = count.saturating_add(usize::from(is_one(*piece)));
    }
    count
}

/// What a wildcard takes before which there are so many: from the first on the named ones in turn.
fn taken_at(passed: usize, first: usize, any: char, named: &[char]) -> char {
    if passed < first {
        return any;
    }
    *named.get(passed - first).unwrap_or(&any)
}

/// A shortest text that the pattern matches: its last wildcards for one character take the named ones in
/// turn, and those before them the given one.
fn shortest(alloc: Global, pattern: &Pattern, any: char, named: &[char]) -> Result<Text, NoMemory> {
    let mut chars = Vec::with_capacity(alloc, pattern.len())?;
    let first = wildcards_of(pattern).saturating_sub(named.len());
    let mut passed: usize = 0;
    for piece in pattern.as_slice() {
        push_least(*piece, taken_at(passed, first, any, named), &mut chars)?;
        passed = passed.saturating_add(usize::from(is_one(*piece)));
    }
    Ok(Text::from_chars(chars))
}

/// Adds the characters that the pattern's pieces name, in their order.
fn push_named(pattern: &Pattern, named: &mut Vec<char>) -> Result<(), NoMemory> {
    for piece in pattern.as_slice() {
        if let Piece::Lit(c) | Piece::LitFold(c) = piece {
            named.push(*c)?;
        }
    }
    Ok(())
}

/// What the patterns name that are to match, and don't match the text.
fn missing(alloc: Global, wants: &Wants, text: &Text) -> Result<Vec<char>, NoMemory> {
    let mut named = Vec::new(alloc);
    let patterns = wants.patterns.as_slice();
    for clause in wants.clauses.as_slice() {
        if let Some(pattern) = wanted(patterns, clause.as_slice()) {
            if !matches(pattern, text) {
                push_named(pattern, &mut named)?;
            }
        }
    }
    Ok(named)
}

/// The text, where it meets the wants and isn't empty.
pub fn verified(wants: &Wants, text: Text) -> Option<Text>
    requires { InRange (length wants.now.patterns) wants.now.clauses }
    ensures { IfSome result (IsTextFor wants.now) }
{
    if text.is_empty() {
        return None;
    }
    let patterns = wants.patterns.as_slice();
    let clauses = wants.clauses.as_slice();
    if all_met(patterns, clauses, &text) {
        return Some(text);
    }
    None
}

/// The text of the pattern that asks for most characters, where it meets the wants.
fn of_longest(alloc: Global, wants: &Wants) -> Result<Option<Text>, NoMemory>
    requires { InRange (length wants.now.patterns) wants.now.clauses }
    ensures { IfOk result (λ found. IfSome found (IsTextFor wants.now)) }
{
    let Some(pattern) = longest(wants) else {
        return Ok(None);
    };
    let Some(any) = any_of(alloc, wants.patterns.as_slice(), pattern)? else {
        return Ok(None);
    };
    let text = shortest(alloc, pattern, any, &[])?;
    let wildcards = wildcards_of(pattern);
    if wildcards == 0 {
        return Ok(verified(wants, text));
    }
    let named = missing(alloc, wants, &text)?;
    if named.is_empty() {
        return Ok(verified(wants, text));
    }
    if named.len() > wildcards {
        return Ok(None);
    }
    let text = shortest(alloc, pattern, any, named.as_slice())?;
    Ok(verified(wants, text))
}

/// A proposed text, where one meets the wants.
pub fn proposed(alloc: Global, wants: &Wants) -> Result<Option<Text>, NoMemory>
    requires { InRange (length wants.now.patterns) wants.now.clauses }
    ensures { IfOk result (λ found. IfSome found (IsTextFor wants.now)) }
{
    if let Some(text) = of_longest(alloc, wants)? {
        return Ok(Some(text));
    }
    joined(alloc, wants)
}
