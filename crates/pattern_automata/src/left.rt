//! How many pieces are left until a product state meets the wants. It leads a search, and no more.

use crate::machine::Machine;
use crate::wants::{Literal, Wants};
use crate::words::is_on;
use wildcard_lang::{Pattern, Piece};

/// Whether there is such a mark, and is set.
fn is_marked(words: &[u64], mark: usize) -> bool {
    match words.get(mark / 64) {
        Some(word) => is_on(*word, mark % 64),
        None => false,
    }
}

/// The bits of the word at an index that stand for marks from one on up to another.
fn bits_between(words: &[u64], index: usize, from: usize, to: usize) -> u64 {
    let mut word = match words.get(index) {
        Some(word) => *word,
        None => return 0,
    };
    if index == from / 64 {
        word = (word >> (from % 64)) << (from % 64);
    }
    if index == to / 64 {
        word = (word << (63 - to % 64)) >> (63 - to % 64);
    }
    word
}

/// The last mark that is set from one on up to another.
fn last_marked(words: &[u64], from: usize, to: usize) -> Option<usize> {
    for index in (from / 64..to / 64 + 1).rev() {
        let bits = bits_between(words, index, from, to);
        if bits != 0 {
            let zeros = bits.leading_zeros() as usize;
            return Some(
                index
                    .saturating_mul(64)
                    .saturating_add(63usize.saturating_sub(zeros)),
            );
        }
    }
    None
}

/// How many marks are set from one on up to another.
fn count_between(words: &[u64], from: usize, to: usize) -> usize {
    let mut count: usize = 0;
    for index in from / 64..to / 64 + 1 {
        let bits = bits_between(words, index, from, to);
        count = count.saturating_add(bits.count_ones() as usize);
    }
    count
}

/// How many pieces for one character are behind the last place of the pattern that is marked.
fn pieces_left(machine: &Machine, pattern: &Pattern, end: usize, words: &[u64]) -> Option<usize> {
    let last = last_marked(words, end.saturating_sub(pattern.len()), end)?;
    if last == end {
        return Some(0);
    }
    let behind = last.saturating_add(1);
    let stars = count_between(machine.masks.many.as_slice(), behind, end);
    Some(end.saturating_sub(last).saturating_sub(stars))
}

/// How many characters at least a pattern that is not to match needs for that, if it can.
fn escape(pattern: &Pattern, end: usize, words: &[u64]) -> Option<usize> {
    if !is_marked(words, end) {
        return Some(0);
    }
    match pattern.as_slice().last() {
        Some(Piece::Many) => None,
        _ => Some(1),
    }
}

/// How much is left of a literal.
fn literal_left(
    wants: &Wants,
    machine: &Machine,
    literal: Literal,
    words: &[u64],
) -> Option<usize> {
    let number = literal.pattern as usize;
    let pattern = wants.patterns.as_slice().get(number)?;
    let end = *machine.ends.as_slice().get(number)?;
    if literal.holds {
        pieces_left(machine, pattern, end, words)
    } else {
        escape(pattern, end, words)
    }
}

/// The lesser of two numbers; either may be absent.
fn less(known: Option<usize>, other: Option<usize>) -> Option<usize> {
    match (known, other) {
        (Some(a), Some(b)) => Some(a.min(b)),
        (Some(a), None) => Some(a),
        (None, b) => b,
    }
}

/// The least that is left of a literal of the clause.
fn clause_left(
    wants: &Wants,
    machine: &Machine,
    literals: &[Literal],
    words: &[u64],
) -> Option<usize> {
    let mut least = None;
    for literal in literals {
        least = less(least, literal_left(wants, machine, *literal, words));
    }
    least
}

/// How much is left of all clauses, if they can be met.
pub fn words_left(wants: &Wants, machine: &Machine, words: &[u64]) -> Option<usize> {
    let mut left: usize = 0;
    for clause in wants.clauses.as_slice() {
        left = left.saturating_add(clause_left(wants, machine, clause.as_slice(), words)?);
    }
    Some(left)
}
