//! Whether the marks of a product state meet clauses.
ghost use Rattle.std.specs.Prelude.{◌≡◌, ◌*◌, ◌+◌, ◌<◌, ℕ, [], false, length, slice_index, slice_index_or, All, IfOk, IfSome, OnOk, OnErr, ◌++◌, ◌∷◌};
ghost use Rattle.pattern_automata.specs.Closed.{InRange};
ghost use Rattle.pattern_automata.specs.Marks.{mark_count};
ghost use Rattle.pattern_automata.specs.Packed.{word_mark};
ghost use Rattle.pattern_automata.specs.Tree.{IsEnds, words_meet, words_meet_clause};

use crate::wants::{Literal, LiteralList};
use crate::words::has_mark;
use plain_lists::NoMemory;
use std::alloc::{AllocError, Global};
use wildcard_lang::Pattern;

/// How many marks the patterns have, or want of memory where one mark more could not be numbered.
pub fn total_of(patterns: &[Pattern]) -> Result<usize, NoMemory>
    ensures value { IfOk result (λ n. n ≡ mark_count patterns.now) }
    ensures room { IfOk result (λ n. n < usize.MAX) }
{
    match sum_of(patterns) {
        Some(sum) if sum < usize::MAX => Ok(sum),
        _ => Err(AllocError),
    }
}

/// How many marks the patterns have, if a number of the type can say it.
fn sum_of(patterns: &[Pattern]) -> Option<usize>
    ensures { IfSome result (λ n. n ≡ mark_count patterns.now) }
{
    let mut sum: usize = 0;
    for pattern in patterns {
        sum = sum.checked_add(pattern.len())?.checked_add(1)?;
    }
    Some(sum)
}

/// The last mark of each pattern.
pub fn ends_of(alloc: Global, patterns: &[Pattern]) -> Result<Vec<usize>, NoMemory>
    requires { mark_count patterns.now < usize.MAX }
    ensures { IfOk result (λ v. IsEnds patterns.now v.items) }
{
    let mut ends = Vec::new(alloc);
    let mut at = 0;
    for pattern in patterns {
        let end = at + pattern.len();
        ends.push(end)?;
        at = end + 1;
    }
    Ok(ends)
}

/// Whether a literal of the clause is met.
fn words_meet_clause(ends: &[usize], literals: &[Literal], words: &[u64]) -> bool
    requires range { All (λ l. l.pattern < length ends.now) literals.now }
    requires within { All (λ e. e < 64 * length words.now) ends.now }
    ensures { result ≡ words_meet_clause ends.now literals.now words.now }
{
    for literal in literals {
        if has_mark(words, ends[literal.pattern as usize]) == literal.holds {
            return true;
        }
    }
    false
}

/// Whether each clause is met.
pub fn clauses_met(ends: &[usize], clauses: &[LiteralList], words: &[u64]) -> bool
    requires range { InRange (length ends.now) clauses.now }
    requires within { All (λ e. e < 64 * length words.now) ends.now }
    ensures { result ≡ words_meet ends.now clauses.now words.now }
{
    for clause in clauses {
        if !words_meet_clause(ends, clause.as_slice(), words) {
            return false;
        }
    }
    true
}
