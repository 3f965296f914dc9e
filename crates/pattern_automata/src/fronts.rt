//! The pieces before the marks of patterns.
ghost use Rattle.std.specs.Prelude.{◌≡◌, ◌*◌, ◌+◌, ◌/◌, ◌<◌, ◌≤◌, ◌++◌, ◌∷◌, ℕ, None, Some, length, map, IfOk, OnOk};
ghost use Rattle.pattern_automata.specs.Moves.{piece_does, fronts, piece_test, takes_others};
ghost use Rattle.pattern_automata.specs.Packed.{is_bit_on, word_mark};

use plain_lists::NoMemory;
use std::alloc::Global;
use wildcard_lang::{Pattern, Piece};

/// What a piece does to marks.
#[derive(Clone, Copy)]
pub enum Kind {
    /// At the character it passes on the mark before it.
    Passes(char),
    /// At the character it keeps the mark behind it.
    Keeps(char),
    /// At a character that no piece names it passes on the mark before it.
    PassesOthers,
    /// It leads on without a character, and at one that no piece names it keeps the mark behind it.
    Leads,
}

/// Whether the piece takes the characters that no piece names.
fn takes_others(piece: Piece) -> bool
    ensures { result ≡ takes_others piece }
{
    !matches!(piece, Piece::Lit(_) | Piece::LitFold(_))
}

/// Whether the piece does this.
fn piece_test(kind: Kind, piece: Piece) -> bool
    ensures { result ≡ piece_test kind piece }
{
    match kind {
        Kind::Passes(c) => !piece.is_many() & piece.takes(c),
        Kind::Keeps(c) => piece.is_many() & piece.takes(c),
        Kind::PassesOthers => !piece.is_many() & takes_others(piece),
        Kind::Leads => piece.is_many(),
    }
}

/// Whether there is a piece before the mark, and does this.
fn piece_does(fronts: &[Option<Piece>], mark: usize, kind: Kind) -> bool
    ensures { result ≡ piece_does kind fronts.now mark }
{
    match fronts.get(mark) {
        Some(Some(piece)) => piece_test(kind, *piece),
        _ => false,
    }
}

/// Adds the fronts of a pattern. Before its first mark there is no piece.
fn push_fronts(pattern: &Pattern, fronts: &mut Vec<Option<Piece>>) -> Result<(), NoMemory>
    ensures { OnOk result (fronts.new.items ≡ fronts.old.items ++ None ∷ map Some pattern.now) }
{
    fronts.push(None)?;
    for piece in pattern.as_slice() {
        fronts.push(Some(*piece))?;
    }
    Ok(())
}

/// The pieces before the marks of the patterns. There are `count` marks.
pub fn fronts_of(
    alloc: Global,
    patterns: &[Pattern],
    count: usize,
) -> Result<Vec<Option<Piece>>, NoMemory>
    ensures { IfOk result (λ v. v.items ≡ fronts patterns.now) }
{
    let mut fronts = Vec::with_capacity(alloc, count)?;
    for pattern in patterns {
        push_fronts(pattern, &mut fronts)?;
    }
    Ok(fronts)
}

/// The word at an index of what the fronts do.
pub fn word_at(fronts: &[Option<Piece>], index: usize, kind: Kind) -> u64
    requires { 64 * index ≤ length fronts.now }
    ensures { (b : ℕ) → b < 64 → is_bit_on result b ≡ piece_does kind fronts.now (64 * index + b) }
{
    let mut word = 0;
    let mut i = 64;
    while i > 0 {
        i -= 1;
        word = word * 2 + u64::from(piece_does(fronts, 64 * index + i, kind));
    }
    word
}

/// The words of what the fronts do.
pub fn words_by(alloc: Global, fronts: &[Option<Piece>], kind: Kind) -> Result<Vec<u64>, NoMemory>
    ensures count { IfOk result (λ v. length v.items ≡ length fronts.now / 64 + 1) }
    ensures marks { IfOk result
        (λ v. (j : ℕ) → word_mark v.items j ≡ piece_does kind fronts.now j) }
{
    let mut words = Vec::new(alloc);
    for index in 0..fronts.len() / 64 + 1 {
        words.push(word_at(fronts, index, kind))?;
    }
    Ok(words)
}
