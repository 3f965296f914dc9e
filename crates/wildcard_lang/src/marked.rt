//! Patterns with marks. Most pairs that don't cover one another, or that clash, differ in their marks.
ghost use Rattle.std.specs.Prelude.{◌≡◌, ◌↔◌, IsTrue};
ghost use Rattle.wildcard_lang.specs.Covering.{Clash, CoversPattern};
ghost use Rattle.wildcard_lang.specs.Neighbours.{bit_of, edge, folded_character, neighbour_bit, neighbour_bits};
ghost use Rattle.wildcard_lang.specs.FrontSums.{AreOfOtherFronts, front_sum, next_sum};

use crate::covering::{clashes, covers};
use crate::pattern::Pattern;
use crate::piece::Piece;
use std::marker::Model;

// How many bits stand for neighbours.
const NEIGHBOUR_BITS: u32 = 128;

// By what the first of two neighbours is multiplied, before the second is added, for the number of their bit.
const BITS_APART: u32 = 45;

// By what a sum is multiplied before the next character is added.
const SUM_FACTOR: u32 = 31;

// How many pieces at the front of a pattern are summed up.
const SHORT_FRONT: usize = 16;

// The length of a front where most patterns begin alike.
const LONG_FRONT: usize = 32;

/// A pattern with bits that stand for its neighbouring characters, and with sums of its first characters. A pattern
/// that covers another has only bits that the other has, and patterns whose sums differ clash. So most pairs are
/// decided by one comparison. Contracts see it as the pattern.
#[derive(Drop)]
pub struct MarkedPattern<'a> {
    pattern: &'a Pattern,
    bits: u128,
    short: u32,
    long: u32,
}

impl<'a> Model for MarkedPattern<'a> {
    ghost use Rattle.std.specs.Prelude.{◌≡◌, List};
    ghost use Rattle.wildcard_lang.specs.declared.piece.Piece.{Piece};
    ghost use Rattle.wildcard_lang.specs.Neighbours.{edge, neighbour_bits};
    ghost use Rattle.wildcard_lang.specs.FrontSums.{front_sum};
    ghost use Rattle.wildcard_lang.specs.declared.marked.TheConstants.{SHORT_FRONT, LONG_FRONT};

    ghost Value = { List Piece };

    ghost view = { λ m. m.pattern.now };

    ghost invariant = { λ m. (m.bits ≡ neighbour_bits edge m.pattern.now) ×
        (m.short ≡ front_sum SHORT_FRONT 0 m.pattern.now) ×
        (m.long ≡ front_sum LONG_FRONT 0 m.pattern.now) };
}

// The character of a literal piece, a letter as its lower-case one.
fn folded_character(piece: Piece) -> Option<char>
    ensures { result ≡ folded_character piece }
{
    match piece {
        Piece::Lit(c) | Piece::LitFold(c) => Some(c.to_ascii_lowercase()),
        Piece::One | Piece::Many | Piece::OneNoColon | Piece::ManyNoColon => None,
    }
}

// The bit of two characters beside one another.
fn bit_of(c: char, next: char) -> u128
    ensures { result ≡ bit_of c next }
{
    1 << ((u32::from(c) * BITS_APART + u32::from(next)) % NEIGHBOUR_BITS)
}

// The bit of neighbours, where both are characters.
fn neighbour_bit(before: Option<char>, own: Option<char>) -> u128
    ensures { result ≡ neighbour_bit before own }
{
    match (before, own) {
        (Some(c), Some(next)) => bit_of(c, next),
        _ => 0,
    }
}

// The bits of the pieces, whose ends stand beside the character 0.
fn neighbour_bits(pieces: &[Piece]) -> u128
    ensures { result ≡ neighbour_bits edge pieces.now }
{
    let mut bits = 0;
    let mut before = Some('\0');
    'pieces: for piece in pieces {
        let own = folded_character(*piece);
        bits = bits | neighbour_bit(before, own);
        before = own;
    }
    bits | neighbour_bit(before, Some('\0'))
}

// The sum with one character more.
fn next_sum(sum: u32, c: char) -> u32
    ensures { result ≡ next_sum sum c }
{
    sum.wrapping_mul(SUM_FACTOR).wrapping_add(u32::from(c))
}

// The sum of the first characters, as many as `count` says, or 0 where a wildcard or the end comes before.
fn front_sum(pieces: &[Piece], count: usize) -> u32
    ensures { result ≡ front_sum count 0 pieces.now }
{
    let mut rest = pieces;
    let mut sum = 0;
    'front: for _ in 0..count {
        let [piece, more @ ..] = rest else {
            return 0;
        };
        let Some(c) = folded_character(*piece) else {
            return 0;
        };
        sum = next_sum(sum, c);
        rest = more;
    }
    sum
}

// Whether the sums are of fronts, and differ.
fn differ(sum: u32, other: u32) -> bool
    ensures { IsTrue result ↔ AreOfOtherFronts sum other }
{
    sum != other && sum != 0 && other != 0
}

impl<'a> MarkedPattern<'a> {
    /// The pattern with its marks. It takes no memory.
    pub fn of(pattern: &'a Pattern) -> MarkedPattern<'a>
        ensures { result ≡ pattern.now }
    {
        MarkedPattern {
            pattern,
            bits: neighbour_bits(pattern.as_slice()),
            short: front_sum(pattern.as_slice(), SHORT_FRONT),
            long: front_sum(pattern.as_slice(), LONG_FRONT),
        }
    }

    /// The pattern itself.
    pub fn pattern(&self) -> &'a Pattern
        ensures { result.now ≡ self.now }
    {
        self.pattern
    }

    /// Whether the pattern covers the other, as `covers` decides.
    pub fn covers(&self, other: &MarkedPattern<'_>) -> bool
        ensures { IsTrue result ↔ CoversPattern self.now other.now }
    {
        if self.bits | other.bits != other.bits {
            return false;
        }
        covers(self.pattern, other.pattern)
    }

    /// Whether the pattern and the other clash, as `clashes` decides.
    pub fn clashes(&self, other: &MarkedPattern<'_>) -> bool
        ensures { IsTrue result ↔ Clash self.now other.now }
    {
        if differ(self.short, other.short) {
            return true;
        }
        if differ(self.long, other.long) {
            return true;
        }
        clashes(self.pattern, other.pattern)
    }
}
