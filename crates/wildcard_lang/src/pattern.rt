//! Patterns as lists of pieces.
ghost use Rattle.std.specs.Prelude.{◌≡◌, ◌≤◌, false, length, slice_get, IfOk};
ghost use Rattle.std.specs.Option.{option_copied};
ghost use Rattle.std.proofs.Common.{rules};
ghost use Rattle.wildcard_lang.specs.Patterns.{IsPattern};
ghost use Rattle.wildcard_lang.specs.Reading.{literals};

use crate::piece::Piece;
use crate::text::Text;
use plain_lists::{EqualClone, List, NoMemory};
use std::alloc::{AllocError, Global};
use std::marker::Model;

/// The most pieces that a pattern has.
pub const MOST_PIECES: usize = 2048;

/// A pattern: at most 2,048 pieces. Its folded pieces hold lower-case ASCII letters, and no wildcard
/// that takes colons stands before one that takes none. It keeps its allocator.
#[derive(Drop)]
pub struct Pattern {
    pieces: Vec<Piece>,
}

impl Model for Pattern {
    ghost use Rattle.std.specs.Prelude.{List};
    ghost use Rattle.wildcard_lang.specs.Patterns.{IsPattern};
    ghost use Rattle.wildcard_lang.specs.declared.piece.Piece.{Piece};

    ghost Value = { List Piece };

    ghost view = { λ p. p.pieces.items };

    ghost invariant = { λ p. IsPattern p.pieces.items };
}

/// A list of patterns.
pub type PatternList = List<Pattern>;

impl Pattern {
    /// The pattern of these pieces. It takes no memory.
    pub fn from_pieces(pieces: Vec<Piece>) -> Pattern
        requires { IsPattern pieces.items }
        ensures { result ≡ pieces.items }
    {
        Pattern { pieces }
    }

    /// The pattern that takes the characters of the text, one by one, and so matches it alone.
    pub fn literal(alloc: Global, text: &Text) -> Result<Pattern, NoMemory>
        requires { length text.now ≤ MOST_PIECES }
        ensures { IfOk result (λ p. p ≡ literals false text.now) }
    {
        let pieces = literals(alloc, text.as_slice())?;
        Ok(Pattern { pieces })
    }

    /// How many pieces there are.
    pub fn len(&self) -> usize
        ensures value { result ≡ length self.now }
        ensures pattern { IsPattern self.now }
    {
        self.pieces.len()
    }

    /// The pieces.
    pub fn as_slice(&self) -> &[Piece]
        ensures value { result.now ≡ self.now }
        ensures pattern { IsPattern self.now }
    {
        self.pieces.as_slice()
    }

    /// The piece at an index, counted from 0, or none where the pattern has no such index.
    pub fn get(&self, i: usize) -> Option<&Piece>
        ensures { option_copied result ≡ slice_get self.now i }
    {
        self.pieces.as_slice().get(i)
    }

    /// An equal pattern.
    pub fn copy(&self) -> Result<Pattern, NoMemory>
        ensures { IfOk result (λ p. p ≡ self.now) }
    {
        let pieces = self.pieces.clone()?;
        Ok(Pattern { pieces })
    }
}

fn literals(alloc: Global, chars: &[char]) -> Result<Vec<Piece>, AllocError>
    ensures { IfOk result (λ v. v.items ≡ literals false chars.now) }
{
    chars.iter().map(|c| Piece::Lit(*c)).collect(alloc)
}

impl Clone for Pattern {
    ghost is_clone = { λ p q. q ≡ p };

    fn clone(&self) -> Result<Pattern, NoMemory> {
        self.copy()
    }
}

impl EqualClone for Pattern {
    ghost clones_are_equal = { Prim.search rules };
}
