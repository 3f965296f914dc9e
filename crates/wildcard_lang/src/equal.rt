//! Patterns compared piece by piece, and hashed.
ghost use Rattle.std.specs.Cmp.Lexicographic.{lists_equiv, lists_per, pointwise};
ghost use Rattle.std.specs.Hash as fed;
ghost use Rattle.wildcard_lang.specs.contracts.piece.PieceEq.TheImpl.Laws as equal_pieces;
ghost use Rattle.wildcard_lang.specs.contracts.piece.PieceHash.TheImpl as hashed_piece;
ghost use Rattle.wildcard_lang.specs.contracts.piece.PieceHash.TheImpl.Laws as hashed_pieces;
ghost use Rattle.wildcard_lang.specs.contracts.piece.PiecePartialEq.TheImpl as compared_piece;
ghost use Rattle.wildcard_lang.specs.contracts.piece.PiecePartialEq.TheImpl.Laws as compared_pieces;

use crate::pattern::Pattern;
use std::hash::{Hash, Hasher};

impl PartialEq for Pattern {
    ghost eq = { pointwise compared_piece.eq-value.it };

    ghost laws = { lists_per compared_pieces.laws-law };

    fn eq(&self, other: &Pattern) -> bool {
        self.as_slice() == other.as_slice()
    }
}

impl Eq for Pattern {
    ghost laws = { lists_equiv equal_pieces.laws-law };
}

impl Hash for Pattern {
    ghost hash_input = { fed.slice hashed_piece.hash_input-value.it };

    ghost respects_eq = { (fed.items_Alike (record { fed = hashed_pieces.respects_eq-law })).fed };

    fn hash<H: Hasher>(&self, state: &mut H) {
        self.as_slice().hash(state);
    }
}
