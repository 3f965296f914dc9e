//! What the pieces of a pattern take: the characters of a text, or the pieces of another pattern.
ghost use Rattle.std.specs.Prelude.{◌≡◌, Bool, true, refl};
ghost use Rattle.wildcard_lang.specs.declared.piece.Piece.{Piece};
ghost use Rattle.wildcard_lang.specs.declared.piece.Piece.TheVariants.{Lit, LitFold, One, Many, OneNoColon, ManyNoColon};
ghost use Rattle.wildcard_lang.specs.Matching.{takes};
ghost use Rattle.wildcard_lang.specs.Covering.{takes_next};
ghost use Rattle.wildcard_lang.specs.Runs.{IsNarrowing};

use crate::covering::takes_next;
use crate::piece::Piece;

// What a piece may take.
pub(crate) trait Taken: Copy {
    // Whether the piece takes it.
    ghost taken: { Piece → Self → Bool };

    fn is_taken(self, piece: Piece) -> bool
        ensures { result ≡ taken piece self };

    // What a piece takes that takes no colon, a star that takes none takes too.
    fn narrows()
        ensures { IsNarrowing taken };

    // A star takes it.
    ghost star: { (x : Self) → taken Many x ≡ true };
}

impl Taken for char {
    ghost taken = { takes };

    fn is_taken(self, piece: Piece) -> bool {
        piece.takes(self)
    }

    fn narrows() {}

    ghost star = { λ x. refl };
}

impl Taken for Piece {
    ghost taken = { takes_next };

    fn is_taken(self, piece: Piece) -> bool {
        takes_next(piece, self)
    }

    fn narrows() {}

    ghost star = { λ x. elim x as (λ k. takes_next Many k ≡ true) [ Lit c ↦ refl | LitFold c ↦ refl | One ↦ refl | Many ↦ refl | OneNoColon ↦ refl | ManyNoColon ↦ refl ] };
}
