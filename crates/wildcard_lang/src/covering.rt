//! Whether a pattern takes all that another takes, or nothing of it.
ghost use Rattle.std.specs.Prelude.{◌≡◌, ◌≤◌, ◌↔◌, IsTrue, length};
ghost use Rattle.wildcard_lang.specs.Covering.{CoversPattern, Clash, clashes, covers, has_one, shares, takes_no_colon, takes_next, takes_piece, is_wildcard, CoveringIsInclusion, ClashingIsDisjoint, CoveringIsReflexive, StarsCoverAll, LiteralsAreCovered};
ghost use Rattle.wildcard_lang.specs.Patterns.{IsPatternPart, is_wide};

use crate::matching::matches_pieces;
use crate::pattern::{MOST_PIECES, Pattern};
use crate::piece::Piece;

/// What a pattern matches is matched by each pattern that covers it.
pub fn covering_is_inclusion()
    ensures { CoveringIsInclusion }
{}

/// No text is matched by patterns that clash.
pub fn clashing_is_disjoint()
    ensures { ClashingIsDisjoint }
{}

/// A pattern covers itself, and a star alone covers every pattern.
pub fn covering_is_reflexive()
    ensures reflexive { CoveringIsReflexive }
    ensures star { StarsCoverAll }
{}

/// The patterns that cover the literals of a text are those that match it.
pub fn literals_are_covered()
    ensures { LiteralsAreCovered }
{}

// Whether the piece is a wildcard that takes colons too.
fn is_wide(piece: Piece) -> bool
    ensures { result ≡ is_wide piece }
{
    matches!(piece, Piece::One | Piece::Many)
}

fn is_wildcard(piece: Piece) -> bool
    ensures { result ≡ is_wildcard piece }
{
    match piece {
        Piece::Lit(_) | Piece::LitFold(_) => false,
        _ => true,
    }
}

// Whether the piece takes each character that the other takes.
fn takes_piece(piece: Piece, other: Piece) -> bool
    ensures { result ≡ takes_piece piece other }
{
    match other {
        Piece::Lit(c) => piece.takes(c),
        Piece::LitFold(c) => piece.takes(c) && piece.takes(c.to_ascii_uppercase()),
        Piece::One | Piece::Many => is_wide(piece),
        Piece::OneNoColon | Piece::ManyNoColon => is_wildcard(piece),
    }
}

// As above, where a piece for one character takes none for any number.
pub(crate) fn takes_next(piece: Piece, other: Piece) -> bool
    ensures { result ≡ takes_next piece other }
{
    (piece.is_many() | !other.is_many()) && takes_piece(piece, other)
}

// Whether the piece takes some character besides the colon.
fn takes_no_colon(piece: Piece) -> bool
    ensures { result ≡ takes_no_colon piece }
{
    match piece {
        Piece::Lit(c) => c != ':',
        Piece::LitFold(c) => c != ':' || c.to_ascii_uppercase() != ':',
        Piece::One | Piece::Many | Piece::OneNoColon | Piece::ManyNoColon => true,
    }
}

// Whether some character is taken by both pieces.
fn shares(piece: Piece, other: Piece) -> bool
    ensures { result ≡ shares piece other }
{
    match other {
        Piece::Lit(c) => piece.takes(c),
        Piece::LitFold(c) => piece.takes(c) || piece.takes(c.to_ascii_uppercase()),
        Piece::One | Piece::Many => true,
        Piece::OneNoColon | Piece::ManyNoColon => takes_no_colon(piece),
    }
}

// Whether one of the pieces is for one character.
fn has_one(pieces: &[Piece]) -> bool
    ensures { result ≡ has_one pieces.now }
{
    pieces.iter().any(|piece| !piece.is_many())
}

/// Whether the pattern covers the other, and so matches each text that the other matches. It takes no
/// memory. The answer may be no where it does match all of them, as `*?` for `?*`.
pub fn covers(pattern: &Pattern, other: &Pattern) -> bool
    ensures { IsTrue result ↔ CoversPattern pattern.now other.now }
{
    covers_pieces(pattern.as_slice(), other.as_slice())
}

// Patterns are often equal, and comparing them takes less work than matching one by the other.
fn covers_pieces(pieces: &[Piece], others: &[Piece]) -> bool
    requires most { length pieces.now ≤ MOST_PIECES }
    requires part { IsPatternPart pieces.now }
    ensures { result ≡ covers pieces.now others.now }
{
    if pieces == others {
        return true;
    }
    matches_pieces::<Piece, _>(pieces, others)
}

/// Whether the patterns clash, and so match no text both. It takes no memory. The answer may be no
/// where there is no such text: behind a piece for any number nothing is compared.
pub fn clashes(pattern: &Pattern, other: &Pattern) -> bool
    ensures { IsTrue result ↔ Clash pattern.now other.now }
{
    clashing(pattern.as_slice(), other.as_slice())
}

// Compares the pieces from the front.
fn clashing(pieces: &[Piece], others: &[Piece]) -> bool
    ensures { result ≡ clashes pieces.now others.now }
{
    let mut rest = pieces;
    let mut left = others;
    'front: loop {
        let [piece, more @ ..] = rest else {
            return has_one(left);
        };
        let [other, behind @ ..] = left else {
            return has_one(rest);
        };
        if piece.is_many() || other.is_many() {
            return false;
        }
        if !shares(*piece, *other) {
            return true;
        }
        rest = more;
        left = behind;
    }
}
