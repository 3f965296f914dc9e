//! Whether a pattern matches a text. The pieces behind the last for any number are compared one by one
//! from the end, and those in front of the first from the front. What is between is matched run by run,
//! each at the first place that takes it: there every pattern is decided. Where a star stands behind the
//! run, it takes whatever is left more at the first place. Where a star that takes no colon does, none
//! that takes colons stands before it, so that it takes what the star before the run would take, or the run
//! has a colon, which stands at one place of the text alone.
ghost use Rattle.std.specs.Prelude.{◌≡◌, ◌≤◌, ◌↔◌, ◌∷◌, ℕ, List, [], IsTrue, true, length, slice_index_or, chars};
ghost use Rattle.wildcard_lang.specs.declared.piece.Piece.{Piece};
ghost use Rattle.wildcard_lang.specs.declared.piece.Piece.TheVariants.{One, Many};
ghost use Rattle.wildcard_lang.specs.Accepts.{accepts, accepts_by};
ghost use Rattle.wildcard_lang.specs.Matching.{Matches, is_many};
ghost use Rattle.wildcard_lang.specs.Patterns.{IsPatternPart};
ghost use Rattle.wildcard_lang.specs.Runs.{last_or};

use crate::pattern::{MOST_PIECES, Pattern};
use crate::piece::Piece;
use crate::runs::{first_start, split_run};
use crate::source::Source;
use crate::taken::Taken;
use crate::text::Text;

/// The test `accepts` of the definitions answers whether the pieces match the text.
pub fn accepts_is_matches()
    ensures { (ps : List Piece) (t : List ℕ) → IsTrue (accepts ps t) ↔ Matches ps t }
{}

/// Whether the pattern matches the text. It takes no memory.
pub fn matches(pattern: &Pattern, text: &Text) -> bool
    ensures { IsTrue result ↔ Matches pattern.now text.now }
{
    matches_pieces::<char, _>(pattern.as_slice(), text.as_slice())
}

/// Whether the pattern matches the characters of the string. It takes no memory. A pattern of hundreds of
/// pieces may take longer than with a text, whose characters are found by their index.
pub fn matches_str(pattern: &Pattern, text: &str) -> bool
    ensures { IsTrue result ↔ Matches pattern.now (chars text.now) }
{
    matches_pieces::<char, _>(pattern.as_slice(), text)
}

// Compares the pieces behind the last for any number one by one, from the end.
pub(crate) fn matches_pieces<X: Taken, S: Source<X>>(pieces: &[Piece], text: S) -> bool
    requires most { length pieces.now ≤ MOST_PIECES }
    requires part { IsPatternPart pieces.now }
    ensures { result ≡ accepts_by X.taken pieces.now (S.left text) }
{
    let mut rest = pieces;
    let mut left = text;
    'back: loop {
        let [more @ .., piece] = rest else {
            return left.next_item().is_none();
        };
        if piece.is_many() {
            return matches_front::<X, S>(rest, left);
        }
        let Some(x) = left.last_item() else {
            return false;
        };
        if !x.is_taken(*piece) {
            return false;
        }
        rest = more;
    }
}

// Compares the pieces in front of the first for any number one by one.
fn matches_front<X: Taken, S: Source<X>>(pieces: &[Piece], text: S) -> bool
    requires part { IsPatternPart pieces.now }
    requires last { is_many (last_or One pieces.now) ≡ true }
    ensures { result ≡ accepts_by X.taken pieces.now (S.left text) }
{
    let mut rest = pieces;
    let mut left = text;
    'front: loop {
        let [piece, more @ ..] = rest else {
            return left.next_item().is_none();
        };
        if piece.is_many() {
            return matches_runs::<X, S>(rest, left);
        }
        let Some(x) = left.next_item() else {
            return false;
        };
        if !x.is_taken(*piece) {
            return false;
        }
        rest = more;
    }
}

// Looks for each run of pieces between two wildcards for any number where the text first has it. What
// stands behind the run goes on from there.
fn matches_runs<X: Taken, S: Source<X>>(pieces: &[Piece], text: S) -> bool
    requires part { IsPatternPart pieces.now }
    requires first { is_many (slice_index_or pieces.now 0 One) ≡ true }
    requires last { is_many (last_or One pieces.now) ≡ true }
    ensures { result ≡ accepts_by X.taken pieces.now (S.left text) }
{
    X::narrows();
    let mut rest = pieces;
    let mut left = text;
    'runs: loop {
        let Some((first, run, behind)) = split_run(rest) else {
            return left.next_item().is_none();
        };
        if behind.is_empty() {
            return takes_rest::<X, S>(first, left);
        }
        let Some(found) = first_start::<X, S>(first, run, left) else {
            return false;
        };
        left = found.behind;
        rest = behind;
    }
}

// Whether the piece is a star.
fn is_star(piece: Piece) -> bool
    ensures { IsTrue result ↔ (piece ≡ Many) }
{
    matches!(piece, Piece::Many)
}

// Whether the piece, which is for any number, takes all that is left. A star does, so that it isn't gone through.
fn takes_rest<X: Taken, S: Source<X>>(piece: Piece, text: S) -> bool
    requires { is_many piece ≡ true }
    ensures { result ≡ accepts_by X.taken (piece ∷ []) (S.left text) }
{
    if is_star(piece) {
        return true;
    }
    let mut left = text;
    'text: while let Some(x) = left.next_item() {
        if !x.is_taken(piece) {
            return false;
        }
    }
    true
}
