//! Patterns that match every word of a request.
ghost use Rattle.std.specs.Prelude.{◌≡◌, ◌∷◌, [], IsTrue};
ghost use Rattle.wildcard_lang.specs.declared.piece.Piece.TheVariants.{Many};
ghost use Rattle.test_relations.specs.Parts.{MatchesEach};

use wildcard_lang::{Pattern, Piece, covers};

// Whether the pattern is a star alone.
fn is_star(pattern: &Pattern) -> bool
    ensures { IsTrue result → pattern.now ≡ Many ∷ [] }
{
    matches!(pattern.as_slice(), [Piece::Many])
}

/// Whether the pattern matches each text of the shape, or every text where none is given.
pub(crate) fn matches_each(pattern: &Pattern, shape: &Option<Pattern>) -> bool
    ensures { IsTrue result → MatchesEach pattern.now shape.now }
{
    match shape {
        Some(shape) => covers(pattern, shape),
        None => is_star(pattern),
    }
}
