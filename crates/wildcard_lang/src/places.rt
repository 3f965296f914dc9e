//! The places of a pattern after a text, as marks: one for each number of first pieces.
ghost use Rattle.std.specs.Prelude.{◌≡◌, ◌+◌, ◌<◌, [], length};
ghost use Rattle.wildcard_lang.specs.Accepts.{ArePlaces, AreReached, mark_by, marks_of, marks_reached};
ghost use Rattle.wildcard_lang.specs.Matching.{takes};
ghost use Rattle.wildcard_lang.specs.Places.{PlacesAreMatched, StepsAreLed, StepsFollowTexts, WidthsGrow};

use crate::pattern::Pattern;
use crate::piece::Piece;

// Marks the places after nothing.
fn start(pieces: &[Piece], places: &mut [bool])
    requires { length pieces.now < length places.old }
    ensures { ArePlaces takes pieces.now [] places.new }
{
    places[0] = true;
    for (i, piece) in pieces.iter().enumerate() {
        let mark = piece.is_many() & places[i];
        places[i + 1] = mark;
    }
}

// Whether the place behind the piece is one after c, where `before` and `old` say whether the places
// before and behind it were ones, and `below` whether the place before it is one after c.
fn mark_after(piece: Piece, c: char, before: bool, old: bool, below: bool) -> bool
    ensures { result ≡ mark_by takes piece c before old below }
{
    if piece.is_many() {
        piece.takes(c) && old || below
    } else {
        piece.takes(c) && before
    }
}

// Marks the places after c.
fn step(pieces: &[Piece], places: &mut [bool], c: char)
    requires { length pieces.now < length places.old }
    ensures { AreReached takes pieces.now places.old c places.new }
{
    let mut before = places[0];
    places[0] = false;
    for (i, piece) in pieces.iter().enumerate() {
        let old = places[i + 1];
        places[i + 1] = mark_after(*piece, c, before, old, places[i]);
        before = old;
    }
}

/// The places of a pattern after a text, as they are computed, are the numbers of first pieces that
/// match the text.
pub fn places_are_matched()
    ensures { PlacesAreMatched }
{}

/// The step of a list of places by a character, as it is computed, has exactly the places that the
/// character leads to.
pub fn steps_are_led()
    ensures { StepsAreLed }
{}

/// The step of the places of a text by a character gives the places of the text with the character
/// after it.
pub fn steps_follow_texts()
    ensures { StepsFollowTexts }
{}

/// Texts that show some patterns wider than a number show so of any patterns that have those among
/// them.
pub fn widths_grow()
    ensures { WidthsGrow }
{}

/// Marks the places after the empty text. There is one mark more than the pattern has pieces.
pub fn start_places(pattern: &Pattern, places: &mut [bool])
    requires { length places.old ≡ length pattern.now + 1 }
    ensures { places.new ≡ marks_of pattern.now [] }
{
    start(pattern.as_slice(), places);
}

/// Marks the places to which a character leads from the marked ones.
pub fn step_places(pattern: &Pattern, places: &mut [bool], c: char)
    requires { length places.old ≡ length pattern.now + 1 }
    ensures { places.new ≡ marks_reached pattern.now places.old c }
{
    step(pattern.as_slice(), places, c);
}
