//! Texts, and the patterns of the IAM policy language that match them.
#![tactic(auto)]

mod arn;
mod covering;
mod equal;
mod fault;
mod guesses;
mod marked;
mod matching;
mod meanings;
mod order;
mod pattern;
mod piece;
mod places;
mod reading;
mod runs;
mod source;
mod symbol;
mod taken;
mod text;
mod writing;
mod written_again;

pub use arn::read_arn;
pub use covering::{
    clashes, clashing_is_disjoint, covering_is_inclusion, covering_is_reflexive, covers,
    literals_are_covered,
};
pub use fault::PatternFault;
pub use marked::MarkedPattern;
pub use matching::{accepts_is_matches, matches, matches_str};
pub use meanings::{
    arn_matches_its_parts, glob_matches_its_form, literal_matches_itself, symbols_are_read,
};
pub use pattern::{MOST_PIECES, Pattern, PatternList};
pub use piece::Piece;
pub use places::{
    places_are_matched, start_places, step_places, steps_are_led, steps_follow_texts, widths_grow,
};
pub use plain_lists::NoMemory;
pub use reading::{read_glob, read_literal};
pub use symbol::Symbol;
pub use text::{Text, TextList};
pub use writing::{write_action, write_pattern};
pub use written_again::{
    globs_are_of_their_pieces, pattern_limits, patterns_are_found_with_escapes,
    patterns_are_read_again, patterns_are_written_apart,
};
