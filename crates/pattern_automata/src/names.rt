//! The characters that patterns name, and one that stands for all others.
ghost use Rattle.std.specs.Prelude.{◌≡◌, ◌≤◌, ◌<◌, ◌||◌, ◌==◌, ℕ, true, false, MatchOption, OnOk, IfOk};
ghost use Rattle.std.specs.Char.{IsScalar};
ghost use Rattle.wildcard_lang.specs.Places.{contains_place};
ghost use Rattle.pattern_automata.specs.Closed.{names_character, names_any, is_named_character};
ghost use Rattle.pattern_automata.specs.Spare.{AreTaken, GrowsBy, HasAllScalars, IsFreeIn, IsSpareOf};

use indexmap::IndexSet;
use plain_lists::NoMemory;
use std::alloc::Global;
use wildcard_lang::{Pattern, Piece};

/// For how many characters there is room from the start. Patterns of names have fewer, mostly.
const MANY: usize = 64;

/// Adds the character, unless it is there.
fn add(set: &mut IndexSet<char>, c: char) -> Result<(), NoMemory>
    ensures { OnOk result
        ((d : ℕ) → contains_place set.new.keys d ≡ (contains_place set.old.keys d || (c == d))) }
{
    set.insert_full(c)?;
    Ok(())
}

/// Adds the characters that the piece names.
fn add_piece(set: &mut IndexSet<char>, piece: Piece) -> Result<(), NoMemory>
    ensures { OnOk result (GrowsBy (names_character piece) set.old.keys set.new.keys) }
{
    match piece {
        Piece::Lit(c) => add(set, c),
        Piece::LitFold(c) => {
            add(set, c)?;
            add(set, c.to_ascii_uppercase())
        }
        _ => Ok(()),
    }
}

/// Adds the characters that the pattern names.
fn add_pattern(set: &mut IndexSet<char>, pattern: &Pattern) -> Result<(), NoMemory>
    ensures { OnOk result (GrowsBy (names_any pattern.now) set.old.keys set.new.keys) }
{
    for piece in pattern.as_slice() {
        add_piece(set, *piece)?;
    }
    Ok(())
}

/// The characters that the patterns name, and the colon, in the order in which they come first.
pub fn named_characters(alloc: Global, patterns: &[Pattern]) -> Result<IndexSet<char>, NoMemory>
    ensures { IfOk result
        (λ s. (d : ℕ) → IsScalar d → contains_place s.keys d ≡ is_named_character patterns.now d) }
{
    let mut set = IndexSet::with_capacity(alloc, MANY)?;
    add(&mut set, ':')?;
    for pattern in patterns {
        add_pattern(&mut set, pattern)?;
    }
    Ok(set)
}

/// The least character from a code on and below an end that isn't in the set.
fn free_in(set: &IndexSet<char>, from: u32, end: u32) -> Option<char>
    requires { end ≤ 1114112 }
    ensures { MatchOption result (AreTaken set.now.keys from end) (IsFreeIn set.now.keys from end) }
{
    for code in from..end {
        if let Some(c) = char::from_u32(code) {
            if !set.contains(&c) {
                return Some(c);
            }
        }
    }
    None
}

/// A character that isn't in the set: the letter x, or another small letter, a digit or any printable
/// ASCII character where one is left, since texts that people are to read and use are spelled with it;
/// else the least of all.
pub fn spare(set: &IndexSet<char>) -> Option<char>
    ensures { MatchOption result (HasAllScalars set.now.keys) (IsSpareOf set.now.keys) }
{
    if let Some(c) = free_in(set, 120, 121) {
        return Some(c);
    }
    if let Some(c) = free_in(set, 97, 123) {
        return Some(c);
    }
    if let Some(c) = free_in(set, 48, 58) {
        return Some(c);
    }
    if let Some(c) = free_in(set, 33, 127) {
        return Some(c);
    }
    free_in(set, 0, 0x11_0000)
}
