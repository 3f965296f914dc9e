//! What characters do to the marks of patterns, word by word. Most characters differ from those that no
//! piece names in few words, so of each character only these are kept.
ghost use Rattle.std.specs.Prelude.{◌≡◌, ◌*◌, ◌≤◌, ◌++◌, length, All, IfOk, MatchOption, OnOk};
ghost use Rattle.std.specs.Option.{option_to_list};
ghost use Rattle.pattern_automata.specs.Moves.{characters_of, IsMasks, IsMove, IsPatch};
ghost use Rattle.pattern_automata.specs.Named.{HaveNames, HasNamesAt, IsLikeOthersAt, IsPatchAt};

use crate::fronts::{Kind, word_at, words_by};
use crate::named::{Named, bits_of, named_by};
use crate::quick_moves::quick_moves;
use plain_lists::NoMemory;
use std::alloc::Global;
use wildcard_lang::{Pattern, Piece};

/// Of fewer characters each is looked for in each word.
const MANY: usize = 256;

/// The words of a character that no piece names: `one` passes a mark on, `many` keeps it and leads on.
#[derive(Drop)]
pub struct Masks {
    pub one: Vec<u64>,
    pub many: Vec<u64>,
}

/// The words of a character at one index: `one` passes a mark on, `stay` keeps it, and from the masks
/// they differ at most at the bits of `differs`.
#[derive(Clone, Copy)]
pub struct Patch {
    pub index: usize,
    pub one: u64,
    pub stay: u64,
    pub differs: u64,
}

/// A character, and its words where they may differ from the masks.
#[derive(Drop)]
pub struct Move {
    pub character: char,
    pub patches: Vec<Patch>,
}

/// The words of the characters that no piece names.
pub fn masks_of(alloc: Global, fronts: &[Option<Piece>]) -> Result<Masks, NoMemory>
    ensures { IfOk result (IsMasks fronts.now) }
{
    Ok(Masks {
        one: words_by(alloc, fronts, Kind::PassesOthers)?,
        many: words_by(alloc, fronts, Kind::Leads)?,
    })
}

/// The words of the character at an index.
fn patch_of(fronts: &[Option<Piece>], masks: &Masks, index: usize, c: char) -> Patch
    requires within { 64 * index ≤ length fronts.now }
    requires masks { IsMasks fronts.now masks.now }
    ensures index { result.index ≡ index }
    ensures words { IsPatch fronts.now c result }
{
    let one = word_at(fronts, index, Kind::Passes(c));
    let stay = word_at(fronts, index, Kind::Keeps(c));
    Patch {
        index,
        one,
        stay,
        differs: (one ^ masks.one[index]) | (stay ^ masks.many[index]),
    }
}

/// The patch of the character at an index, if it needs one. A piece takes the characters that it names; of the
/// others only the colon differs from the rest.
pub(crate) fn patch_at(
    fronts: &[Option<Piece>],
    masks: &Masks,
    named: &[Named],
    index: usize,
    c: char,
) -> Option<Patch>
    requires within { 64 * index ≤ length fronts.now }
    requires masks { IsMasks fronts.now masks.now }
    requires named { HasNamesAt fronts.now index named.now }
    ensures { MatchOption result (IsLikeOthersAt fronts.now index c) (IsPatchAt fronts.now index c) }
{
    if c == ':' {
        return Some(patch_of(fronts, masks, index, c));
    }
    let bits = bits_of(named, c);
    if bits == 0 {
        return None;
    }
    Some(Patch {
        index,
        one: masks.one[index] | bits,
        stay: masks.many[index],
        differs: bits,
    })
}

/// Adds the patch, if there is one.
pub(crate) fn push_patch(patch: Option<Patch>, patches: &mut Vec<Patch>) -> Result<(), NoMemory>
    ensures { OnOk result (patches.new.items ≡ patches.old.items ++ option_to_list patch) }
{
    if let Some(patch) = patch {
        patches.push(patch)?;
    }
    Ok(())
}

/// The move of a character.
fn move_of(
    alloc: Global,
    fronts: &[Option<Piece>],
    masks: &Masks,
    named: &[Vec<Named>],
    c: char,
) -> Result<Move, NoMemory>
    requires masks { IsMasks fronts.now masks.now }
    requires named { HaveNames fronts.now named.now }
    ensures character { IfOk result (λ m. m.character ≡ c) }
    ensures does { IfOk result (IsMove fronts.now) }
{
    let mut patches = Vec::new(alloc);
    for index in 0..named.len() {
        let patch = patch_at(fronts, masks, named[index].as_slice(), index, c);
        push_patch(patch, &mut patches)?;
    }
    Ok(Move {
        character: c,
        patches,
    })
}

/// The moves of the characters, by what the pieces name.
fn moves_by(
    alloc: Global,
    fronts: &[Option<Piece>],
    masks: &Masks,
    named: &[Vec<Named>],
    characters: &[char],
) -> Result<Vec<Move>, NoMemory>
    requires masks { IsMasks fronts.now masks.now }
    requires named { HaveNames fronts.now named.now }
    ensures moves { IfOk result (λ v. All (IsMove fronts.now) v.items) }
    ensures characters { IfOk result (λ v. characters_of v.items ≡ characters.now) }
{
    let mut moves = Vec::with_capacity(alloc, characters.len())?;
    for c in characters {
        moves.push(move_of(alloc, fronts, masks, named, *c)?)?;
    }
    Ok(moves)
}

/// The moves of the characters.
pub fn moves_of(
    alloc: Global,
    fronts: &[Option<Piece>],
    masks: &Masks,
    characters: &[char],
) -> Result<Vec<Move>, NoMemory>
    requires { IsMasks fronts.now masks.now }
    ensures moves { IfOk result (λ v. All (IsMove fronts.now) v.items) }
    ensures characters { IfOk result (λ v. characters_of v.items ≡ characters.now) }
{
    let named = named_by(alloc, fronts)?;
    if characters.len() < MANY {
        return moves_by(alloc, fronts, masks, named.as_slice(), characters);
    }
    match quick_moves(alloc, fronts, masks, named.as_slice(), characters)? {
        Some(moves) => Ok(moves),
        None => moves_by(alloc, fronts, masks, named.as_slice(), characters),
    }
}
