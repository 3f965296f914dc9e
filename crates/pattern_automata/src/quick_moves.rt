//! The moves of many characters, by proposals. Most characters are named in few words, and to look for each of n
//! characters in each of m words takes n * m looks. Where a character is named is proposed in one pass, and then it is
//! shown in another that no word was forgotten.
ghost use Rattle.std.specs.Prelude.{◌≡◌, ◌*◌, ◌<◌, ◌≤◌, ◌++◌, ℕ, length, All, IfOk, IfSome, IsTrue, MatchOption, OnOk};
ghost use Rattle.std.specs.Option.{option_to_list};
ghost use Rattle.pattern_automata.specs.Moves.{characters_of, HasPatch, IsMasks, IsMove, IsPatch};
ghost use Rattle.pattern_automata.specs.Named.{HaveNames};
ghost use Rattle.pattern_automata.specs.Proposals.{HaveAllPatches, HaveTheirPatches, AreAtTheirIndices, HasRightPatches, HasItsPatch, index_in};

use crate::moves::{Masks, Move, Patch, patch_at, push_patch};
use crate::named::Named;
use indexmap::IndexMap;
use plain_lists::NoMemory;
use std::alloc::Global;
use wildcard_lang::Piece;

/// Where the characters stand in their list.
#[derive(Drop)]
pub struct Indices {
    index: IndexMap<char, usize>,
}

/// The index of the character.
fn index_in(indices: &Indices, c: char) -> Option<usize>
    ensures { result ≡ index_in indices.now c }
{
    indices.index.get(&c).copied()
}

/// Where the characters stand. It is tested where it is used, so nothing is asked of it.
fn indices_of(alloc: Global, characters: &[char]) -> Result<Indices, NoMemory> {
    let mut index = IndexMap::new(alloc);
    for (i, c) in characters.iter().enumerate() {
        index.insert(*c, i)?;
    }
    Ok(Indices { index })
}

/// Adds the index of a word to the proposals of each character that it names.
fn propose(
    indices: &Indices,
    named: &[Named],
    index: usize,
    proposals: &mut Vec<Vec<usize>>,
) -> Result<(), NoMemory> {
    for own in named {
        if let Some(i) = index_in(indices, own.character) {
            if let Some(words) = proposals.get_mut(i) {
                words.push(index)?;
            }
        }
    }
    Ok(())
}

/// For each character the words that may treat it differently: all for the colon, and those that name it.
fn proposals_of(
    alloc: Global,
    indices: &Indices,
    named: &[Vec<Named>],
    count: usize,
) -> Result<Vec<Vec<usize>>, NoMemory> {
    let mut proposals = Vec::with_capacity(alloc, count)?;
    for _ in 0..count {
        proposals.push(Vec::new(alloc))?;
    }
    let colon = index_in(indices, ':');
    for (index, own) in named.iter().enumerate() {
        propose(indices, own.as_slice(), index, &mut proposals)?;
        if let Some(i) = colon {
            if let Some(words) = proposals.get_mut(i) {
                words.push(index)?;
            }
        }
    }
    Ok(proposals)
}

/// The patch of a character at a word that is proposed, if there is such a word and it needs one.
fn proposed_patch(
    fronts: &[Option<Piece>],
    masks: &Masks,
    named: &[Vec<Named>],
    word: usize,
    c: char,
) -> Option<Patch>
    requires masks { IsMasks fronts.now masks.now }
    requires named { HaveNames fronts.now named.now }
    ensures { IfSome result (IsPatch fronts.now c) }
{
    if word < named.len() {
        patch_at(fronts, masks, named[word].as_slice(), word, c)
    } else {
        None
    }
}

/// The move of a character, by the words that are proposed.
fn proposed_move(
    alloc: Global,
    fronts: &[Option<Piece>],
    masks: &Masks,
    named: &[Vec<Named>],
    words: &[usize],
    c: char,
) -> Result<Move, NoMemory>
    requires masks { IsMasks fronts.now masks.now }
    requires named { HaveNames fronts.now named.now }
    ensures character { IfOk result (λ m. m.character ≡ c) }
    ensures right { IfOk result (HasRightPatches fronts.now) }
{
    let mut patches = Vec::new(alloc);
    for word in words {
        let patch = proposed_patch(fronts, masks, named, *word, c);
        push_patch(patch, &mut patches)?;
    }
    Ok(Move {
        character: c,
        patches,
    })
}

/// The words that are proposed for the character at an index.
fn words_at(proposals: &[Vec<usize>], i: usize) -> &[usize] {
    match proposals.get(i) {
        Some(words) => words.as_slice(),
        None => &[],
    }
}

/// The moves of the characters, by the words that are proposed.
fn proposed_moves(
    alloc: Global,
    fronts: &[Option<Piece>],
    masks: &Masks,
    named: &[Vec<Named>],
    proposals: &[Vec<usize>],
    characters: &[char],
) -> Result<Vec<Move>, NoMemory>
    requires masks { IsMasks fronts.now masks.now }
    requires named { HaveNames fronts.now named.now }
    ensures moves { IfOk result (λ v. All (HasRightPatches fronts.now) v.items) }
    ensures characters { IfOk result (λ v. characters_of v.items ≡ characters.now) }
{
    let mut moves = Vec::with_capacity(alloc, characters.len())?;
    for i in 0..characters.len() {
        let words = words_at(proposals, i);
        moves.push(proposed_move(alloc, fronts, masks, named, words, characters[i])?)?;
    }
    Ok(moves)
}

/// Where the patch of the word may stand.
fn likely_index(patches: &[Patch], index: usize) -> usize {
    patches.partition_point(|patch| patch.index < index)
}

/// Whether one of the patches is at the index, which may be missed.
fn has_patch(patches: &[Patch], index: usize) -> bool
    ensures { IsTrue result → HasPatch patches.now index }
{
    let i = likely_index(patches, index);
    i < patches.len() && patches[i].index == index
}

/// Whether the move of the character, if it has one, has a patch at the index.
fn has_its_patch(indices: &Indices, moves: &[Move], c: char, index: usize) -> bool
    ensures { IsTrue result → HasItsPatch indices.now moves.now index c }
{
    match index_in(indices, c) {
        Some(i) => i < moves.len() && has_patch(moves[i].patches.as_slice(), index),
        None => true,
    }
}

/// Whether the moves of the characters that a word names have a patch at it.
fn have_their_patches(indices: &Indices, moves: &[Move], named: &[Named], index: usize) -> bool
    ensures { IsTrue result → HaveTheirPatches indices.now moves.now index named.now }
{
    for own in named {
        if !has_its_patch(indices, moves, own.character, index) {
            return false;
        }
    }
    has_its_patch(indices, moves, ':', index)
}

/// Whether each move stands where its character does, so that no two are of one character.
fn are_at_their_indices(indices: &Indices, moves: &[Move]) -> bool
    ensures { IsTrue result → AreAtTheirIndices indices.now moves.now }
{
    for i in 0..moves.len() {
        if index_in(indices, moves[i].character) != Some(i) {
            return false;
        }
    }
    true
}

/// Whether no word is forgotten.
fn have_all_patches(indices: &Indices, moves: &[Move], named: &[Vec<Named>]) -> bool
    ensures { IsTrue result → HaveAllPatches indices.now moves.now named.now }
{
    for index in 0..named.len() {
        if !have_their_patches(indices, moves, named[index].as_slice(), index) {
            return false;
        }
    }
    true
}

/// The moves of the characters, or none where the proposals forget a word.
pub fn quick_moves(
    alloc: Global,
    fronts: &[Option<Piece>],
    masks: &Masks,
    named: &[Vec<Named>],
    characters: &[char],
) -> Result<Option<Vec<Move>>, NoMemory>
    requires masks { IsMasks fronts.now masks.now }
    requires named { HaveNames fronts.now named.now }
    ensures moves { IfOk result (λ found. IfSome found (λ v. All (IsMove fronts.now) v.items)) }
    ensures characters { IfOk result
        (λ found. IfSome found (λ v. characters_of v.items ≡ characters.now)) }
{
    let indices = indices_of(alloc, characters)?;
    let proposals = proposals_of(alloc, &indices, named, characters.len())?;
    let moves = proposed_moves(
        alloc,
        fronts,
        masks,
        named,
        proposals.as_slice(),
        characters,
    )?;
    if !are_at_their_indices(&indices, moves.as_slice()) {
        return Ok(None);
    }
    if !have_all_patches(&indices, moves.as_slice(), named) {
        return Ok(None);
    }
    Ok(Some(moves))
}
