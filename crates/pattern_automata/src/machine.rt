//! What a search and a check know of their patterns, made once.
ghost use Rattle.std.specs.Prelude.{◌≡◌, ◌∷◌, [], IfOk, MatchOption};
ghost use Rattle.pattern_automata.specs.Machine.{IsAlphabet, IsMachine};

use crate::fronts::fronts_of;
use crate::meets::{ends_of, total_of};
use crate::moves::{Masks, Move, masks_of, moves_of};
use crate::names::{named_characters, spare};
use plain_lists::NoMemory;
use std::alloc::Global;
use wildcard_lang::Pattern;

/// What a search and a check know of their patterns.
#[derive(Drop)]
pub struct Machine {
    /// The last mark of each pattern.
    pub ends: Vec<usize>,
    /// How many marks there are.
    pub count: usize,
    /// The words of characters that no pattern names.
    pub masks: Masks,
    /// The moves of the characters that the patterns name, after that of a spare one.
    pub moves: Vec<Move>,
    /// Whether the first move is of a spare character. It is, but where the patterns name all scalars.
    pub spared: bool,
}

/// A list of the character, if there is one.
fn first_of(alloc: Global, spare: Option<char>) -> Result<Vec<char>, NoMemory>
    ensures { IfOk result (λ v. MatchOption spare (v.items ≡ []) (λ c. v.items ≡ c ∷ [])) }
{
    let mut first = Vec::new(alloc);
    if let Some(c) = spare {
        first.push(c)?;
    }
    Ok(first)
}

/// The characters by which is stepped, and whether the first is spare.
fn alphabet(alloc: Global, patterns: &[Pattern]) -> Result<(Vec<char>, bool), NoMemory>
    ensures { IfOk result (λ r. IsAlphabet patterns.now r.0.items r.1) }
{
    let named = named_characters(alloc, patterns)?;
    let spare = spare(&named);
    let mut characters = first_of(alloc, spare)?;
    characters.extend_from_slice(named.as_slice())?;
    Ok((characters, spare.is_some()))
}

/// What there is to know of the patterns.
pub fn machine_of(alloc: Global, patterns: &[Pattern]) -> Result<Machine, NoMemory>
    ensures { IfOk result (IsMachine patterns.now) }
{
    let (characters, spared) = alphabet(alloc, patterns)?;
    let count = total_of(patterns)?;
    let fronts = fronts_of(alloc, patterns, count)?;
    let masks = masks_of(alloc, fronts.as_slice())?;
    let moves = moves_of(alloc, fronts.as_slice(), &masks, characters.as_slice())?;
    Ok(Machine {
        ends: ends_of(alloc, patterns)?,
        count,
        masks,
        moves,
        spared,
    })
}
