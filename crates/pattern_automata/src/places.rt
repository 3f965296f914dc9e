//! Product states, as lists of places, from words of marks.
ghost use Rattle.std.specs.Prelude.{◌≡◌, ◌*◌, ◌+◌, ◌<◌, ◌≤◌, ◌^◌, [], length, IfOk, OnOk};
ghost use Rattle.pattern_automata.specs.Marks.{mark_count};
ghost use Rattle.pattern_automata.specs.Packed.{words_for};
ghost use Rattle.pattern_automata.specs.Answer.{AddsLists, AddsPlaces, AreStatesOf, HaveWords};
ghost use Rattle.pattern_automata.specs.Cuts.{AreEndsOf, cut_at};

use crate::found::Found;
use crate::states::{Closed, PlaceLists};
use crate::words::has_mark;
use plain_lists::NoMemory;
use std::alloc::Global;
use wildcard_lang::Pattern;

/// Adds the places that are marked among so many from a place on.
fn add_places(words: &[u64], at: usize, count: usize, places: &mut Vec<u32>) -> Result<(), NoMemory>
    requires count { count ≤ 2 ^ 32 }
    requires within { at + count ≤ 64 * length words.now }
    requires room { at + count ≤ usize.MAX }
    ensures { OnOk result (AddsPlaces words.now at count places.old.items places.new.items) }
{
    for i in 0..count {
        if has_mark(words, at + i) {
            places.push(i as u32)?;
        }
    }
    Ok(())
}

/// Adds the lists of the product state of the words, pattern by pattern.
fn add_lists(
    patterns: &[Pattern],
    words: &[u64],
    places: &mut Vec<u32>,
    ends: &mut Vec<usize>,
) -> Result<(), NoMemory>
    requires size { length words.now ≡ words_for (mark_count patterns.now) }
    requires room { mark_count patterns.now < usize.MAX }
    requires ends { AreEndsOf 0 ends.old.items (length places.old.items) }
    ensures ends { OnOk result (AreEndsOf 0 ends.new.items (length places.new.items)) }
    ensures lists { OnOk result
        (AddsLists patterns.now words.now
        (cut_at 0 ends.old.items places.old.items) (cut_at 0 ends.new.items places.new.items)) }
{
    let mut at = 0;
    for pattern in patterns {
        let count = pattern.len() + 1;
        add_places(words, at, count, places)?;
        ends.push(places.len())?;
        at += count;
    }
    Ok(())
}

/// The product states that were found.
pub fn closed_of(alloc: Global, patterns: &[Pattern], found: &Found) -> Result<Closed, NoMemory>
    requires sizes { HaveWords patterns.now found.now }
    requires room { mark_count patterns.now < usize.MAX }
    ensures count { IfOk result (λ v. length v ≡ length found.now) }
    ensures each { IfOk result (AreStatesOf patterns.now found.now) }
{
    let mut places = Vec::new(alloc);
    let mut ends = Vec::with_capacity(alloc, found.len().saturating_mul(patterns.len()))?;
    let mut states = Vec::with_capacity(alloc, found.len())?;
    for i in 0..found.len() {
        add_lists(patterns, found.get(i), &mut places, &mut ends)?;
        let end = ends.len();
        states.push(end)?;
    }
    Ok(Closed::of(PlaceLists::of(places, ends), states))
}
