//! A search that looks first where the fewest pieces are left. What it finds is tried on the patterns
//! themselves; where it finds nothing nothing follows.
ghost use Rattle.std.specs.Prelude.{◌≡◌, ◌<◌, length, IfOk, IfSome};
ghost use Rattle.pattern_automata.specs.Answer.{IsTextFor};
ghost use Rattle.pattern_automata.specs.Closed.{InRange};
ghost use Rattle.pattern_automata.specs.Machine.{IsMachine};
ghost use Rattle.pattern_automata.specs.Search.{GrowsTree, HasTree};

use crate::left::words_left;
use crate::machine::{Machine, machine_of};
use crate::proposal::{proposed, verified};
use crate::search::{Search, begin, leads_as_earlier, turn};
use crate::tree::text_of;
use crate::waiting::Waiting;
use crate::wants::Wants;
use plain_lists::NoMemory;
use std::alloc::Global;
use wildcard_lang::Text;

/// How many product states are found for each that is looked at, on the whole: one may lead to a new one
/// by each character that a pattern names.
const FOUND_FOR_EACH: usize = 16;

/// How many product states are looked at where only a text that is near is worth having.
const NEAR: usize = 64;

/// Whether the last product state meets the wants. If not it is to wait, unless no text from there on
/// meets them.
fn look(
    wants: &Wants,
    machine: &Machine,
    search: &Search,
    waiting: &mut Waiting,
) -> Result<bool, NoMemory> {
    match words_left(wants, machine, search.room.words.as_slice()) {
        None => Ok(false),
        Some(0) => Ok(true),
        Some(left) => {
            waiting.push(left, search.found.len().saturating_sub(1))?;
            Ok(false)
        }
    }
}

/// Steps the product state at i by the move at k, and looks at what is new.
fn try_move(
    wants: &Wants,
    machine: &Machine,
    search: &mut Search,
    i: usize,
    k: usize,
    waiting: &mut Waiting,
) -> Result<bool, NoMemory>
    requires machine { IsMachine wants.now.patterns machine.now }
    requires tree { HasTree wants.now search.old }
    requires within { i < length search.old.found }
    requires inside { k < length machine.now.moves.items }
    ensures { IfOk result (GrowsTree wants.now search.old search.new) }
{
    let step = &machine.moves[k];
    if leads_as_earlier(wants, machine, k, step, search.found.get(i)) {
        return Ok(false);
    }
    if !turn(wants, machine, search, i, step)? {
        return Ok(false);
    }
    look(wants, machine, search, waiting)
}

/// Steps the product state at i by each move, until one meets the wants.
fn try_moves(
    wants: &Wants,
    machine: &Machine,
    search: &mut Search,
    i: usize,
    waiting: &mut Waiting,
) -> Result<bool, NoMemory>
    requires machine { IsMachine wants.now.patterns machine.now }
    requires tree { HasTree wants.now search.old }
    requires within { i < length search.old.found }
    ensures { IfOk result (λ met. HasTree wants.now search.new) }
{
    for k in 0..machine.moves.len() {
        if try_move(wants, machine, search, i, k, waiting)? {
            return Ok(true);
        }
    }
    Ok(false)
}

/// Whether one of the product states that are found from so many of those that wait meets the wants.
/// It is the last one then.
fn reaches(
    wants: &Wants,
    machine: &Machine,
    search: &mut Search,
    most: usize,
    waiting: &mut Waiting,
) -> Result<bool, NoMemory>
    requires machine { IsMachine wants.now.patterns machine.now }
    requires tree { HasTree wants.now search.old }
    ensures { IfOk result (λ met. HasTree wants.now search.new) }
{
    for round in 0..most {
        if search.found.len() / FOUND_FOR_EACH > most {
            return Ok(false);
        }
        let Some(i) = waiting.pop() else {
            return Ok(false);
        };
        if i >= search.found.len() {
            return Ok(false);
        }
        if try_moves(wants, machine, search, i, waiting)? {
            return Ok(true);
        }
    }
    Ok(false)
}

/// A text that meets the wants, if one is found from so many product states.
pub fn eager_text(
    alloc: Global,
    wants: &Wants,
    machine: &Machine,
    most: usize,
) -> Result<Option<Text>, NoMemory>
    requires range { InRange (length wants.now.patterns) wants.now.clauses }
    requires machine { IsMachine wants.now.patterns machine.now }
    ensures { IfOk result (λ found. IfSome found (IsTextFor wants.now)) }
{
    let mut search = begin(alloc, wants.patterns.as_slice(), machine.count)?;
    let mut waiting = Waiting::new(alloc);
    waiting.push(0, 0)?;
    if !reaches(wants, machine, &mut search, most, &mut waiting)? {
        return Ok(None);
    }
    let last = search.parents.len() - 1;
    let text = text_of(alloc, search.parents.as_slice(), last)?;
    Ok(verified(wants, text))
}

/// A text that meets the wants, where one is found soon. Where none is found nothing follows.
///
/// Each literal names one of the patterns. The only error is want of memory.
pub fn text_soon(alloc: Global, wants: &Wants) -> Result<Option<Text>, NoMemory>
    requires range { InRange (length wants.now.patterns) wants.now.clauses }
    ensures { IfOk result (λ found. IfSome found (IsTextFor wants.now)) }
{
    if let Some(text) = proposed(alloc, wants)? {
        return Ok(Some(text));
    }
    let machine = machine_of(alloc, wants.patterns.as_slice())?;
    eager_text(alloc, wants, &machine, NEAR)
}
