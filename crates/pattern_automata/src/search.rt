//! The search over product states, as words of marks.
ghost use Rattle.std.specs.Prelude.{◌≡◌, List, Bool, ◌+◌, ◌∷◌, ◌<◌, ◌≤◌, ℕ, [], length, slice_index_or, All, IfNone, IfOk, IfSome, IsTrue, OnOk};
ghost use Rattle.pattern_automata.specs.Marks.{mark_count};
ghost use Rattle.pattern_automata.specs.Tree.{IsRooted, IsTree, words_meet};
ghost use Rattle.pattern_automata.specs.Moves.{IsMove, fronts};
ghost use Rattle.pattern_automata.specs.Packed.{all_words, words_for};
ghost use Rattle.pattern_automata.specs.Closed.{InRange};
ghost use Rattle.pattern_automata.specs.Machine.{IsMachine};
ghost use Rattle.pattern_automata.specs.Search.{Ends, Expands, HasBegun, IsLeftAt, IsUnderWay, LeadsInto, StepsAsEarlier, Turns, Visits};
ghost use Rattle.pattern_automata.specs.Answer.{HaveWords, IsProduct, IsReport, IsTextFor};

use crate::eager::eager_text;
use crate::found::Found;
use crate::machine::{Machine, machine_of};
use crate::marks::start_all;
use crate::meets::clauses_met;
use crate::moves::{Move, Patch};
use crate::outcome::Product;
use crate::places::closed_of;
use crate::proposal::proposed;
use crate::tree::{Parent, Step, text_of, texts_of};
use crate::wants::Wants;
use crate::words::{leads_alike, pack, step_words};
use plain_lists::NoMemory;
use std::alloc::Global;
use wildcard_lang::{Pattern, Text};

/// Room for the words of a step.
#[derive(Drop)]
pub struct Room {
    /// The words without what is led to.
    pub moved: Vec<u64>,
    /// The words.
    pub words: Vec<u64>,
}

/// The product states found so far, with their parents.
#[derive(Drop)]
pub struct Search {
    pub found: Found,
    pub parents: Vec<Parent>,
    pub room: Room,
}

/// Whether the words meet the wants.
pub fn is_met(wants: &Wants, machine: &Machine, words: &[u64]) -> bool
    requires range { InRange (length wants.now.patterns) wants.now.clauses }
    requires machine { IsMachine wants.now.patterns machine.now }
    requires size { length words.now ≡ words_for (mark_count wants.now.patterns) }
    ensures { result ≡ words_meet machine.now.ends.items wants.now.clauses words.now }
{
    clauses_met(machine.ends.as_slice(), wants.clauses.as_slice(), words)
}

/// Makes the room's words those to which the move leads from the state.
pub fn step_into(
    wants: &Wants,
    machine: &Machine,
    step: &Move,
    state: &[u64],
    room: &mut Room,
) -> Result<(), NoMemory>
    requires machine { IsMachine wants.now.patterns machine.now }
    requires does { IsMove (fronts wants.now.patterns) step.now }
    requires size { length state.now ≡ words_for (mark_count wants.now.patterns) }
    ensures { OnOk result (LeadsInto wants.now state.now step.now room.new) }
{
    step_words(
        state,
        &machine.masks,
        step.patches.as_slice(),
        &mut room.moved,
        &mut room.words,
    )
}

/// Whether the move leads from the state where the first one does, which is that of a spare character.
fn leads_as_first(wants: &Wants, machine: &Machine, k: usize, step: &Move, state: &[u64]) -> bool
    requires machine { IsMachine wants.now.patterns machine.now }
    requires within { k < length machine.now.moves.items }
    requires does { IsMove (fronts wants.now.patterns) step.now }
    requires size { length state.now ≡ words_for (mark_count wants.now.patterns) }
    ensures { IsTrue result → StepsAsEarlier wants.now machine.now k step.now state.now }
{
    if k == 0 {
        return false;
    }
    if !machine.spared {
        return false;
    }
    leads_alike(state, step.patches.as_slice())
}

/// Whether the patches are equal.
fn is_same(patch: Patch, other: Patch) -> bool
    ensures { IsTrue result → patch ≡ other }
{
    if patch.index != other.index {
        return false;
    }
    if patch.one != other.one {
        return false;
    }
    if patch.stay != other.stay {
        return false;
    }
    patch.differs == other.differs
}

/// Whether all patches are equal.
pub fn are_same(patches: &[Patch], others: &[Patch]) -> bool
    ensures { IsTrue result → patches.now ≡ others.now }
{
    if patches.len() != others.len() {
        return false;
    }
    for i in 0..patches.len() {
        if !is_same(patches[i], others[i]) {
            return false;
        }
    }
    true
}

/// Whether the move leads where the one before it does, as that of a capital mostly does behind its letter's.
fn leads_as_before(wants: &Wants, machine: &Machine, k: usize, step: &Move, state: &[u64]) -> bool
    requires machine { IsMachine wants.now.patterns machine.now }
    requires within { k < length machine.now.moves.items }
    requires does { IsMove (fronts wants.now.patterns) step.now }
    ensures { IsTrue result → StepsAsEarlier wants.now machine.now k step.now state.now }
{
    if k == 0 {
        return false;
    }
    are_same(
        step.patches.as_slice(),
        machine.moves[k - 1].patches.as_slice(),
    )
}

/// Whether the move leads from the state where an earlier one does, so that it isn't worth a step.
pub fn leads_as_earlier(
    wants: &Wants,
    machine: &Machine,
    k: usize,
    step: &Move,
    state: &[u64],
) -> bool
    requires machine { IsMachine wants.now.patterns machine.now }
    requires within { k < length machine.now.moves.items }
    requires does { IsMove (fronts wants.now.patterns) step.now }
    requires size { length state.now ≡ words_for (mark_count wants.now.patterns) }
    ensures { IsTrue result → StepsAsEarlier wants.now machine.now k step.now state.now }
{
    if leads_as_before(wants, machine, k, step, state) {
        return true;
    }
    leads_as_first(wants, machine, k, step, state)
}

/// Steps the product state at i by the move, and keeps what is new.
pub fn turn(
    wants: &Wants,
    machine: &Machine,
    search: &mut Search,
    i: usize,
    step: &Move,
) -> Result<bool, NoMemory>
    requires machine { IsMachine wants.now.patterns machine.now }
    requires tree { IsTree wants.now.patterns search.old.found search.old.parents.items }
    requires within { i < length search.old.found }
    requires does { IsMove (fronts wants.now.patterns) step.now }
    ensures { IfOk result (Turns wants.now search.old search.new i step.now) }
{
    step_into(wants, machine, step, search.found.get(i), &mut search.room)?;
    if search.found.has(search.room.words.as_slice()) {
        return Ok(false);
    }
    search.found.push(search.room.words.as_slice())?;
    search.parents.push(Parent {
        state: i,
        character: step.character,
    })?;
    Ok(true)
}

/// A turn, and what it comes to.
fn visit(
    wants: &Wants,
    machine: &Machine,
    search: &mut Search,
    i: usize,
    step: &Move,
    limit: usize,
) -> Result<Step, NoMemory>
    requires machine { IsMachine wants.now.patterns machine.now }
    requires base { IsUnderWay wants.now machine.now search.old limit }
    requires within { i < length search.old.found }
    requires does { IsMove (fronts wants.now.patterns) step.now }
    ensures { IfOk result (Visits wants.now machine.now search.old search.new i step.now limit) }
{
    let new = turn(wants, machine, search, i, step)?;
    if !new {
        return Ok(Step::Left);
    }
    if is_met(wants, machine, search.room.words.as_slice()) {
        return Ok(Step::Met);
    }
    if search.found.len() > limit {
        return Ok(Step::Full);
    }
    Ok(Step::Left)
}

/// The turns of the product state at i, by each move that doesn't lead where an earlier one does.
fn expand(
    wants: &Wants,
    machine: &Machine,
    search: &mut Search,
    i: usize,
    limit: usize,
) -> Result<Step, NoMemory>
    requires machine { IsMachine wants.now.patterns machine.now }
    requires left { IsLeftAt wants.now machine.now search.old i limit }
    requires within { i < length search.old.found }
    ensures { IfOk result (Expands wants.now machine.now search.new i limit) }
{
    for k in 0..machine.moves.len() {
        let step = &machine.moves[k];
        if leads_as_earlier(wants, machine, k, step, search.found.get(i)) {
            continue;
        }
        match visit(wants, machine, search, i, step, limit)? {
            Step::Left => {}
            end => return Ok(end),
        }
    }
    Ok(Step::Left)
}

/// The turns of each product state from one on up to another. None where it goes on from there.
fn explore(
    wants: &Wants,
    machine: &Machine,
    search: &mut Search,
    from: usize,
    to: usize,
    limit: usize,
) -> Result<Option<Step>, NoMemory>
    requires machine { IsMachine wants.now.patterns machine.now }
    requires left { IsLeftAt wants.now machine.now search.old from limit }
    requires rising { from ≤ to }
    ensures ended { IfOk result
        (λ step. IfSome step (Ends wants.now machine.now search.new limit)) }
    ensures left { IfOk result
        (λ step. IfNone step (IsLeftAt wants.now machine.now search.new to limit)) }
{
    for i in from..to {
        if i >= search.found.len() {
            return Ok(Some(Step::Left));
        }
        match expand(wants, machine, search, i, limit)? {
            Step::Left => {}
            end => return Ok(Some(end)),
        }
    }
    Ok(None)
}

/// The turns of each product state from one on.
fn explore_all(
    wants: &Wants,
    machine: &Machine,
    search: &mut Search,
    from: usize,
    limit: usize,
) -> Result<Step, NoMemory>
    requires machine { IsMachine wants.now.patterns machine.now }
    requires left { IsLeftAt wants.now machine.now search.old from limit }
    requires within { from ≤ limit }
    ensures { IfOk result (Ends wants.now machine.now search.new limit) }
{
    match explore(wants, machine, search, from, limit, limit)? {
        Some(step) => Ok(step),
        None => Ok(Step::Left),
    }
}

/// The words alone.
fn first_found(alloc: Global, words: &[u64]) -> Result<Found, NoMemory>
    ensures { IfOk result (λ f. f ≡ words.now ∷ []) }
{
    let mut found = Found::new(alloc)?;
    found.push(words)?;
    Ok(found)
}

/// What stands for the parent of the first product state, which has none.
fn first_parents(alloc: Global) -> Result<Vec<Parent>, NoMemory>
    ensures { IfOk result (λ v. length v.items ≡ 1) }
{
    let mut parents = Vec::new(alloc);
    parents.push(Parent {
        state: 0,
        character: ' ',
    })?;
    Ok(parents)
}

/// A search that has found the product state of the empty text.
pub fn begin(alloc: Global, patterns: &[Pattern], count: usize) -> Result<Search, NoMemory>
    requires { count ≡ mark_count patterns.now }
    ensures { IfOk result (HasBegun patterns.now) }
{
    let words = start_words(alloc, patterns, count)?;
    Ok(Search {
        found: first_found(alloc, words.as_slice())?,
        parents: first_parents(alloc)?,
        room: Room {
            moved: Vec::new(alloc),
            words,
        },
    })
}

/// The words of the empty text.
pub fn start_words(alloc: Global, patterns: &[Pattern], count: usize) -> Result<Vec<u64>, NoMemory>
    requires { count ≡ mark_count patterns.now }
    ensures { IfOk result (λ v. v.items ≡ all_words patterns.now []) }
{
    let mut marks = vec![in alloc; false; count]?;
    start_all(patterns, marks.as_mut_slice());
    pack(alloc, marks.as_slice())
}

/// The answer from what the search came to.
fn answer(
    alloc: Global,
    patterns: &[Pattern],
    search: &Search,
    step: Step,
) -> Result<Product, NoMemory>
    requires rooted { IsRooted search.now.parents.items }
    requires nonempty { 0 < length search.now.parents.items }
    requires room { mark_count patterns.now < usize.MAX }
    requires sizes { HaveWords patterns.now search.now.found }
    ensures { IfOk result (IsReport patterns.now search.now.found search.now.parents.items step) }
{
    match step {
        Step::Left => Ok(Product::Empty(closed_of(alloc, patterns, &search.found)?)),
        Step::Met => {
            let last = search.parents.len() - 1;
            Ok(Product::Found(text_of(alloc, search.parents.as_slice(), last)?))
        }
        Step::Full => Ok(Product::TooMany(texts_of(alloc, search.parents.as_slice())?)),
    }
}

/// Up to this limit the search in the order of finding answers alone.
pub const FEW: usize = 2_000;

/// How many product states are looked at before a search that looks first where the fewest pieces are left
/// is tried.
const SOON: usize = 256;

/// That search is tried again each time that so many times as many product states have been looked at, and
/// looks itself at one for so many of them, so that it costs little where there is no text.
const IN_EACH: usize = 4;

/// A text that meets the wants, where the search in the order of finding has come to a limit that isn't small,
/// and the one that looks first where the fewest pieces are left finds one.
fn text_at_limit(
    alloc: Global,
    wants: &Wants,
    machine: &Machine,
    step: Step,
    limit: usize,
) -> Result<Option<Text>, NoMemory>
    requires range { InRange (length wants.now.patterns) wants.now.clauses }
    requires machine { IsMachine wants.now.patterns machine.now }
    ensures { IfOk result (λ found. IfSome found (IsTextFor wants.now)) }
{
    match step {
        Step::Full if limit > FEW => eager_text(alloc, wants, machine, FEW),
        _ => Ok(None),
    }
}

/// The product, from what the search came to.
fn told(
    alloc: Global,
    wants: &Wants,
    machine: &Machine,
    search: &Search,
    step: Step,
    limit: usize,
) -> Result<Product, NoMemory>
    requires range { InRange (length wants.now.patterns) wants.now.clauses }
    requires machine { IsMachine wants.now.patterns machine.now }
    requires ends { Ends wants.now machine.now search.now limit step }
    ensures { IfOk result (IsProduct wants.now.patterns wants.now.clauses limit) }
{
    if let Some(text) = text_at_limit(alloc, wants, machine, step, limit)? {
        return Ok(Product::Found(text));
    }
    answer(alloc, wants.patterns.as_slice(), search, step)
}

/// The product by a search in the order of finding, unless the one that looks first where the fewest pieces
/// are left finds a text on the way.
fn solve_on(
    alloc: Global,
    wants: &Wants,
    machine: &Machine,
    search: &mut Search,
    limit: usize,
) -> Result<Product, NoMemory>
    requires range { InRange (length wants.now.patterns) wants.now.clauses }
    requires machine { IsMachine wants.now.patterns machine.now }
    requires left { IsLeftAt wants.now machine.now search.old 0 limit }
    ensures { IfOk result (IsProduct wants.now.patterns wants.now.clauses limit) }
{
    let mut from = 0;
    let mut to = if limit > FEW { SOON } else { limit };
    'farther: while to < limit {
        if let Some(step) = explore(wants, machine, search, from, to, limit)? {
            return told(alloc, wants, machine, search, step, limit);
        }
        if let Some(text) = eager_text(alloc, wants, machine, to / IN_EACH)? {
            return Ok(Product::Found(text));
        }
        from = to;
        to = to.saturating_mul(IN_EACH);
    }
    let step = explore_all(wants, machine, search, from, limit)?;
    told(alloc, wants, machine, search, step, limit)
}

/// The product, from a search that has found the product state of the empty text.
fn solve_from(
    alloc: Global,
    wants: &Wants,
    machine: &Machine,
    search: &mut Search,
    limit: usize,
) -> Result<Product, NoMemory>
    requires range { InRange (length wants.now.patterns) wants.now.clauses }
    requires positive { 1 ≤ limit }
    requires machine { IsMachine wants.now.patterns machine.now }
    requires begun { HasBegun wants.now.patterns search.old }
    ensures { IfOk result (IsProduct wants.now.patterns wants.now.clauses limit) }
{
    if is_met(wants, machine, search.room.words.as_slice()) {
        return Ok(Product::Found(Text::from_chars(Vec::new(alloc))));
    }
    solve_on(alloc, wants, machine, search, limit)
}

/// The product, from what there is to know of the patterns.
pub fn solve(
    alloc: Global,
    wants: &Wants,
    machine: &Machine,
    limit: usize,
) -> Result<Product, NoMemory>
    requires range { InRange (length wants.now.patterns) wants.now.clauses }
    requires positive { 1 ≤ limit }
    requires machine { IsMachine wants.now.patterns machine.now }
    ensures { IfOk result (IsProduct wants.now.patterns wants.now.clauses limit) }
{
    let mut search = begin(alloc, wants.patterns.as_slice(), machine.count)?;
    solve_from(alloc, wants, machine, &mut search, limit)
}

/// Answers a text that meets the wants; or a closed set of at most `limit` product states, so that no
/// text does; or `limit + 1` texts, no two of which have the same product state.
///
/// Each literal names one of the patterns, and `limit`, the most product states that are looked at, is
/// at least 1. The only error is want of memory.
pub fn product(alloc: Global, wants: &Wants, limit: u32) -> Result<Product, NoMemory>
    requires range { InRange (length wants.now.patterns) wants.now.clauses }
    requires positive { 1 ≤ limit }
    ensures { IfOk result (IsProduct wants.now.patterns wants.now.clauses limit) }
{
    if limit as usize > FEW {
        if let Some(text) = proposed(alloc, wants)? {
            return Ok(Product::Found(text));
        }
    }
    let machine = machine_of(alloc, wants.patterns.as_slice())?;
    solve(alloc, wants, &machine, limit as usize)
}
