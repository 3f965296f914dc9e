//! The last closed set that a product came to. Places name no characters: patterns that differ from others in
//! characters alone, and in nothing that a search looks at, have the same closed set, and need no search.
ghost use Rattle.std.specs.Prelude.{◌≡◌, ◌≤◌, length, IfOk, IfSome, IsTrue};
ghost use Rattle.pattern_automata.specs.Answer.{IsProduct};
ghost use Rattle.pattern_automata.specs.Closed.{InRange, IsClosedUnder};
ghost use Rattle.pattern_automata.specs.Last.{DifferInCharacters, patches_of};
ghost use Rattle.pattern_automata.specs.Machine.{IsMachine};

use crate::machine::{Machine, machine_of};
use crate::moves::Move;
use crate::outcome::Product;
use crate::proposal::proposed;
use crate::search::{FEW, are_same, solve};
use crate::states::Closed;
use crate::wants::{ClauseList, Literal, LiteralList, Wants};
use plain_lists::{EqualClone, NoMemory};
use std::alloc::Global;
use std::marker::Model;

/// A closed set of fewer product states is found sooner than kept.
const LEAST_KEPT: usize = 64;

/// A closed set of more product states isn't kept, since it takes much memory.
const MOST_KEPT: usize = 16_384;

/// A closed set, and what it was made from.
#[derive(Drop)]
struct Known {
    clauses: ClauseList,
    machine: Machine,
    closed: Closed,
}

impl Model for Known {
    ghost use Rattle.std.specs.Prelude.{ℕ, List};

    ghost Value = { List (List (List ℕ)) };

    ghost use Rattle.pattern_automata.specs.Last.{IsClosedBy};

    ghost view = { λ k. k.closed };

    ghost invariant = { λ k. IsClosedBy k.clauses k.machine k.closed };
}

/// The last closed set that a product came to, if any was worth keeping. It keeps its allocator.
#[derive(Drop)]
pub struct LastClosed {
    alloc: Global,
    known: Option<Known>,
}

/// Whether the moves have the same patches, one by one.
fn have_same_patches(moves: &[Move], others: &[Move]) -> bool
    ensures { IsTrue result → patches_of moves.now ≡ patches_of others.now }
{
    if moves.len() != others.len() {
        return false;
    }
    'moves: for i in 0..moves.len() {
        if !are_same(moves[i].patches.as_slice(), others[i].patches.as_slice()) {
            return false;
        }
    }
    true
}

/// Whether the machines differ at most in the characters of their moves.
fn differ_in_characters(machine: &Machine, other: &Machine) -> bool
    ensures { IsTrue result → DifferInCharacters machine.now other.now }
{
    if machine.ends.as_slice() != other.ends.as_slice() {
        return false;
    }
    if machine.masks.one.as_slice() != other.masks.one.as_slice() {
        return false;
    }
    if machine.masks.many.as_slice() != other.masks.many.as_slice() {
        return false;
    }
    have_same_patches(machine.moves.as_slice(), other.moves.as_slice())
}

/// Whether the literals are equal.
fn are_same_literals(literals: &[Literal], others: &[Literal]) -> bool
    ensures { IsTrue result → literals.now ≡ others.now }
{
    if literals.len() != others.len() {
        return false;
    }
    'literals: for i in 0..literals.len() {
        let (literal, other) = (literals[i], others[i]);
        if literal.pattern != other.pattern || literal.holds != other.holds {
            return false;
        }
    }
    true
}

/// Whether the clauses are equal.
fn are_same_clauses(clauses: &[LiteralList], others: &[LiteralList]) -> bool
    ensures { IsTrue result → clauses.now ≡ others.now }
{
    if clauses.len() != others.len() {
        return false;
    }
    'clauses: for i in 0..clauses.len() {
        if !are_same_literals(clauses[i].as_slice(), others[i].as_slice()) {
            return false;
        }
    }
    true
}

impl Known {
    /// Whether the set is closed for what is wanted too.
    fn is_for(&self, wants: &Wants, machine: &Machine) -> bool
        requires { IsMachine wants.now.patterns machine.now }
        ensures { IsTrue result → IsClosedUnder wants.now self.now }
    {
        if !are_same_clauses(self.clauses.as_slice(), wants.clauses.as_slice()) {
            return false;
        }
        differ_in_characters(&self.machine, machine)
    }

    /// The set.
    fn closed(&self) -> &Closed
        ensures { result.now ≡ self.now }
    {
        &self.closed
    }
}

/// The closed set, with what it was made from, if it is worth keeping.
fn known_of(
    alloc: Global,
    wants: &Wants,
    machine: Machine,
    closed: &Closed,
) -> Result<Option<Known>, NoMemory>
    requires machine { IsMachine wants.now.patterns machine }
    requires closed { IsClosedUnder wants.now closed.now }
{
    if closed.len() < LEAST_KEPT || closed.len() > MOST_KEPT {
        return Ok(None);
    }
    let clauses = wants.clauses.copy()?;
    let closed = closed.copy(alloc)?;
    Ok(Some(Known {
        clauses,
        machine,
        closed,
    }))
}

impl LastClosed {
    /// None was kept.
    pub fn new(alloc: Global) -> LastClosed {
        LastClosed { alloc, known: None }
    }

    /// Its allocator.
    pub fn alloc(&self) -> Global {
        self.alloc
    }

    /// The set that is known, if it is closed for what is wanted, and no larger than the limit.
    fn again(
        &self,
        wants: &Wants,
        machine: &Machine,
        limit: usize,
    ) -> Result<Option<Closed>, NoMemory>
        requires { IsMachine wants.now.patterns machine.now }
        ensures closed { IfOk result (λ found. IfSome found (IsClosedUnder wants.now)) }
        ensures count { IfOk result (λ found. IfSome found (λ set. length set ≤ limit)) }
    {
        let Some(known) = &self.known else {
            return Ok(None);
        };
        if !known.is_for(wants, machine) {
            return Ok(None);
        }
        let closed = known.closed();
        if closed.len() > limit {
            return Ok(None);
        }
        Ok(Some(closed.copy(self.alloc)?))
    }

    /// Keeps the closed set, if it is worth it.
    fn keep(&mut self, wants: &Wants, machine: Machine, closed: &Closed) -> Result<(), NoMemory>
        requires machine { IsMachine wants.now.patterns machine }
        requires closed { IsClosedUnder wants.now closed.now }
    {
        if let Some(known) = known_of(self.alloc, wants, machine, closed)? {
            self.known = Some(known);
        }
        Ok(())
    }
}

/// The product by a search, whose closed set is kept.
fn searched(
    wants: &Wants,
    machine: Machine,
    limit: usize,
    last: &mut LastClosed,
) -> Result<Product, NoMemory>
    requires range { InRange (length wants.now.patterns) wants.now.clauses }
    requires positive { 1 ≤ limit }
    requires machine { IsMachine wants.now.patterns machine }
    ensures { IfOk result (IsProduct wants.now.patterns wants.now.clauses limit) }
{
    let product = solve(last.alloc, wants, &machine, limit)?;
    if let Product::Empty(closed) = &product {
        last.keep(wants, machine, closed)?;
    }
    Ok(product)
}

/// What `product` answers, without a search where the closed set of an earlier product, which is kept in `last`,
/// is one for these patterns too. Nothing is promised of `last` itself.
pub fn product_after(wants: &Wants, limit: u32, last: &mut LastClosed) -> Result<Product, NoMemory>
    requires range { InRange (length wants.now.patterns) wants.now.clauses }
    requires positive { 1 ≤ limit }
    ensures { IfOk result (IsProduct wants.now.patterns wants.now.clauses limit) }
{
    let alloc = last.alloc;
    if limit as usize > FEW {
        if let Some(text) = proposed(alloc, wants)? {
            return Ok(Product::Found(text));
        }
    }
    let machine = machine_of(alloc, wants.patterns.as_slice())?;
    if let Some(closed) = last.again(wants, &machine, limit as usize)? {
        return Ok(Product::Empty(closed));
    }
    searched(wants, machine, limit as usize, last)
}
