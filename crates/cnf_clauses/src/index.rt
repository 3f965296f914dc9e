//! The index of a list of clauses: in which of them each literal stands, and which have no two literals
//! that differ.
ghost use Rattle.std.specs.Prelude.{◌≡◌, ◌+◌, ◌<◌, ℕ, Bool, [], length, slice_index_or, Contains, ◌⊎◌, OnOk, IfOk, IsTrue};
ghost use Rattle.cnf_clauses.specs.Indexes.{StandInIndex, StandsAgain, HasTwoLiterals, HoldsAll, IsIndexedWith, KeepsHeld, KeepsNumbers, held_at};
ghost use Rattle.cnf_clauses.specs.Numbering.{HaveNumbers};

use crate::clause::{Clause, Found, Literal, look};
use crate::decided::Decided;
use plain_lists::{List, NoMemory, fill_to};
use std::alloc::Global;

// By variable, the numbers of the clauses in which its literal that is true at yes stands, and of those
// in which the other one stands.
#[derive(Drop)]
pub(crate) struct Index {
    pub(crate) yes: Vec<List<u32>>,
    pub(crate) no: Vec<List<u32>>,
    pub(crate) short: List<u32>,
}

// Adds the number behind the others, unless it is the last of them: a clause may hold a literal several times,
// and is looked at once for it.
fn add_last(list: &mut List<u32>, number: u32) -> Result<(), NoMemory>
    ensures named { OnOk result (Contains list.new number) }
    ensures kept { OnOk result ((i : ℕ) → Contains list.old i → Contains list.new i) }
{
    if list.as_slice().last() == Some(&number) {
        return Ok(());
    }
    list.push(number)
}

fn add_number(
    alloc: Global,
    lists: &mut Vec<List<u32>>,
    variable: u32,
    number: u32,
) -> Result<(), NoMemory>
    ensures named { OnOk result (Contains (slice_index_or lists.new.items variable []) number) }
    ensures kept { OnOk result (KeepsNumbers lists.old.items lists.new.items) }
{
    fill_to(lists, variable as usize, List::new(alloc))?;
    add_last(&mut lists[variable as usize], number)
}

fn add_literal(
    alloc: Global,
    index: &mut Index,
    literal: Literal,
    number: u32,
) -> Result<(), NoMemory>
    ensures named { OnOk result (Contains (held_at index.new literal) number) }
    ensures kept { OnOk result (KeepsHeld index.old index.new) }
    ensures short { index.new.short ≡ index.old.short }
{
    if literal.1 {
        add_number(alloc, &mut index.yes, literal.0, number)
    } else {
        add_number(alloc, &mut index.no, literal.0, number)
    }
}

fn add_literals(
    alloc: Global,
    index: &mut Index,
    literals: &[Literal],
    number: u32,
) -> Result<(), NoMemory>
    ensures named { OnOk result (HoldsAll index.new literals.now number) }
    ensures kept { OnOk result (KeepsHeld index.old index.new) }
    ensures short { index.new.short ≡ index.old.short }
{
    'literals: for literal in literals {
        add_literal(alloc, index, *literal, number)?;
    }
    Ok(())
}

// Notes a clause that has no two literals that differ. `nothing` has no decided variable.
fn add_short(
    index: &mut Index,
    nothing: &Decided,
    literals: &[Literal],
    number: u32,
) -> Result<(), NoMemory>
    requires { nothing.now ≡ [] }
    ensures noted { OnOk result (HasTwoLiterals literals.now ⊎ Contains index.new.short number) }
    ensures kept { OnOk result ((i : ℕ) → Contains index.old.short i → Contains index.new.short i) }
    ensures lists { (l : ℕ × Bool) → held_at index.new l ≡ held_at index.old l }
{
    match look(nothing, literals) {
        Found::Open => Ok(()),
        _ => index.short.push(number),
    }
}

// Notes one more clause, by its number.
pub(crate) fn add_clause(
    alloc: Global,
    index: &mut Index,
    nothing: &Decided,
    literals: &[Literal],
    number: u32,
) -> Result<(), NoMemory>
    requires { nothing.now ≡ [] }
    ensures { OnOk result (IsIndexedWith index.old literals.now number index.new) }
{
    add_literals(alloc, index, literals, number)?;
    add_short(index, nothing, literals, number)?;
    Ok(())
}

// Whether the literals are equal.
fn is_same(one: Literal, other: Literal) -> bool
    ensures { IsTrue result → one ≡ other }
{
    one.0 == other.0 && one.1 == other.1
}

// Whether the lists of literals are equal. Long ones are taken for different.
fn are_equal(one: &[Literal], other: &[Literal]) -> bool
    ensures { IsTrue result → one.now ≡ other.now }
{
    if one.len() > 2 {
        return false;
    }
    if one.len() != other.len() {
        return false;
    }
    for i in 0..one.len() {
        if !is_same(one[i], other[i]) {
            return false;
        }
    }
    true
}

// Whether the clause is equal to the one before it, as clauses of two literals of a node with equal children are.
fn stands_again(clauses: &[Clause], i: usize) -> bool
    requires { i < length clauses.now }
    ensures { IsTrue result → StandsAgain clauses.now i }
{
    if i == 0 {
        return false;
    }
    are_equal(clauses[i - 1].as_slice(), clauses[i].as_slice())
}

// Notes the next clause. What is derived from one of equal clauses is derived from each, so that one of them is
// looked at.
fn add_next(
    alloc: Global,
    index: &mut Index,
    nothing: &Decided,
    clauses: &[Clause],
    i: usize,
) -> Result<(), NoMemory>
    requires nothing { nothing.now ≡ [] }
    requires within { i < length clauses.now }
    requires numbers { HaveNumbers clauses.now }
    requires before { StandInIndex clauses.now index.old i }
    ensures { OnOk result (StandInIndex clauses.now index.new (i + 1)) }
{
    let number = i as u32;
    let literals = clauses[i].as_slice();
    if stands_again(clauses, i) {
        return add_short(index, nothing, literals, number);
    }
    add_clause(alloc, index, nothing, literals, number)
}

// The index of the clauses.
pub(crate) fn index_of(alloc: Global, clauses: &[Clause]) -> Result<Index, NoMemory>
    requires { HaveNumbers clauses.now }
    ensures { IfOk result (λ index. StandInIndex clauses.now index (length clauses.now)) }
{
    let nothing = Decided::new(alloc);
    let mut index = Index {
        yes: Vec::new(alloc),
        no: Vec::new(alloc),
        short: List::new(alloc),
    };
    'clauses: for i in 0..clauses.len() {
        add_next(alloc, &mut index, &nothing, clauses, i)?;
    }
    Ok(index)
}
