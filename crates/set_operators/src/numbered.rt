//! Items of conditions, and clauses over their numbers. The items are patterns where the value is a text,
//! and conditions where it isn't.
ghost use Rattle.std.specs.Prelude.{◌≡◌, ◌∷◌, [], ◌++◌, ◌+◌, ◌-◌, ◌<◌, ◌≤◌, ◌^◌, ℕ, List, Bool, true, false, flat_map, length, IfOk, OnOk};
ghost use Rattle.std.specs.Option.{option_to_list};
ghost use Rattle.set_operators.specs.Clauses.{ask_clauses, ask_items, asks_clauses, asks_items, numbered_literals, numbered_apart, item_clauses};
ghost use Rattle.set_operators.specs.Steps.{picked_asks};

use crate::ask::KeyAsk;
use crate::steps::{Choice, is_chosen};
use plain_lists::{List, NoMemory};
use policy_model::Cond;
use std::alloc::{AllocError, Global};

/// What a theory of values has in the place of a condition.
pub trait Item: Drop {
    ghost use Rattle.policy_model.specs.declared.cond.Cond.{Cond as Asked};

    ghost items_of: { Asked → List Self };

    /// The item of a condition, or none where the theory isn't on its kind of values.
    fn of_cond(cond: &Cond) -> Result<Option<Self>, NoMemory>
        ensures { IfOk result (λ item. option_to_list item ≡ items_of cond.now) };
}

/// That the item of a number is met, or that it isn't.
pub trait Numbered: Drop {
    ghost literal_of: { Bool → ℕ → Self };

    /// The literal of the number.
    fn literal(holds: bool, number: u32) -> Self
        ensures { result ≡ literal_of holds number };
}

// Only more than 2^32 items have a number without a literal, and none fit into memory.
fn literal_at<L: Numbered>(holds: bool, number: usize) -> Result<L, NoMemory>
    ensures { IfOk result (λ l. l ≡ L.literal_of holds number) }
{
    match u32::try_from(number) {
        Ok(number) => Ok(L::literal(holds, number)),
        Err(_) => Err(AllocError),
    }
}

// One clause of the literals of so many items, which are numbered from the first on.
#[tactic(auto, using(crate::proofs::Counting::numbered_more))]
fn one_clause<L: Numbered>(alloc: Global, first: usize, count: usize) -> Result<List<L>, NoMemory>
    requires { first + count < 2 ^ 64 }
    ensures { IfOk result (λ clause. clause ≡ numbered_literals (L.literal_of true) first count) }
{
    let mut clause = List::new(alloc);
    for k in 0..count {
        clause.push(literal_at(true, first + k)?)?;
    }
    Ok(clause)
}

// The clause that the item of a number isn't met.
fn no_clause<L: Numbered>(alloc: Global, number: usize) -> Result<List<L>, NoMemory>
    ensures { IfOk result (λ clause. clause ≡ L.literal_of false number ∷ []) }
{
    let mut clause = List::new(alloc);
    clause.push(literal_at(false, number)?)?;
    Ok(clause)
}

// Adds a clause for each of so many items, that it isn't met.
fn push_apart<L: Numbered>(
    alloc: Global,
    first: usize,
    count: usize,
    clauses: &mut List<List<L>>,
) -> Result<(), NoMemory>
    requires { first + count < 2 ^ 64 }
    ensures { OnOk result (
        clauses.new ≡ clauses.old ++ numbered_apart (L.literal_of false) first count) }
{
    for k in 0..count {
        clauses.push(no_clause(alloc, first + k)?)?;
    }
    Ok(())
}

/// Adds the clauses that some of so many items is met, or that none is. The items are numbered from the
/// first on.
pub fn push_some<L: Numbered>(
    alloc: Global,
    holds: bool,
    first: usize,
    count: usize,
    clauses: &mut List<List<L>>,
) -> Result<(), NoMemory>
    requires { first + count < 2 ^ 64 }
    ensures { OnOk result (
        clauses.new ≡ clauses.old ++ item_clauses L.literal_of holds first count) }
{
    if holds {
        clauses.push(one_clause(alloc, first, count)?)
    } else {
        push_apart(alloc, first, count, clauses)
    }
}

// Adds the item of a condition.
fn push_item<T: Item>(cond: &Cond, items: &mut List<T>) -> Result<(), NoMemory>
    ensures { OnOk result (items.new ≡ items.old ++ T.items_of cond.now) }
{
    match T::of_cond(cond)? {
        None => Ok(()),
        Some(item) => items.push(item),
    }
}

// Adds the items of conditions.
fn push_items<T: Item>(conds: &[Cond], items: &mut List<T>) -> Result<(), NoMemory>
    ensures { OnOk result (items.new ≡ items.old ++ flat_map T.items_of conds.now) }
{
    for cond in conds {
        push_item(cond, items)?;
    }
    Ok(())
}

// Adds the items of an ask.
fn push_ask<T: Item>(ask: &KeyAsk, items: &mut List<T>) -> Result<(), NoMemory>
    ensures { OnOk result (items.new ≡ items.old ++ ask_items T.items_of ask.now) }
{
    match ask {
        KeyAsk::Present => Ok(()),
        KeyAsk::SomeMeets(cond) => push_item(cond, items),
        KeyAsk::SomeMeetsNone(conds) => push_items(conds.as_slice(), items),
    }
}

// Adds the clauses of an ask, which has so many items.
fn push_clauses<L: Numbered>(
    alloc: Global,
    asked: &(KeyAsk, bool),
    first: usize,
    count: usize,
    clauses: &mut List<List<L>>,
) -> Result<(), NoMemory>
    requires { first + count < 2 ^ 64 }
    ensures { OnOk result (clauses.new ≡
        clauses.old ++ ask_clauses L.literal_of asked.now.0 asked.now.1 first count) }
{
    match asked.0 {
        KeyAsk::Present => Ok(()),
        KeyAsk::SomeMeets(_) => push_some(alloc, asked.1, first, count, clauses),
        KeyAsk::SomeMeetsNone(_) => push_some(alloc, !asked.1, first, count, clauses),
    }
}

/// The items of asks, and the clauses over their numbers.
#[derive(Drop)]
pub struct Asked<T, L> {
    pub items: List<T>,
    pub clauses: List<List<L>>,
}

// Adds the items and the clauses of an ask.
fn add_ask<T: Item, L: Numbered>(
    alloc: Global,
    one: &(KeyAsk, bool),
    asked: &mut Asked<T, L>,
) -> Result<(), NoMemory>
    ensures items { OnOk result (
        asked.new.items ≡ asked.old.items ++ ask_items T.items_of one.now.0) }
    ensures clauses { OnOk result (asked.new.clauses ≡ asked.old.clauses
        ++ ask_clauses L.literal_of one.now.0 one.now.1
        (length asked.old.items) (length (ask_items T.items_of one.now.0))) }
{
    let first = asked.items.len();
    push_ask(&one.0, &mut asked.items)?;
    let count = asked.items.len() - first;
    push_clauses(alloc, one, first, count, &mut asked.clauses)
}

// Adds those of an ask, if it is chosen.
fn add_chosen<T: Item, L: Numbered>(
    alloc: Global,
    choice: Choice,
    index: usize,
    one: &(KeyAsk, bool),
    asked: &mut Asked<T, L>,
) -> Result<(), NoMemory>
    ensures items { OnOk result (asked.new.items ≡
        asked.old.items ++ asks_items T.items_of (picked_asks choice index (one.now ∷ []))) }
    ensures clauses { OnOk result (asked.new.clauses ≡ asked.old.clauses
        ++ asks_clauses L.literal_of T.items_of (picked_asks choice index (one.now ∷ []))
        (length asked.old.items)) }
{
    if is_chosen(choice, index, one.1) {
        add_ask(alloc, one, asked)
    } else {
        Ok(())
    }
}

/// The items and the clauses of the asks that are chosen, in their order.
pub fn asked_of<T: Item, L: Numbered>(
    alloc: Global,
    asks: &[(KeyAsk, bool)],
    choice: Choice,
) -> Result<Asked<T, L>, NoMemory>
    ensures items { IfOk result (λ asked.
        asked.items ≡ asks_items T.items_of (picked_asks choice 0 asks.now)) }
    ensures clauses { IfOk result (λ asked. asked.clauses
        ≡ asks_clauses L.literal_of T.items_of (picked_asks choice 0 asks.now) 0) }
{
    let mut asked = Asked {
        items: List::new(alloc),
        clauses: List::new(alloc),
    };
    for i in 0..asks.len() {
        add_chosen(alloc, choice, i, &asks[i], &mut asked)?;
    }
    Ok(asked)
}
