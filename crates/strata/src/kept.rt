//! Which of the predicates that are named are kept, and how those stand to one another.
ghost use Rattle.std.specs.Prelude.{◌≡◌, [], ◌∷◌, ◌++◌, ◌&&◌, List, All, OnOk};
ghost use Rattle.strata.specs.declared.predicate.Predicate.{Predicate};
ghost use Rattle.strata.specs.Asking.{IsAskedIn};
ghost use Rattle.strata.specs.Below.{IsMetUnder};
ghost use Rattle.strata.specs.Predicates.{SuitsSlot};
ghost use Rattle.strata.specs.Settling.{AreKeptSoFar, IsRowOf, KeepsOf, KeepsOneMore};

use crate::asking::{is_met, is_within};
use crate::inclusion::Inclusion;
use crate::outcome::StrataFault;
use crate::predicate::{Predicate, PredicateList};
use crate::rows::Row;
use plain_lists::{EqualClone, List, NoMemory};
use policy_model::Slot;
use std::alloc::Global;

// The predicates that are kept, each with its row.
#[derive(Drop)]
pub(crate) struct Kept {
    pub(crate) predicates: PredicateList,
    pub(crate) rows: List<Row>,
}

// Adds a predicate with its row.
fn add(kept: &mut Kept, predicate: Predicate, row: Row) -> Result<(), NoMemory>
    ensures predicates { OnOk result
        (kept.new.predicates ≡ kept.old.predicates ++ predicate ∷ []) }
    ensures rows { OnOk result (kept.new.rows ≡ kept.old.rows ++ row ∷ []) }
{
    kept.predicates.push(predicate)?;
    kept.rows.push(row)?;
    Ok(())
}

// Whether two predicates are met by the same requests: each is below the other.
fn is_same(below: bool, above: bool) -> bool
    ensures { result ≡ (below && above) }
{
    below && above
}

// How the predicate stands to those that are kept, or none where one of them is met by the same
// requests: then nothing more is asked about it.
fn row_of<I: Inclusion>(
    alloc: Global,
    slot: &Slot,
    kept: &[Predicate],
    one: &Predicate,
    by: &mut I,
) -> Result<Option<Row>, StrataFault>
    requires slot { IsAskedIn (I.schema by.old) slot.now }
    requires kept { All (SuitsSlot (I.schema by.old) slot.now) kept.now }
    requires one { SuitsSlot (I.schema by.old) slot.now one.now }
    requires kept_met { All (IsMetUnder (I.schema by.old) slot.now) kept.now }
    requires met { IsMetUnder (I.schema by.old) slot.now one.now }
    ensures row { IsRowOf (I.schema by.old) (I.states by.old) slot.now kept.now one.now result }
    ensures schema { I.schema by.new ≡ I.schema by.old }
    ensures states { I.states by.new ≡ I.states by.old }
{
    let mut row = Row::new(alloc);
    for other in kept {
        let below = is_within(alloc, slot, one, other, by)?;
        let above = is_within(alloc, slot, other, one, by)?;
        if is_same(below, above) {
            return Ok(None);
        }
        row.below.push(below)?;
        row.above.push(above)?;
    }
    Ok(Some(row))
}

// Looks at one more predicate, and keeps it where some valid request meets it and none of those that
// are kept is met by the same ones.
fn look_at<I: Inclusion>(
    alloc: Global,
    slot: &Slot,
    kept: &mut Kept,
    one: &Predicate,
    by: &mut I,
) -> Result<(), StrataFault>
    requires slot { IsAskedIn (I.schema by.old) slot.now }
    requires kept { All (SuitsSlot (I.schema by.old) slot.now) kept.old.predicates }
    requires one { SuitsSlot (I.schema by.old) slot.now one.now }
    requires met { All (IsMetUnder (I.schema by.old) slot.now) kept.old.predicates }
    ensures keeps { (names : List Predicate) →
        AreKeptSoFar (I.schema by.old) slot.now names kept.old →
        KeepsOneMore (I.schema by.old) (I.states by.old) slot.now (names ++ one.now ∷ []) kept.new
        result }
    ensures schema { I.schema by.new ≡ I.schema by.old }
    ensures states { I.states by.new ≡ I.states by.old }
{
    let met = is_met(alloc, slot, one, by)?;
    if !met {
        return Ok(());
    }
    let found = row_of(alloc, slot, kept.predicates.as_slice(), one, by)?;
    match found {
        None => Ok(()),
        Some(row) => {
            let copied = one.copy()?;
            add(kept, copied, row)?;
            Ok(())
        }
    }
}

// Those that are kept of the predicates that are named.
pub(crate) fn kept_of<I: Inclusion>(
    alloc: Global,
    slot: &Slot,
    names: &[Predicate],
    by: &mut I,
) -> Result<Kept, StrataFault>
    requires slot { IsAskedIn (I.schema by.old) slot.now }
    requires names { All (SuitsSlot (I.schema by.old) slot.now) names.now }
    ensures keeps { KeepsOf (I.schema by.old) (I.states by.old) slot.now names.now result }
    ensures schema { I.schema by.new ≡ I.schema by.old }
    ensures states { I.states by.new ≡ I.states by.old }
{
    let mut kept = Kept {
        predicates: List::new(alloc),
        rows: List::new(alloc),
    };
    for one in names {
        look_at(alloc, slot, &mut kept, one, by)?;
    }
    Ok(kept)
}
