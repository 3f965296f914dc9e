//! Strata of a query's tests.
ghost use Rattle.std.specs.Prelude.{◌≡◌, ◌↔◌, ◌<◌, ◌^◌, IsTrue, All, length};
ghost use Rattle.policy_model.specs.Soundness.{SchemaIsSound, TestSuits};
ghost use Rattle.slot_theory.specs.Slots.{SlotIsIn};
ghost use Rattle.strata.specs.declared.names.TheConstants.{MOST_PREDICATES};
ghost use Rattle.strata.specs.Asking.{IsAskedIn};
ghost use Rattle.strata.specs.Causes.{AreStrataOf};
ghost use Rattle.strata.specs.Making.{MakesAll, MakesStratum, NamesAll, SuitSlots};
ghost use Rattle.strata.specs.Predicates.{SuitsSlot};

use crate::covers::all_covered;
use crate::inclusion::Inclusion;
use crate::kept::kept_of;
use crate::names::{MOST_PREDICATES, named};
use crate::outcome::StrataFault;
use crate::predicate::PredicateList;
use crate::stratum::{Strata, Stratum};
use plain_lists::{EqualClone, List};
use policy_compile::Query;
use policy_model::{Schema, Slot, SlotList, Test};
use std::alloc::Global;

fn is_too_many(names: &PredicateList, most: u32) -> bool
    ensures { IsTrue result ↔ (most < length names.now) }
{
    names.len() > most as usize
}

// The predicates that are named in each of the slots. They are counted before anything is asked.
fn all_named(
    alloc: Global,
    tests: &[Test],
    slots: &[Slot],
    most: u32,
) -> Result<List<PredicateList>, StrataFault>
    requires { length slots.now < 2 ^ 32 }
    ensures { NamesAll most tests.now slots.now result }
{
    let mut all = List::new(alloc);
    for d in 0..slots.len() {
        let names = named(alloc, &slots[d], tests)?;
        if is_too_many(&names, most) {
            return Err(StrataFault::TooManyPredicates(d as u32));
        }
        all.push(names)?;
    }
    Ok(all)
}

// The stratum of the predicates that are named in the slot.
fn stratum<I: Inclusion>(
    alloc: Global,
    slot: &Slot,
    names: &PredicateList,
    by: &mut I,
) -> Result<Stratum, StrataFault>
    requires slot { IsAskedIn (I.schema by.old) slot.now }
    requires names { All (SuitsSlot (I.schema by.old) slot.now) names.now }
    requires few { length names.now < 2 ^ 32 }
    ensures makes { MakesStratum (I.schema by.old) (I.states by.old) slot.now names.now result }
    ensures schema { I.schema by.new ≡ I.schema by.old }
    ensures states { I.states by.new ≡ I.states by.old }
{
    let kept = kept_of(alloc, slot, names.as_slice(), by)?;
    let below = all_covered(alloc, kept.rows.as_slice())?;
    let copied = slot.copy()?;
    Ok(Stratum {
        slot: copied,
        predicates: kept.predicates,
        below,
        rows: kept.rows,
    })
}

fn all_strata<I: Inclusion>(
    alloc: Global,
    slots: &[Slot],
    all: &[PredicateList],
    by: &mut I,
) -> Result<Strata, StrataFault>
    requires slots { All (IsAskedIn (I.schema by.old)) slots.now }
    requires suit { SuitSlots (I.schema by.old) slots.now all.now }
    ensures makes { MakesAll (I.schema by.old) (I.states by.old) slots.now all.now result }
    ensures schema { I.schema by.new ≡ I.schema by.old }
    ensures states { I.states by.new ≡ I.states by.old }
{
    let mut dimensions = List::new(alloc);
    for d in 0..slots.len() {
        let made = stratum(alloc, &slots[d], &all[d], by)?;
        dimensions.push(made)?;
    }
    Ok(Strata { dimensions })
}

/// A stratum for each of the slots: what the query's tests name in it, in their order and behind `Every`,
/// and how the predicates stand to one another. A predicate is left out where no valid request meets it, or
/// where an earlier one is met by the same valid requests. Each ordered pair is asked about at most once,
/// and only while both are in.
///
/// The schema is sound, the query's tests suit it, each key among the slots is one of the schema's, the
/// slots are numbered by 32 bits, and `by` answers for the schema. `TooManyPredicates` comes exactly
/// where in some slot more than `most` predicates are named, `Every` among them.
pub fn strata_of<I: Inclusion>(
    alloc: Global,
    _schema: &Schema,
    query: &Query,
    slots: &SlotList,
    most: u32,
    by: &mut I,
) -> Result<Strata, StrataFault>
    requires sound { SchemaIsSound _schema.now }
    requires suit { All (TestSuits _schema.now) query.now.tests }
    requires slots { All (SlotIsIn _schema.now) slots.now }
    requires count { length slots.now < 2 ^ 32 }
    requires schema { I.schema by.old ≡ _schema.now }
    ensures outcome { AreStrataOf most _schema.now (I.states by.old) query.now slots.now result }
    ensures schema { I.schema by.new ≡ I.schema by.old }
    ensures states { I.states by.new ≡ I.states by.old }
{
    let all = all_named(alloc, query.tests.as_slice(), slots.as_slice(), most)?;
    all_strata(alloc, slots.as_slice(), all.as_slice(), by)
}

/// The same where at most 128 predicates may be named in a slot.
pub fn strata<I: Inclusion>(
    alloc: Global,
    schema: &Schema,
    query: &Query,
    slots: &SlotList,
    by: &mut I,
) -> Result<Strata, StrataFault>
    requires sound { SchemaIsSound schema.now }
    requires suit { All (TestSuits schema.now) query.now.tests }
    requires slots { All (SlotIsIn schema.now) slots.now }
    requires count { length slots.now < 2 ^ 32 }
    requires schema { I.schema by.old ≡ schema.now }
    ensures outcome { AreStrataOf MOST_PREDICATES schema.now (I.states by.old) query.now slots.now
        result }
    ensures schema { I.schema by.new ≡ I.schema by.old }
    ensures states { I.states by.new ≡ I.states by.old }
{
    strata_of(alloc, schema, query, slots, MOST_PREDICATES, by)
}
