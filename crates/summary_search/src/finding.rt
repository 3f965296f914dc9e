//! The strata and the summary of a region by the search.
ghost use Rattle.std.specs.Prelude.{◌≤◌, IfOk};
ghost use Rattle.strata.specs.Causes.{AreStrataOf};
ghost use Rattle.summary_search.specs.MadeStrata.{StrataAreMade};
ghost use Rattle.summary_search.specs.Outcomes.{AreAskable, AreInRange, AreStrataWithin, IsOfSomeRegion, IsOutcomeFor};

use crate::asking::BySearch;
use crate::inclusion::ByProducts;
use crate::outcome::{Limits, Outcome};
use findings::{SummaryFault, summarise};
use plain_lists::NoMemory;
use policy_compile::{Query, tests_of_queries_suit, tests_of_set_queries_suit};
use policy_model::{Schema, SlotList};
use request_build::sound_schemas_have_requests;
use std::alloc::{AllocError, Global};
use strata::{Strata, StrataFault, strata_of};

// The summary of a region whose strata are these.
fn summary_of(
    alloc: Global,
    schema: &Schema,
    query: &Query,
    slots: &SlotList,
    made: Strata,
    limits: Limits,
) -> Result<Outcome, NoMemory>
    requires askable { AreAskable schema.now slots.now }
    requires region { IsOfSomeRegion schema.now query.now }
    requires limits { AreInRange limits }
    requires made { AreStrataWithin limits.predicates schema.now query.now slots.now made }
    ensures { IfOk result (IsOutcomeFor schema.now query.now slots.now limits) }
{
    sound_schemas_have_requests();
    let mut asks = BySearch::new(schema, limits.splits, limits.states);
    match summarise(alloc, &made, query, &mut asks, limits.findings) {
        Ok(summary) => Ok(Outcome::Found(made, summary)),
        Err(SummaryFault::OutOfFindings) => Ok(Outcome::OutOfFindings),
        Err(SummaryFault::OutOfSplits(finding)) => Ok(Outcome::OutOfSplits(made, finding)),
        Err(SummaryFault::OutOfStates(finding, wide)) => {
            Ok(Outcome::OutOfStates(made, finding, wide))
        }
        Err(SummaryFault::NoMemory) => Err(AllocError),
    }
}

/// Strata of a region's query are what findings of the region are asked of.
pub fn strata_are_made()
    ensures { StrataAreMade }
{
    sound_schemas_have_requests();
}

/// The strata of a region, whose query this is, by the slots. Products of at most so many states decide which
/// predicates lie below which. `TooManyPredicates` comes exactly where more than so many predicates are
/// named in a slot, `Every` among them, and `Wide` only where two predicates of a slot take more states.
///
/// The conditions are those of `find_summary`.
pub fn find_strata(
    alloc: Global,
    schema: &Schema,
    query: &Query,
    slots: &SlotList,
    predicates: u32,
    states: u32,
) -> Result<Strata, StrataFault>
    requires askable { AreAskable schema.now slots.now }
    requires region { IsOfSomeRegion schema.now query.now }
    requires states { 1 ≤ states }
    ensures { AreStrataOf predicates schema.now states query.now slots.now result }
{
    tests_of_set_queries_suit();
    tests_of_queries_suit();
    let mut by = ByProducts::new(schema, states);
    strata_of(alloc, schema, query, slots, predicates, &mut by)
}

/// The summary of a region, whose query this is, by the slots: the maximal irreducible findings, each with a
/// request of its own. Or the one cause why there is none, which names a limit that is below the need.
///
/// The schema is sound and fits the region, the query is the region's, the slots differ and are numbered by 32
/// bits, each key among them is one of the schema's, and each budget is at least 1. The only error is want of
/// memory.
pub fn find_summary(
    alloc: Global,
    schema: &Schema,
    query: &Query,
    slots: &SlotList,
    limits: Limits,
) -> Result<Outcome, NoMemory>
    requires askable { AreAskable schema.now slots.now }
    requires region { IsOfSomeRegion schema.now query.now }
    requires limits { AreInRange limits }
    ensures { IfOk result (IsOutcomeFor schema.now query.now slots.now limits) }
{
    match find_strata(
        alloc,
        schema,
        query,
        slots,
        limits.predicates,
        limits.states,
    ) {
        Ok(made) => summary_of(alloc, schema, query, slots, made, limits),
        Err(StrataFault::TooManyPredicates(dimension)) => {
            Ok(Outcome::TooManyPredicates(dimension))
        }
        Err(StrataFault::Wide(slot, texts)) => Ok(Outcome::Wide(slot, texts)),
        Err(StrataFault::NoMemory) => Err(AllocError),
    }
}
