//! The search from its start to what is decided.
ghost use Rattle.std.specs.Prelude.{◌≡◌, ◌≢◌, ◌≤◌, ◌<◌, ◌^◌, [], All, IfOk, length};
ghost use Rattle.formula_tree.specs.Values.{AreBelow, value};
ghost use Rattle.formula_tree.specs.declared.value.Three.TheVariants.{No};
ghost use Rattle.policy_model.specs.Soundness.{SchemaIsSound, TestSuits};
ghost use Rattle.policy_compile.specs.Queries.{asked_tree};
ghost use Rattle.tree_search.specs.Decisions.{IsDecision, IsWithinSplits};
ghost use Rattle.tree_search.specs.Search.{IsAskedFor, followed_at};
ghost use Rattle.tree_search.specs.States.{IsStartState};
ghost use Rattle.tree_search.specs.Whole.{HasFewLabels, IsDecidedFrom, IsWholeSearch};

use crate::found::Found;
use crate::outcome::{Budgets, Decided};
use crate::search::Search;
use crate::state::State;
use cnf_clauses::{Following, Start, clauses_of};
use formula_tree::{Path, Three, value3};
use plain_lists::NoMemory;
use policy_compile::Query;
use policy_model::Schema;
use search_parts::{clauses_part, finished, value_part};
use std::alloc::Global;

/// Decides a query within budgets: it splits on the first open test, yes first, and closes a path by the tree's
/// value, by unit propagation over the query's clauses, by what it has learned or by a slot. Splits that have closed
/// are learned under the answers that they need, up to a most; and where the yes side of a split closes without the
/// split's answer, the no side isn't looked at. It stops for want of splits only where both the plain run and the
/// propagated run need more, and where one more split would be one more than the budget. A decision comes within the
/// budget: what leads to it is no more splits, where those that closed a side that was passed count as between the
/// splits of its refutation and those of both runs.
///
/// The schema is sound and every test suits it, the formula's test numbers are below the number of
/// tests, and both budgets are at least 1. The only error is want of memory.
pub fn decide(
    alloc: Global,
    schema: &Schema,
    query: &Query,
    budgets: Budgets,
) -> Result<Decided, NoMemory>
    requires sound { SchemaIsSound schema.now }
    requires suit { All (TestSuits schema.now) query.now.tests }
    requires count { length query.now.tests < 2 ^ 32 }
    requires below { AreBelow (length query.now.tests) (asked_tree query.now) }
    requires splits { 1 ≤ budgets.splits }
    requires states { 1 ≤ budgets.states }
    ensures decision { IfOk result (IsDecision schema.now query.now budgets) }
    ensures within { IfOk result (IsWithinSplits schema.now query.now budgets.splits) }
{
    // The schema's keys are in order, so the request of values that answer a path is valid.
    let _keys = schema.len();
    // The search and what it has learned are dropped before the labels are numbered anew.
    let found = found_of(alloc, schema, query, budgets)?;
    told(alloc, found)
}

// What the whole search finds.
fn found_of(
    alloc: Global,
    schema: &Schema,
    query: &Query,
    budgets: Budgets,
) -> Result<Found, NoMemory>
    requires { IsAskedFor schema.now query.now budgets.states }
    ensures { IfOk result (IsWholeSearch schema.now query.now budgets) }
{
    if let Three::No = value3(&query.formula, &Path::new(alloc)) {
        return Ok(Found::Refuted(value_part(alloc)?));
    }
    let clauses = clauses_of(alloc, &query.formula, query.tests.len() as u32)?;
    match Following::start(alloc, clauses)? {
        Start::Quiet(clauses) => begin(alloc, schema, query, budgets, clauses),
        Start::Met(conflict) => Ok(Found::Refuted(clauses_part(alloc, conflict)?)),
    }
}

// The search from the empty path, which neither the tree's value nor a clause closes.
fn begin(
    alloc: Global,
    schema: &Schema,
    query: &Query,
    budgets: Budgets,
    following: Following,
) -> Result<Found, NoMemory>
    requires asked { IsAskedFor schema.now query.now budgets.states }
    requires follows { following ≡ followed_at query.now [] }
    requires may { value [] (asked_tree query.now) ≢ No }
    ensures { IfOk result (IsWholeSearch schema.now query.now budgets) }
{
    let mut state = State::start(alloc, query, following, budgets.splits)?;
    search_from(alloc, schema, query, budgets, &mut state)
}

// Searches from the state there, which isn't used again where there is no memory.
fn search_from(
    alloc: Global,
    schema: &Schema,
    query: &Query,
    budgets: Budgets,
    state: &mut State,
) -> Result<Found, NoMemory>
    requires asked { IsAskedFor schema.now query.now budgets.states }
    requires starts { IsStartState query.now (followed_at query.now []) budgets.splits state.old }
    requires may { value [] (asked_tree query.now) ≢ No }
    ensures { IfOk result (IsWholeSearch schema.now query.now budgets) }
{
    let clauses = clauses_of(alloc, &query.formula, query.tests.len() as u32)?;
    let search = Search {
        alloc,
        schema,
        query,
        clauses: &clauses,
        states: budgets.states,
    };
    search.search(state)
}

// What is decided by what was found from the start: a refutation with its labels numbered by their lines.
fn told(alloc: Global, found: Found) -> Result<Decided, NoMemory>
    requires { HasFewLabels found }
    ensures { IfOk result (IsDecidedFrom found) }
{
    match found {
        Found::Refuted(part) => Ok(Decided::Refuted(finished(alloc, part)?)),
        Found::Met(request) => Ok(Decided::Met(request)),
        Found::OutOfSplits => Ok(Decided::OutOfSplits),
        Found::OutOfStates(wide) => Ok(Decided::OutOfStates(wide)),
    }
}
