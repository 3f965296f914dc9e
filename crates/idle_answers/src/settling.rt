//! The search settles queries.
ghost use Rattle.std.specs.Prelude.{◌≡◌, ◌≤◌};
ghost use Rattle.idle_answers.specs.Deciding.{settled_of};

use findings::Wide;
use plain_lists::NoMemory;
use policy_compile::Query;
use policy_model::Schema;
use set_questions::{Settle, Settled};
use std::alloc::Global;
use tree_search::{Budgets, Decided, decide};

/// Settles queries by the search, within budgets.
#[derive(Drop)]
pub(crate) struct ByRefutation<'a> {
    schema: &'a Schema,
    budgets: Budgets,
    ghost some_splits: { 1 ≤ budgets.splits },
    ghost some_states: { 1 ≤ budgets.states },
}

impl<'a> ByRefutation<'a> {
    /// Settles for the schema within the budgets.
    pub(crate) fn new(schema: &'a Schema, budgets: Budgets) -> ByRefutation<'a>
        requires splits { 1 ≤ budgets.splits }
        requires states { 1 ≤ budgets.states }
        ensures schema { result.schema.now ≡ schema.now }
        ensures budgets { result.budgets ≡ budgets }
    {
        ByRefutation { schema, budgets }
    }
}

// What the search decided settles the query.
fn settled_of(decided: Decided) -> Settled
    ensures { result ≡ settled_of decided }
{
    match decided {
        Decided::Refuted(refutation) => Settled::Nobody(refutation),
        Decided::Met(request) => Settled::Met(request),
        Decided::OutOfSplits => Settled::OutOfSplits,
        Decided::OutOfStates(wide) => Settled::OutOfStates(Wide {
            path: wide.path,
            slot: wide.slot,
            texts: wide.texts,
        }),
    }
}

impl<'a> Settle for ByRefutation<'a> {
    ghost schema = { λ by. by.schema.now };

    ghost splits = { λ by. by.budgets.splits };

    ghost states = { λ by. by.budgets.states };

    fn settle(&mut self, alloc: Global, query: &Query) -> Result<Settled, NoMemory> {
        let decided = decide(alloc, self.schema, query, self.budgets)?;
        Ok(settled_of(decided))
    }
}
