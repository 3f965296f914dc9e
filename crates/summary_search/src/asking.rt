//! Whose a finding is, by the search.
ghost use Rattle.std.specs.Prelude.{◌≡◌, ◌≤◌};
ghost use Rattle.summary_search.specs.Deciding.{answer_to};

use findings::{Asked, Decide, Wide};
use plain_lists::NoMemory;
use policy_compile::Query;
use policy_model::Schema;
use staged_search::{Verdict, decide_in_stages};
use std::alloc::Global;
use tree_search::Budgets;

/// Answers the queries of findings by the search in stages, within budgets. No certificate comes from it.
#[derive(Drop)]
pub struct BySearch<'a> {
    schema: &'a Schema,
    splits: u32,
    states: u32,
    ghost some_splits: { 1 ≤ splits },
    ghost some_states: { 1 ≤ states },
}

impl<'a> BySearch<'a> {
    /// Answers for the schema within so many splits and states.
    pub fn new(schema: &'a Schema, splits: u32, states: u32) -> BySearch<'a>
        requires splits { 1 ≤ splits }
        requires states { 1 ≤ states }
        ensures schema { result.schema.now ≡ schema.now }
        ensures splits { result.splits ≡ splits }
        ensures states { result.states ≡ states }
    {
        BySearch {
            schema,
            splits,
            states,
        }
    }
}

// The verdict of the search, as an answer.
fn answer_to(verdict: Verdict) -> Asked
    ensures { result ≡ answer_to verdict }
{
    match verdict {
        Verdict::Nobody => Asked::Nobody,
        Verdict::Met(request) => Asked::Met(request),
        Verdict::OutOfSplits => Asked::OutOfSplits,
        Verdict::OutOfStates(wide) => Asked::OutOfStates(Wide {
            path: wide.path,
            slot: wide.slot,
            texts: wide.texts,
        }),
    }
}

impl<'a> Decide for BySearch<'a> {
    ghost schema = { λ by. by.schema.now };

    ghost splits = { λ by. by.splits };

    ghost states = { λ by. by.states };

    fn its_schema(&self) -> &Schema {
        self.schema
    }

    fn ask(&mut self, alloc: Global, query: &Query) -> Result<Asked, NoMemory> {
        let budgets = Budgets {
            splits: self.splits,
            states: self.states,
        };
        let verdict = decide_in_stages(alloc, self.schema, query, budgets)?;
        Ok(answer_to(verdict))
    }
}
