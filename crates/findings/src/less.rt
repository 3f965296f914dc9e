//! The query of a region without what is needless in it. Findings are asked of by it.
ghost use Rattle.std.specs.Prelude.{◌≡◌, ◌<◌, ◌^◌, IfOk, length};
ghost use Rattle.formula_tree.specs.Values.{AreBelow};
ghost use Rattle.policy_compile.specs.Queries.{asked_tree};
ghost use Rattle.findings.specs.RegionQueries.{SaysAsMuch};

use formula_tree::{Branches, Formula};
use plain_lists::NoMemory;
use policy_compile::Query;
use policy_model::Schema;
use query_reduction::reduced;
use std::alloc::Global;

/// A query that says as much as that of a region, of the same tests.
#[derive(Drop)]
pub(crate) struct Less {
    pub(crate) query: Query,
    /// By a test's number whether the formula asks it. Nothing rests on the marks but which tests are looked at.
    pub(crate) asked: Vec<bool>,
}

/// Whether there is a mark at the index.
pub(crate) fn is_marked(marks: &[bool], index: usize) -> bool {
    index < marks.len() && marks[index]
}

// Marks the tests that the formula asks.
#[cycle(marks)]
fn mark(formula: &Formula, asked: &mut Vec<bool>) {
    match formula {
        Formula::Yes | Formula::No => {}
        Formula::Test(test) => {
            if let Some(mark) = asked.get_mut(*test as usize) {
                *mark = true;
            }
        }
        Formula::Not(inner) => mark(inner, asked),
        Formula::All(branches) | Formula::OneOf(branches) => mark_each(branches, asked),
    }
}

// Marks those that the branches ask.
#[cycle(marks)]
fn mark_each(branches: &Branches, asked: &mut Vec<bool>) {
    'branches: for i in 0..branches.len() {
        let Some(branch) = branches.get(i) else {
            break;
        };
        mark(branch, asked);
    }
}

// The marks of a query's tests.
fn asked_in(alloc: Global, query: &Query) -> Result<Vec<bool>, NoMemory> {
    let mut asked = Vec::new(alloc);
    'tests: for _ in 0..query.tests.len() {
        asked.push(false)?;
    }
    mark(&query.formula, &mut asked);
    Ok(asked)
}

impl Less {
    /// What is left of the query.
    pub(crate) fn of(alloc: Global, schema: &Schema, base: &Query) -> Result<Less, NoMemory>
        requires { AreBelow (length base.now.tests) (asked_tree base.now) }
        ensures { IfOk result (λ less. SaysAsMuch schema.now base.now less.query) }
    {
        let query = reduced(alloc, schema, base)?;
        let asked = asked_in(alloc, &query)?;
        Ok(Less { query, asked })
    }
}
