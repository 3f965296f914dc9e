//! Decides a query in stages: by few splits, by learned clauses, by all splits.
ghost use Rattle.std.specs.Prelude.{◌≡◌, ◌≤◌, ◌<◌, ◌^◌, All, IfOk, IfSome, length};
ghost use Rattle.formula_tree.specs.Values.{AreBelow};
ghost use Rattle.policy_compile.specs.Queries.{asked_tree};
ghost use Rattle.policy_model.specs.Soundness.{SchemaIsSound, TestSuits};
ghost use Rattle.staged_search.specs.Stages.{AreStagesAsked, IsStagedVerdict};

use crate::verdict::{Verdict, is_out_of_splits, is_out_of_states, verdict_in};
use clause_search::{Outcome, search};
use plain_lists::NoMemory;
use policy_compile::Query;
use policy_model::Schema;
use refute_check::closed_queries_are_no;
use std::alloc::Global;
use tree_search::{Budgets, decide};

/// The splits of the first stage. What takes more is asked of the search that learns clauses, so that few of the splits
/// in their fixed order are in vain.
pub const FEW_SPLITS: u32 = 100;

/// Decides a query within budgets: by few splits, by a search that learns clauses, and by all splits, each where those
/// before it don't decide. The search that learns clauses splits in any order, so it decides much that takes the
/// search in the fixed order many splits, or states of slots that don't matter. A budget of at most 100 splits is
/// spent at once, and clauses aren't learned; and where few splits end at a slot that is too wide, all would end
/// there. Where a budget is too small it is one that `tree_search::decide` names.
///
/// The schema is sound and every test suits it, the formula's test numbers are below the number of tests, and both
/// budgets are at least 1. The only error is want of memory.
pub fn decide_in_stages(
    alloc: Global,
    schema: &Schema,
    query: &Query,
    budgets: Budgets,
) -> Result<Verdict, NoMemory>
    requires sound { SchemaIsSound schema.now }
    requires suit { All (TestSuits schema.now) query.now.tests }
    requires count { length query.now.tests < 2 ^ 32 }
    requires below { AreBelow (length query.now.tests) (asked_tree query.now) }
    requires splits { 1 ≤ budgets.splits }
    requires states { 1 ≤ budgets.states }
    ensures { IfOk result (IsStagedVerdict schema.now query.now budgets) }
{
    if budgets.splits <= FEW_SPLITS {
        return by_splits(alloc, schema, query, budgets);
    }
    let first = by_splits(alloc, schema, query, first_budgets(budgets))?;
    let short = is_out_of_splits(&first);
    if short || is_out_of_states(&first) {
        if let Some(found) = by_clauses(alloc, schema, query, budgets)? {
            return Ok(found);
        }
    }
    if short {
        return by_splits(alloc, schema, query, budgets);
    }
    Ok(first)
}

// The budgets of the first search: few splits, and all states.
fn first_budgets(budgets: Budgets) -> Budgets
    requires { 1 ≤ budgets.splits }
    ensures some { 1 ≤ result.splits }
    ensures few { result.splits ≤ budgets.splits }
    ensures states { result.states ≡ budgets.states }
{
    Budgets {
        splits: budgets.splits.min(FEW_SPLITS),
        states: budgets.states,
    }
}

// What the search in the fixed order decides.
fn by_splits(
    alloc: Global,
    schema: &Schema,
    query: &Query,
    budgets: Budgets,
) -> Result<Verdict, NoMemory>
    requires { AreStagesAsked schema.now query.now budgets }
    ensures { IfOk result (IsStagedVerdict schema.now query.now budgets) }
{
    closed_queries_are_no();
    let decided = decide(alloc, schema, query, budgets)?;
    Ok(verdict_in(decided))
}

// What the search that learns clauses finds, if anything.
fn by_clauses(
    alloc: Global,
    schema: &Schema,
    query: &Query,
    budgets: Budgets,
) -> Result<Option<Verdict>, NoMemory>
    requires { AreStagesAsked schema.now query.now budgets }
    ensures { IfOk result (λ found.
        IfSome found (IsStagedVerdict schema.now query.now budgets)) }
{
    match search(alloc, schema, query, budgets.states)? {
        Outcome::Refuted => Ok(Some(Verdict::Nobody)),
        Outcome::Met(request) => Ok(Some(Verdict::Met(request))),
        Outcome::Open => Ok(None),
    }
}
