//! Decides whether a set needs one of its statements.
ghost use Rattle.std.specs.Prelude.{◌≡◌, ◌≤◌, false, IfOk};
ghost use Rattle.policy_compile.specs.Limits.{IsWithinLimits};
ghost use Rattle.policy_compile.specs.Sets.{set_plan};
ghost use Rattle.refute_check.specs.Proofs.{proof_of};
ghost use Rattle.run_inputs.specs.OneSets.{FitsItsSchema};
ghost use Rattle.set_questions.specs.Idle.{IsNameIn};
ghost use Rattle.set_questions.specs.Laws.{DecidesUse};
ghost use Rattle.idle_answers.specs.Deciding.{IsAnswerByVerdict, IsIdleAnswer, IsAnswerToUse, AreChangesOf, IsStagedUseAnswer};
ghost use Rattle.idle_answers.specs.UseAnswers.{IsUseAnswerAt};

use crate::answer::{UseAnswer, is_undecided};
use crate::settling::ByRefutation;
use plain_lists::NoMemory;
use policy_compile::Query;
use policy_model::StatementName;
use proof_text::{closing_proofs_are_small, closing_proofs_have_no_fault, write_proof};
use refute_check::Refutation;
use request_json::written_requests_are_read_again;
use run_inputs::{OneSet, Shortage};
use set_questions::{Changes, Use, change_queries_tell, change_query, use_of};
use staged_search::{Verdict, decide_in_stages};
use std::alloc::Global;
use tree_search::Budgets;

// The answer to an idle statement: its certificate, where one is asked for.
fn idle_answer(
    alloc: Global,
    refutation: &Refutation,
    version: u32,
    certified: bool,
) -> Result<UseAnswer, NoMemory>
    ensures { IfOk result (IsIdleAnswer certified version (proof_of refutation.now)) }
{
    if certified {
        Ok(UseAnswer::Proved(write_proof(alloc, refutation, version)?))
    } else {
        Ok(UseAnswer::Idle)
    }
}

// The answer to the use of a statement.
fn told_use(
    alloc: Global,
    told: Use,
    version: u32,
    budgets: Budgets,
    certified: bool,
) -> Result<UseAnswer, NoMemory>
    ensures { IfOk result (IsAnswerToUse certified version budgets told) }
{
    match told {
        Use::Used(request) => {
            request.keys_are_well_kept();
            Ok(UseAnswer::Used(request))
        }
        Use::Idle(refutation) => idle_answer(alloc, &refutation, version, certified),
        Use::OutOfSplits => Ok(UseAnswer::Undecided(Shortage::Splits(budgets.splits))),
        Use::OutOfStates(wide) => Ok(UseAnswer::Undecided(Shortage::States(
            budgets.states,
            wide.slot,
        ))),
    }
}

// The answer by the verdict on a query.
fn answer_by(verdict: Verdict, budgets: Budgets) -> UseAnswer
    ensures { IsAnswerByVerdict budgets verdict result }
{
    match verdict {
        Verdict::Nobody => UseAnswer::Idle,
        Verdict::Met(request) => {
            request.keys_are_well_kept();
            UseAnswer::Used(request)
        }
        Verdict::OutOfSplits => UseAnswer::Undecided(Shortage::Splits(budgets.splits)),
        Verdict::OutOfStates(wide) => {
            UseAnswer::Undecided(Shortage::States(budgets.states, wide.slot))
        }
    }
}

// The answer by a query that decides the use of the statement. No certificate of it is asked for, so searches in any
// order may tell it.
fn staged_answer(
    alloc: Global,
    one: &OneSet,
    name: StatementName,
    query: &Query,
    budgets: Budgets,
) -> Result<UseAnswer, NoMemory>
    requires fitting { FitsItsSchema one.now }
    requires decides { DecidesUse one.now.schema one.now.set name query.now }
    requires splits { 1 ≤ budgets.splits }
    requires states { 1 ≤ budgets.states }
    ensures { IfOk result (IsStagedUseAnswer budgets one.now name query.now) }
{
    written_requests_are_read_again();
    let verdict = decide_in_stages(alloc, &one.schema, query, budgets)?;
    Ok(answer_by(verdict, budgets))
}

// The answer by the whole change query, with a certificate of it where one is asked for.
fn whole_answer(
    alloc: Global,
    one: &OneSet,
    name: StatementName,
    budgets: Budgets,
    certified: bool,
) -> Result<UseAnswer, NoMemory>
    requires fitting { FitsItsSchema one.now }
    requires named { IsNameIn one.now.set name }
    requires within { IsWithinLimits (set_plan one.now.schema one.now.set) }
    requires splits { 1 ≤ budgets.splits }
    requires states { 1 ≤ budgets.states }
    ensures { IfOk result (IsUseAnswerAt certified budgets one.now name) }
{
    let mut by = ByRefutation::new(&one.schema, budgets);
    closing_proofs_are_small();
    closing_proofs_have_no_fault();
    written_requests_are_read_again();
    let told = use_of(alloc, &one.schema, &one.set, name, &mut by)?;
    told_use(alloc, told, one.schema.version, budgets, certified)
}

// The answer by the change query, without a certificate.
fn change_answer(
    alloc: Global,
    one: &OneSet,
    name: StatementName,
    budgets: Budgets,
) -> Result<UseAnswer, NoMemory>
    requires fitting { FitsItsSchema one.now }
    requires named { IsNameIn one.now.set name }
    requires within { IsWithinLimits (set_plan one.now.schema one.now.set) }
    requires splits { 1 ≤ budgets.splits }
    requires states { 1 ≤ budgets.states }
    ensures { IfOk result (IsUseAnswerAt false budgets one.now name) }
{
    let query = change_query(alloc, &one.schema, &one.set, name)?;
    change_queries_tell();
    staged_answer(alloc, one, name, &query, budgets)
}

// The answer without a certificate: by a reduced query, where it decides.
fn plain_answer(
    alloc: Global,
    one: &OneSet,
    changes: &mut Changes<'_>,
    name: StatementName,
    budgets: Budgets,
) -> Result<UseAnswer, NoMemory>
    requires fitting { FitsItsSchema one.now }
    requires changes { AreChangesOf one.now changes.old }
    requires named { IsNameIn one.now.set name }
    requires within { IsWithinLimits (set_plan one.now.schema one.now.set) }
    requires splits { 1 ≤ budgets.splits }
    requires states { 1 ≤ budgets.states }
    ensures same { changes.new ≡ changes.old }
    ensures answer { IfOk result (IsUseAnswerAt false budgets one.now name) }
{
    let Some(query) = changes.query_of(name)? else {
        return change_answer(alloc, one, name, budgets);
    };
    let answer = staged_answer(alloc, one, name, &query, budgets)?;
    if is_undecided(&answer) {
        return whole_answer(alloc, one, name, budgets, false);
    }
    Ok(answer)
}

/// Whether the set needs the statement, within the budgets; with a certificate that it doesn't, where one is
/// asked for. What isn't decided is what the change query leaves open, whatever was asked before it. The changes are
/// those of the set under its schema.
pub(crate) fn use_answer(
    alloc: Global,
    one: &OneSet,
    changes: &mut Changes<'_>,
    name: StatementName,
    budgets: Budgets,
    certified: bool,
) -> Result<UseAnswer, NoMemory>
    requires fitting { FitsItsSchema one.now }
    requires changes { AreChangesOf one.now changes.old }
    requires named { IsNameIn one.now.set name }
    requires within { IsWithinLimits (set_plan one.now.schema one.now.set) }
    requires splits { 1 ≤ budgets.splits }
    requires states { 1 ≤ budgets.states }
    ensures same { changes.new ≡ changes.old }
    ensures answer { IfOk result (IsUseAnswerAt certified budgets one.now name) }
{
    if !certified {
        return plain_answer(alloc, one, changes, name, budgets);
    }
    whole_answer(alloc, one, name, budgets, certified)
}
