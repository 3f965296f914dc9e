//! Compares two sets by the search, and checks certificates of it.
ghost use Rattle.std.specs.Prelude.{◌≡◌, ◌<◌, ◌≤◌, ◌^◌, All, IfOk, false, length};
ghost use Rattle.policy_model.specs.Soundness.{SchemaIsSound, TestSuits};
ghost use Rattle.proof_text.specs.declared.limits.TheConstants.{MOST_PROOF_BYTES};
ghost use Rattle.refute_check.specs.Proofs.{proof_of, size};
ghost use Rattle.policy_compile.specs.Queries.{IsQuery};
ghost use Rattle.run_inputs.specs.Printing.{OrAnswered};
ghost use Rattle.run_inputs.specs.Pairs.{IsFitting};
ghost use Rattle.run_inputs.specs.Refusals.{IsRefusedBy};
ghost use Rattle.compare_answers.specs.Comparison.{FewTestsAreDecided, IsComparable, plan_of};
ghost use Rattle.compare_answers.specs.Decided.{IsChecked, IsComparison, IsDecisionAnswer, IsPastLimit, IsRefutedAnswer, IsVerdictAnswer};

use crate::answer::{CheckAnswer, ComparisonAnswer};
use crate::reduction::reduced_answer;
use crate::staged::staged_answer;
use policy_compile::{Query, QueryFault, query};
use policy_model::Schema;
use proof_text::{
    ProofAnswer, ReadProof, closing_proofs_are_small, closing_proofs_have_no_fault, read_proof,
    write_proof,
};
use refute_check::{Refutation, Verdict, check, closed_queries_are_no};
use request_build::sound_schemas_have_requests;
use request_json::written_requests_are_read_again;
use run_inputs::{EarlyEnd, Pair, Refusal, Shortage, refused};
use staged_search::decide_in_stages;
use std::alloc::{AllocError, Global};
use tree_search::{Budgets, Decided, decide, queries_have_runs};

// The query of the pair, or the line on the limit that it is past.
fn query_of(alloc: Global, pair: &Pair) -> Result<Query, EarlyEnd>
    ensures { OrAnswered result (IsQuery (plan_of pair.now))
        (IsRefusedBy (IsPastLimit pair.now)) }
{
    match query(alloc, &pair.schema, &pair.first, &pair.second) {
        Ok(query) => Ok(query),
        Err(QueryFault::TooManyTests) => Err(refused(alloc, Refusal::TooManyTests)),
        Err(QueryFault::TooManyPieces) => Err(refused(alloc, Refusal::TooManyPieces)),
        Err(QueryFault::NoMemory) => Err(EarlyEnd::NoMemory),
    }
}

// The answer to a refutation: its certificate, where one is asked for.
fn refuted_answer(
    alloc: Global,
    refutation: &Refutation,
    version: u32,
    certified: bool,
) -> Result<ComparisonAnswer, AllocError>
    ensures { IfOk result (IsRefutedAnswer certified version (proof_of refutation.now)) }
{
    if certified {
        Ok(ComparisonAnswer::Proved(write_proof(alloc, refutation, version)?))
    } else {
        Ok(ComparisonAnswer::NotMore)
    }
}

// The answer to what the search decided.
fn decision_answer(
    alloc: Global,
    decided: Decided,
    version: u32,
    budgets: Budgets,
    certified: bool,
) -> Result<ComparisonAnswer, AllocError>
    ensures { IfOk result (IsDecisionAnswer certified version budgets decided) }
{
    match decided {
        Decided::Refuted(refutation) => refuted_answer(alloc, &refutation, version, certified),
        Decided::Met(request) => {
            request.keys_are_well_kept();
            Ok(ComparisonAnswer::More(request))
        }
        Decided::OutOfSplits => Ok(ComparisonAnswer::Undecided(Shortage::Splits(budgets.splits))),
        Decided::OutOfStates(wide) => Ok(ComparisonAnswer::Undecided(Shortage::States(
            budgets.states,
            wide.slot,
        ))),
    }
}

// The answer without a certificate: by the reduced query, where that is decided, or else by the query itself.
fn short_answer(
    alloc: Global,
    pair: &Pair,
    query: &Query,
    budgets: Budgets,
) -> Result<ComparisonAnswer, AllocError>
    requires { IsComparable budgets pair.now query.now }
    ensures { IfOk result (IsComparison false budgets pair.now) }
{
    let told = reduced_answer(alloc, pair, query, budgets)?;
    if let Some(answer) = told {
        return Ok(answer);
    }
    let verdict = decide_in_stages(alloc, &pair.schema, query, budgets)?;
    written_requests_are_read_again();
    Ok(staged_answer(verdict, budgets))
}

/// Whether the first set allows a request, valid under the schema, that the second doesn't, within the
/// budgets; with a certificate that it allows none, where one is asked for.
pub fn compare(
    alloc: Global,
    pair: &Pair,
    budgets: Budgets,
    certified: bool,
) -> Result<ComparisonAnswer, EarlyEnd>
    requires fitting { IsFitting pair.now }
    requires splits { 1 ≤ budgets.splits }
    requires states { 1 ≤ budgets.states }
    ensures { OrAnswered result (IsComparison certified budgets pair.now)
        (IsRefusedBy (IsPastLimit pair.now)) }
{
    let query = query_of(alloc, pair)?;
    sound_schemas_have_requests();
    if !certified {
        let answer = short_answer(alloc, pair, &query, budgets)?;
        return Ok(answer);
    }
    let decided = decide(alloc, &pair.schema, &query, budgets)?;
    written_requests_are_read_again();
    closed_queries_are_no();
    closing_proofs_are_small();
    closing_proofs_have_no_fault();
    Ok(decision_answer(alloc, decided, pair.schema.version, budgets, certified)?)
}

// The answer to a certificate that was read: whether it closes the query, or the line of its first node
// that doesn't.
fn verdict_answer(
    alloc: Global,
    schema: &Schema,
    query: &Query,
    read: &ReadProof,
) -> Result<CheckAnswer, AllocError>
    requires sound { SchemaIsSound schema.now }
    requires suit { All (TestSuits schema.now) query.now.tests }
    requires count { length query.now.tests < 2 ^ 32 }
    requires lines { length read.now.lines ≡ size (proof_of read.now.refutation.value) }
    requires few { size (proof_of read.now.refutation.value) < 2 ^ 32 }
    ensures { IfOk result (IsVerdictAnswer schema.now query.now read.now) }
{
    match check(alloc, schema, query, &read.refutation)? {
        Verdict::Closes => Ok(CheckAnswer::Accepted),
        Verdict::Fails { node } => {
            let line = read.lines.as_slice()[node as usize];
            Ok(CheckAnswer::NotClosing(line))
        }
    }
}

/// Whether the certificate is one that the first set allows no request, valid under the schema, that the
/// second doesn't.
pub fn check_proof(alloc: Global, pair: &Pair, proof: &[u8]) -> Result<CheckAnswer, EarlyEnd>
    requires fitting { IsFitting pair.now }
    requires short { length proof.now ≤ MOST_PROOF_BYTES }
    ensures { OrAnswered result (IsChecked proof.now pair.now)
        (IsRefusedBy (IsPastLimit pair.now)) }
{
    let query = query_of(alloc, pair)?;
    sound_schemas_have_requests();
    closed_queries_are_no();
    match read_proof(alloc, query.tests.len() as u32, pair.schema.version, proof) {
        Ok(read) => Ok(verdict_answer(alloc, &pair.schema, &query, &read)?),
        Err(ProofAnswer::Refused(fault)) => Ok(CheckAnswer::BadProof(fault)),
        Err(ProofAnswer::NoMemory) => Err(EarlyEnd::NoMemory),
    }
}

/// The greatest budget of splits decides each query of at most 19 tests.
pub fn few_tests_are_decided(schema: &Schema, query: &Query)
    ensures { FewTestsAreDecided schema.now query.now }
{
    queries_have_runs(schema, &query.tests);
}
