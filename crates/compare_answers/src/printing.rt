//! What is printed to a comparison of two files of sets, and to a check of a certificate of one.
ghost use Rattle.std.specs.Prelude.{◌≡◌, ◌≤◌, length, option_map};
ghost use Rattle.command_words.specs.Asked.{comparing_in};
ghost use Rattle.proof_text.specs.declared.limits.TheConstants.{MOST_PROOF_BYTES};
ghost use Rattle.run_inputs.specs.Printing.{IfPrinted};
ghost use Rattle.run_inputs.specs.Pairs.{IsFitting, contents};
ghost use Rattle.compare_answers.specs.Texts.{check_status, comparison_status};
ghost use Rattle.compare_answers.specs.Printed.{IsCheckOfPair, IsCheckPrinted, IsComparisonPrinted, IsPairPrinted};

use crate::answer::{CheckAnswer, ComparisonAnswer};
use crate::decision::{check_proof, compare};
use crate::text::{check_text, comparison_text};
use command_words::CompareArguments;
use run_inputs::{EarlyEnd, Pair, Printed, Status, read_pair};
use std::alloc::Global;
use tree_search::Budgets;

// The status of an answer to a comparison.
fn comparison_status(answer: &ComparisonAnswer) -> Status
    ensures { result ≡ comparison_status answer.now }
{
    match answer {
        ComparisonAnswer::NotMore => Status::Holds,
        ComparisonAnswer::Proved(_) => Status::Holds,
        ComparisonAnswer::More(_) => Status::Fails,
        ComparisonAnswer::Undecided(_) => Status::Undecided,
    }
}

// The status of an answer to a check.
fn check_status(answer: CheckAnswer) -> Status
    ensures { result ≡ check_status answer }
{
    match answer {
        CheckAnswer::Accepted => Status::Holds,
        CheckAnswer::NotClosing(_) => Status::BadProof,
        CheckAnswer::BadProof(_) => Status::BadProof,
    }
}

/// What is printed to a comparison of the pair within the budgets, with a certificate where one is asked for.
pub fn print_pair(
    alloc: Global,
    pair: &Pair,
    budgets: Budgets,
    certified: bool,
) -> Result<Printed, EarlyEnd>
    requires fitting { IsFitting pair.now }
    requires splits { 1 ≤ budgets.splits }
    requires states { 1 ≤ budgets.states }
    ensures { IfPrinted result (IsPairPrinted certified budgets pair.now) }
{
    let answer = compare(alloc, pair, budgets, certified)?;
    let status = comparison_status(&answer);
    let text = comparison_text(alloc, answer)?;
    Ok(Printed { text, status })
}

/// What is printed to a comparison of files that were read, those of two sets and that of a schema where one
/// is named.
pub fn print_comparison(
    alloc: Global,
    first: &[u8],
    second: &[u8],
    schema: Option<&[u8]>,
    arguments: &CompareArguments,
) -> Result<Printed, EarlyEnd>
    requires splits { 1 ≤ arguments.now.splits }
    requires states { 1 ≤ arguments.now.states }
    ensures { IfPrinted result (IsComparisonPrinted (comparing_in arguments.now)
        (contents first.now second.now (option_map (λ f. f.now) schema.entry))) }
{
    let pair = read_pair(alloc, first, second, schema)?;
    let budgets = Budgets {
        splits: arguments.splits,
        states: arguments.states,
    };
    print_pair(alloc, &pair, budgets, arguments.certified)
}

// What is printed to a check of a certificate for the pair.
fn print_pair_check(alloc: Global, pair: &Pair, proof: &[u8]) -> Result<Printed, EarlyEnd>
    requires fitting { IsFitting pair.now }
    requires short { length proof.now ≤ MOST_PROOF_BYTES }
    ensures { IfPrinted result (IsCheckOfPair proof.now pair.now) }
{
    let answer = check_proof(alloc, pair, proof)?;
    Ok(Printed {
        text: check_text(alloc, answer)?,
        status: check_status(answer),
    })
}

/// What is printed to a check of a certificate of files that were read.
pub fn print_check(
    alloc: Global,
    first: &[u8],
    second: &[u8],
    schema: Option<&[u8]>,
    proof: &[u8],
) -> Result<Printed, EarlyEnd>
    requires { length proof.now ≤ MOST_PROOF_BYTES }
    ensures { IfPrinted result (IsCheckPrinted proof.now
        (contents first.now second.now (option_map (λ f. f.now) schema.entry))) }
{
    let pair = read_pair(alloc, first, second, schema)?;
    print_pair_check(alloc, &pair, proof)
}
