//! What is printed to a check of a file that says what a change of two sets newly allows.
ghost use Rattle.std.specs.Prelude.{◌≡◌, ◌≤◌, true, length, option_map};
ghost use Rattle.command_words.specs.Asked.{IsSummaryCheckInRange, are_dimensions, summary_check_in, texts_in};
ghost use Rattle.proof_text.specs.declared.limits.TheConstants.{MOST_PROOF_BYTES};
ghost use Rattle.run_inputs.specs.Printing.{IfPrinted};
ghost use Rattle.run_inputs.specs.Pairs.{IsFitting, contents};
ghost use Rattle.access_answers.specs.NewAccessChecked.{IsNewAccessCheckPrinted, IsNewAccessJudged};

use certified_summaries::print_subject_checked;
use command_words::CheckSummaryArguments;
use run_inputs::{EarlyEnd, Pair, Printed, read_pair};
use std::alloc::Global;
use summary_answers::{MOST_CHANGE_PREDICATES, subject_of_pair};

// What is printed of the file for a pair, under the schema of its run, by the dimensions of these names.
fn print_pair_check(
    alloc: Global,
    pair: Pair,
    names: &[String],
    states: u32,
    proof: &[u8],
) -> Result<Printed, EarlyEnd>
    requires fitting { IsFitting pair }
    requires dimensions { are_dimensions (texts_in names.now) ≡ true }
    requires states { 1 ≤ states }
    requires short { length proof.now ≤ MOST_PROOF_BYTES }
    ensures { IfPrinted result (IsNewAccessJudged (texts_in names.now) states proof.now pair) }
{
    let subject = subject_of_pair(pair);
    print_subject_checked(
        alloc,
        &subject,
        names,
        MOST_CHANGE_PREDICATES,
        states,
        proof,
    )
}

/// What `check-new-access` prints for files that were read: those of two sets, one with findings of what the first
/// allows and the second doesn't, whoever wrote it, and that of a schema where one is named. An accepted file says
/// all that is newly allowed.
pub fn print_new_access_check(
    alloc: Global,
    first: &[u8],
    second: &[u8],
    proof: &[u8],
    schema: Option<&[u8]>,
    arguments: &CheckSummaryArguments,
) -> Result<Printed, EarlyEnd>
    requires range { IsSummaryCheckInRange arguments.now }
    requires short { length proof.now ≤ MOST_PROOF_BYTES }
    ensures { IfPrinted result (IsNewAccessCheckPrinted (summary_check_in arguments.now) proof.now
        (contents first.now second.now (option_map (λ f. f.now) schema.entry))) }
{
    let pair = read_pair(alloc, first, second, schema)?;
    print_pair_check(
        alloc,
        pair,
        arguments.dimensions.as_slice(),
        arguments.states,
        proof,
    )
}
