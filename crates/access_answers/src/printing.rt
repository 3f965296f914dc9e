//! What is printed to files of two sets: what the first allows and the second doesn't.
ghost use Rattle.std.specs.Prelude.{◌≡◌, true, option_map};
ghost use Rattle.command_words.specs.Asked.{AreFindingsInRange, are_dimensions, summarising_in, texts_in};
ghost use Rattle.run_inputs.specs.Printing.{IfPrinted};
ghost use Rattle.run_inputs.specs.Pairs.{IsFitting, contents};
ghost use Rattle.summary_search.specs.Outcomes.{AreInRange};
ghost use Rattle.access_answers.specs.NewAccessPrinted.{IsNewAccessOfPair, IsNewAccessPrinted};

use certified_summaries::{certified_subjects_are_accepted, print_findings_certified};
use command_words::NewAccessArguments;
use findings::summaries_cover;
use run_inputs::{EarlyEnd, Pair, Printed, read_pair};
use std::alloc::Global;
use summary_answers::{change_limits_of, print_subject_findings, subject_of_pair};
use summary_search::Limits;

// What is printed of a pair, under the schema of its run, by the dimensions of these names.
fn print_pair(
    alloc: Global,
    pair: Pair,
    names: &[String],
    limits: Limits,
    certified: bool,
) -> Result<Printed, EarlyEnd>
    requires fitting { IsFitting pair }
    requires dimensions { are_dimensions (texts_in names.now) ≡ true }
    requires limits { AreInRange limits }
    ensures { IfPrinted result (IsNewAccessOfPair certified (texts_in names.now) limits pair) }
{
    summaries_cover();
    let subject = subject_of_pair(pair);
    if certified {
        print_findings_certified(alloc, &subject, names, limits)
    } else {
        print_subject_findings(alloc, &subject, names, limits)
    }
}

/// What `new-access` prints for files that were read, those of two sets and that of a schema where one is named: the
/// findings of what the first set allows and the second doesn't, by the dimensions, with a certificate behind them
/// where one is asked for; or the first fault of the files; or why there are no findings. A finding makes the status
/// `Fails`, and none at all `Holds`. A check of the same files accepts what is printed with a certificate.
pub fn print_new_access(
    alloc: Global,
    first: &[u8],
    second: &[u8],
    schema: Option<&[u8]>,
    arguments: &NewAccessArguments,
) -> Result<Printed, EarlyEnd>
    requires { AreFindingsInRange arguments.now.summary }
    ensures { IfPrinted result
        (IsNewAccessPrinted (summarising_in arguments.now.summary) arguments.now.certified
        (contents first.now second.now (option_map (λ f. f.now) schema.entry))) }
{
    certified_subjects_are_accepted();
    let pair = read_pair(alloc, first, second, schema)?;
    print_pair(
        alloc,
        pair,
        arguments.summary.dimensions.as_slice(),
        change_limits_of(&arguments.summary),
        arguments.certified,
    )
}
