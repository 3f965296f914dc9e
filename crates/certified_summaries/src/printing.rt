//! What is printed to a summary with a certificate, and to a check of one, of files that were read.
ghost use Rattle.std.specs.Prelude.{◌≡◌, ◌≤◌, true, length, option_map};
ghost use Rattle.command_words.specs.Asked.{HasBudgetsInRange, are_dimensions, summarising_in, summary_check_in, texts_in};
ghost use Rattle.proof_text.specs.declared.limits.TheConstants.{MOST_PROOF_BYTES};
ghost use Rattle.run_inputs.specs.Printing.{IfPrinted};
ghost use Rattle.run_inputs.specs.OneSets.{set_contents};
ghost use Rattle.summary_search.specs.Outcomes.{AreInRange};
ghost use Rattle.summary_answers.specs.Printed.{always_holds, status_by};
ghost use Rattle.summary_answers.specs.Subjects.{SubjectFits};
ghost use Rattle.certified_summaries.specs.Certified.{IsCertifiedSummaryPrinted, IsSubjectCertified};
ghost use Rattle.certified_summaries.specs.Judged.{IsSubjectChecked, IsSummaryCheckPrinted};

use crate::accepting::printed_summaries_are_accepted;
use crate::certify::certify;
use crate::check::judge;
use crate::made::make_strata;
use command_words::{CheckSummaryArguments, FindingArguments};
use run_inputs::{EarlyEnd, Printed, Status, read_one};
use std::alloc::Global;
use strata::MOST_PREDICATES;
use summary_answers::{Subject, found, limits_of, status_by, subject_of_set};
use summary_search::Limits;

/// What is printed of the findings of a region where there should be none, by the dimensions of these names, with a
/// certificate that they leave out no request of the region.
pub fn print_findings_certified(
    alloc: Global,
    subject: &Subject,
    names: &[String],
    limits: Limits,
) -> Result<Printed, EarlyEnd>
    requires fits { SubjectFits subject.now }
    requires dimensions { are_dimensions (texts_in names.now) ≡ true }
    requires limits { AreInRange limits }
    ensures { IfPrinted result
        (IsSubjectCertified status_by (texts_in names.now) limits subject.now) }
{
    let found = found(alloc, subject, names, limits)?;
    let status = status_by(found.summary.as_slice());
    certify(alloc, subject, &found, status, limits)
}

/// What is printed to a summary of a region by the dimensions of these names, with a certificate that it leaves out
/// no request of the region.
pub fn print_subject_certified(
    alloc: Global,
    subject: &Subject,
    names: &[String],
    limits: Limits,
) -> Result<Printed, EarlyEnd>
    requires fits { SubjectFits subject.now }
    requires dimensions { are_dimensions (texts_in names.now) ≡ true }
    requires limits { AreInRange limits }
    ensures { IfPrinted result
        (IsSubjectCertified always_holds (texts_in names.now) limits subject.now) }
{
    let found = found(alloc, subject, names, limits)?;
    certify(alloc, subject, &found, Status::Holds, limits)
}

/// What is printed to a summary of files that were read, that of a set and that of a schema where one is named,
/// for which a certificate is asked. A check of the same files accepts the summary that is printed.
pub fn print_certified_summary(
    alloc: Global,
    set: &[u8],
    schema: Option<&[u8]>,
    arguments: &FindingArguments,
) -> Result<Printed, EarlyEnd>
    requires budgets { HasBudgetsInRange arguments.now }
    requires dimensions { are_dimensions (texts_in arguments.now.dimensions.items) ≡ true }
    ensures { IfPrinted result (IsCertifiedSummaryPrinted (summarising_in arguments.now)
        (set_contents set.now (option_map (λ f. f.now) schema.entry))) }
{
    printed_summaries_are_accepted();
    let one = read_one(alloc, set, schema)?;
    let subject = subject_of_set(one);
    print_subject_certified(
        alloc,
        &subject,
        arguments.dimensions.as_slice(),
        limits_of(arguments),
    )
}

/// What is printed to a check of a file with a summary of a region by the dimensions of these names, none of which
/// may name more predicates than so many, and a certificate of it.
pub fn print_subject_checked(
    alloc: Global,
    subject: &Subject,
    names: &[String],
    predicates: u32,
    states: u32,
    proof: &[u8],
) -> Result<Printed, EarlyEnd>
    requires fits { SubjectFits subject.now }
    requires dimensions { are_dimensions (texts_in names.now) ≡ true }
    requires states { 1 ≤ states }
    requires short { length proof.now ≤ MOST_PROOF_BYTES }
    ensures { IfPrinted result
        (IsSubjectChecked (texts_in names.now) predicates states proof.now subject.now) }
{
    let made = make_strata(alloc, subject, names, predicates, states)?;
    judge(alloc, subject, &made, proof)
}

/// What is printed to a check of a file with a summary and a certificate of it, of files that were read: that of
/// a set, the file itself, and that of a schema where one is named.
pub fn print_summary_check(
    alloc: Global,
    set: &[u8],
    proof: &[u8],
    schema: Option<&[u8]>,
    arguments: &CheckSummaryArguments,
) -> Result<Printed, EarlyEnd>
    requires states { 1 ≤ arguments.now.states }
    requires dimensions { are_dimensions (texts_in arguments.now.dimensions.items) ≡ true }
    requires short { length proof.now ≤ MOST_PROOF_BYTES }
    ensures { IfPrinted result (IsSummaryCheckPrinted (summary_check_in arguments.now) proof.now
        (set_contents set.now (option_map (λ f. f.now) schema.entry))) }
{
    let one = read_one(alloc, set, schema)?;
    let subject = subject_of_set(one);
    print_subject_checked(
        alloc,
        &subject,
        arguments.dimensions.as_slice(),
        MOST_PREDICATES,
        arguments.states,
        proof,
    )
}
