//! What is printed of findings, and to a summary of a file of a set.
ghost use Rattle.std.specs.Prelude.{◌≡◌, true, option_map};
ghost use Rattle.command_words.specs.Asked.{HasBudgetsInRange, are_dimensions, summarising_in, texts_in};
ghost use Rattle.run_inputs.specs.Printing.{IfPrinted};
ghost use Rattle.run_inputs.specs.OneSets.{set_contents};
ghost use Rattle.summary_search.specs.Outcomes.{AreInRange};
ghost use Rattle.summary_answers.specs.Printed.{IsSubjectPrinted, IsSummaryPrinted, always_holds, status_by};
ghost use Rattle.summary_answers.specs.Subjects.{SubjectFits};

use crate::limits::limits_of;
use crate::subject::{Subject, subject_of_set};
use crate::summary::found;
use crate::text::found_text;
use command_words::FindingArguments;
use findings::Finding;
use policy_model::Request;
use run_inputs::{EarlyEnd, Printed, Status, read_one};
use std::alloc::Global;
use summary_search::Limits;

/// The status of findings where there should be none: `Holds` where there is none, else `Fails`.
pub fn status_by(summary: &[(Finding, Request)]) -> Status
    ensures { result ≡ status_by summary.now }
{
    match summary {
        [] => Status::Holds,
        _ => Status::Fails,
    }
}

/// What is printed of the findings of a region where there should be none, by the dimensions of these names.
pub fn print_subject_findings(
    alloc: Global,
    subject: &Subject,
    names: &[String],
    limits: Limits,
) -> Result<Printed, EarlyEnd>
    requires fits { SubjectFits subject.now }
    requires dimensions { are_dimensions (texts_in names.now) ≡ true }
    requires limits { AreInRange limits }
    ensures { IfPrinted result
        (IsSubjectPrinted status_by (texts_in names.now) limits subject.now) }
{
    let found = found(alloc, subject, names, limits)?;
    Ok(Printed {
        text: found_text(alloc, &found)?,
        status: status_by(found.summary.as_slice()),
    })
}

/// What is printed to a summary of a region by the dimensions of these names.
pub fn print_subject_summary(
    alloc: Global,
    subject: &Subject,
    names: &[String],
    limits: Limits,
) -> Result<Printed, EarlyEnd>
    requires fits { SubjectFits subject.now }
    requires dimensions { are_dimensions (texts_in names.now) ≡ true }
    requires limits { AreInRange limits }
    ensures { IfPrinted result
        (IsSubjectPrinted always_holds (texts_in names.now) limits subject.now) }
{
    let found = found(alloc, subject, names, limits)?;
    Ok(Printed {
        text: found_text(alloc, &found)?,
        status: Status::Holds,
    })
}

/// What is printed to a summary of files that were read, that of a set and that of a schema where one is named.
pub fn print_summary(
    alloc: Global,
    set: &[u8],
    schema: Option<&[u8]>,
    arguments: &FindingArguments,
) -> Result<Printed, EarlyEnd>
    requires budgets { HasBudgetsInRange arguments.now }
    requires dimensions { are_dimensions (texts_in arguments.now.dimensions.items) ≡ true }
    ensures { IfPrinted result (IsSummaryPrinted (summarising_in arguments.now)
        (set_contents set.now (option_map (λ f. f.now) schema.entry))) }
{
    let one = read_one(alloc, set, schema)?;
    let subject = subject_of_set(one);
    print_subject_summary(
        alloc,
        &subject,
        arguments.dimensions.as_slice(),
        limits_of(arguments),
    )
}
