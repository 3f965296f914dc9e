//! What is printed to a file of a set that is asked for a policy.
ghost use Rattle.std.specs.Prelude.{◌≡◌, true, option_map};
ghost use Rattle.command_words.specs.Asked.{AreFindingsInRange, are_dimensions, summarising_in, texts_in};
ghost use Rattle.run_inputs.specs.Printing.{IfPrinted};
ghost use Rattle.run_inputs.specs.OneSets.{set_contents};
ghost use Rattle.summary_search.specs.Outcomes.{AreInRange};
ghost use Rattle.summary_answers.specs.Subjects.{SubjectFits};
ghost use Rattle.emit_answers.specs.EmitPrinted.{EmitsOf, IsEmitPrinted};

use crate::writing::print_policy;
use command_words::FindingArguments;
use findings::summaries_cover;
use policy_emit::{emitted_keys_are_known, emitted_sets_allow_findings};
use run_inputs::{EarlyEnd, Printed, read_one};
use std::alloc::Global;
use summary_answers::{Subject, found, limits_of, subject_of_set};
use summary_search::Limits;

// What is printed of what a set allows by the dimensions of these names, whose policy says what its findings say.
fn print_set_policy(
    alloc: Global,
    subject: &Subject,
    names: &[String],
    limits: Limits,
) -> Result<Printed, EarlyEnd>
    requires fits { SubjectFits subject.now }
    requires dimensions { are_dimensions (texts_in names.now) ≡ true }
    requires limits { AreInRange limits }
    ensures { EmitsOf (texts_in names.now) limits subject.now result }
{
    summaries_cover();
    emitted_sets_allow_findings();
    emitted_keys_are_known();
    let found = found(alloc, subject, names, limits)?;
    print_policy(alloc, &subject.schema, &found)
}

/// What `emit` prints for files that were read, that of a set and that of a schema where one is named: a policy
/// document of the set's findings by the dimensions; or why there is no summary; or that there are more findings than
/// a set may have statements.
pub fn print_emit(
    alloc: Global,
    set: &[u8],
    schema: Option<&[u8]>,
    arguments: &FindingArguments,
) -> Result<Printed, EarlyEnd>
    requires { AreFindingsInRange arguments.now }
    ensures { IfPrinted result (IsEmitPrinted (summarising_in arguments.now)
        (set_contents set.now (option_map (λ f. f.now) schema.entry))) }
{
    let one = read_one(alloc, set, schema)?;
    let subject = subject_of_set(one);
    print_set_policy(
        alloc,
        &subject,
        arguments.dimensions.as_slice(),
        limits_of(arguments),
    )
}
