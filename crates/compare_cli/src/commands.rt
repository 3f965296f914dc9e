//! What each command prints. Its files are read in the order of its line, the schema last.
ghost use Rattle.std.specs.Prelude.{◌≡◌, ◌≤◌, Some, string_bytes};
ghost use Rattle.command_words.specs.Asked.{AreFindingsInRange, HasUseNumbersInRange, IsInRange, IsSummaryCheckInRange};
ghost use Rattle.command_words.specs.Asked.{CheckCommand, CompareCommand, ReachCommand, SummaryCommand, CheckSummaryCommand, IdleCommand, EmitCommand, EvalCommand};
ghost use Rattle.command_words.specs.Asked.{CheckNewAccessCommand, NewAccessCommand};
ghost use Rattle.command_words.specs.Asked.{asked_in, checking_in, comparing_in, evaluating_in, summarising_in, summary_check_in, use_question_in};
ghost use Rattle.run_inputs.specs.Printing.{IfPrinted, PrintsText};
ghost use Rattle.run_inputs.specs.Readings.{reading_of};
ghost use Rattle.run_inputs.specs.declared.status.Status.TheVariants.{Usage};
ghost use Rattle.compare_cli.specs.Commands.{IsCommandEnd, NameNoFile, new_access_usage_line};

use crate::files::{read_last, read_named};
use access_answers::{print_new_access, print_new_access_check};
use certified_summaries::{print_certified_summary, print_summary_check};
use command_words::{
    CheckArguments, CheckNewAccessArguments, CheckSummaryArguments, Command, CompareArguments,
    EvalArguments, FindingArguments, IdleArguments, NewAccessArguments, ReachArguments,
    SummaryArguments,
};
use compare_answers::{print_check, print_comparison};
use emit_answers::print_emit;
use eval_answers::print_evaluation;
use idle_answers::print_idle;
use load_answers::print_load;
use pol_outside::Folder;
use reach_answers::print_reach;
use run_inputs::{EarlyEnd, Printed, Role, Status, bytes_of};
use std::alloc::Global;
use summary_answers::print_summary;

// What is printed to a comparison.
fn comparison<F: Folder>(
    alloc: Global,
    folder: &mut F,
    arguments: &CompareArguments,
) -> Result<Printed, EarlyEnd>
    requires splits { 1 ≤ arguments.now.splits }
    requires states { 1 ≤ arguments.now.states }
    ensures prints { IsCommandEnd (Some (CompareCommand (comparing_in arguments.now)))
        (reading_of F.held F.faults F.last_fault F.asked folder.old folder.new) result }
    ensures held { F.held folder.new ≡ F.held folder.old }
    ensures later { F.faults folder.old ≤ F.faults folder.new }
{
    let names = &arguments.names;
    let first = read_named(alloc, folder, Role::First, &names.first)?;
    let rest = read_last(alloc, folder, Role::Second, &names.second, &names.schema)?;
    print_comparison(
        alloc,
        first.as_slice(),
        rest.file.as_slice(),
        bytes_of(&rest.schema),
        arguments,
    )
}

// What is printed to a check of a certificate.
fn proof_check<F: Folder>(
    alloc: Global,
    folder: &mut F,
    arguments: &CheckArguments,
) -> Result<Printed, EarlyEnd>
    ensures prints { IsCommandEnd (Some (CheckCommand (checking_in arguments.now)))
        (reading_of F.held F.faults F.last_fault F.asked folder.old folder.new) result }
    ensures held { F.held folder.new ≡ F.held folder.old }
    ensures later { F.faults folder.old ≤ F.faults folder.new }
{
    let names = &arguments.names;
    let first = read_named(alloc, folder, Role::First, &names.first)?;
    let second = read_named(alloc, folder, Role::Second, &names.second)?;
    let rest = read_last(alloc, folder, Role::Proof, &arguments.proof, &names.schema)?;
    print_check(
        alloc,
        first.as_slice(),
        second.as_slice(),
        bytes_of(&rest.schema),
        rest.file.as_slice(),
    )
}

// What is printed to a summary.
fn summary<F: Folder>(
    alloc: Global,
    folder: &mut F,
    arguments: &SummaryArguments,
) -> Result<Printed, EarlyEnd>
    requires { AreFindingsInRange arguments.now.summary }
    ensures prints { IsCommandEnd
        (Some (SummaryCommand (summarising_in arguments.now.summary) arguments.now.certified))
        (reading_of F.held F.faults F.last_fault F.asked folder.old folder.new) result }
    ensures held { F.held folder.new ≡ F.held folder.old }
    ensures later { F.faults folder.old ≤ F.faults folder.new }
{
    let asked = &arguments.summary;
    let files = read_last(alloc, folder, Role::Set, &asked.set, &asked.schema)?;
    let set = files.file.as_slice();
    if arguments.certified {
        print_certified_summary(alloc, set, bytes_of(&files.schema), asked)
    } else {
        print_summary(alloc, set, bytes_of(&files.schema), asked)
    }
}

// What is printed to an evaluation of a request.
fn evaluation<F: Folder>(
    alloc: Global,
    folder: &mut F,
    arguments: &EvalArguments,
) -> Result<Printed, EarlyEnd>
    ensures prints { IsCommandEnd
        (Some (EvalCommand (evaluating_in arguments.now)))
        (reading_of F.held F.faults F.last_fault F.asked folder.old folder.new) result }
    ensures held { F.held folder.new ≡ F.held folder.old }
    ensures later { F.faults folder.old ≤ F.faults folder.new }
{
    let set = read_named(alloc, folder, Role::Set, &arguments.set)?;
    let rest = read_last(
        alloc,
        folder,
        Role::Request,
        &arguments.request,
        &arguments.schema,
    )?;
    print_evaluation(
        alloc,
        set.as_slice(),
        rest.file.as_slice(),
        bytes_of(&rest.schema),
    )
}

// What is printed to the question which statements of a set are idle.
fn idle<F: Folder>(
    alloc: Global,
    folder: &mut F,
    arguments: &IdleArguments,
) -> Result<Printed, EarlyEnd>
    requires { HasUseNumbersInRange arguments.now }
    ensures prints { IsCommandEnd
        (Some (IdleCommand (use_question_in arguments.now)))
        (reading_of F.held F.faults F.last_fault F.asked folder.old folder.new) result }
    ensures held { F.held folder.new ≡ F.held folder.old }
    ensures later { F.faults folder.old ≤ F.faults folder.new }
{
    let files = read_last(alloc, folder, Role::Set, &arguments.set, &arguments.schema)?;
    print_idle(
        alloc,
        files.file.as_slice(),
        bytes_of(&files.schema),
        arguments,
    )
}

// What is printed to the question who reaches what from outside a zone.
fn reach<F: Folder>(
    alloc: Global,
    folder: &mut F,
    arguments: &ReachArguments,
) -> Result<Printed, EarlyEnd>
    requires { AreFindingsInRange arguments.now.summary }
    ensures prints { IsCommandEnd
        (Some (ReachCommand (summarising_in arguments.now.summary)
        (string_bytes arguments.now.zone)))
        (reading_of F.held F.faults F.last_fault F.asked folder.old folder.new) result }
    ensures held { F.held folder.new ≡ F.held folder.old }
    ensures later { F.faults folder.old ≤ F.faults folder.new }
{
    let asked = &arguments.summary;
    let set = read_named(alloc, folder, Role::Set, &asked.set)?;
    let rest = read_last(alloc, folder, Role::Zone, &arguments.zone, &asked.schema)?;
    print_reach(
        alloc,
        set.as_slice(),
        rest.file.as_slice(),
        bytes_of(&rest.schema),
        arguments,
    )
}

// What is printed where a policy of findings is asked for.
fn emission<F: Folder>(
    alloc: Global,
    folder: &mut F,
    arguments: &FindingArguments,
) -> Result<Printed, EarlyEnd>
    requires { AreFindingsInRange arguments.now }
    ensures prints { IsCommandEnd (Some (EmitCommand (summarising_in arguments.now)))
        (reading_of F.held F.faults F.last_fault F.asked folder.old folder.new) result }
    ensures held { F.held folder.new ≡ F.held folder.old }
    ensures later { F.faults folder.old ≤ F.faults folder.new }
{
    let files = read_last(alloc, folder, Role::Set, &arguments.set, &arguments.schema)?;
    print_emit(
        alloc,
        files.file.as_slice(),
        bytes_of(&files.schema),
        arguments,
    )
}

// What is printed to a check of a certified summary.
fn summary_check<F: Folder>(
    alloc: Global,
    folder: &mut F,
    arguments: &CheckSummaryArguments,
) -> Result<Printed, EarlyEnd>
    requires { IsSummaryCheckInRange arguments.now }
    ensures prints { IsCommandEnd
        (Some (CheckSummaryCommand (summary_check_in arguments.now)))
        (reading_of F.held F.faults F.last_fault F.asked folder.old folder.new) result }
    ensures held { F.held folder.new ≡ F.held folder.old }
    ensures later { F.faults folder.old ≤ F.faults folder.new }
{
    let set = read_named(alloc, folder, Role::Set, &arguments.set)?;
    let rest = read_last(
        alloc,
        folder,
        Role::Proof,
        &arguments.proof,
        &arguments.schema,
    )?;
    print_summary_check(
        alloc,
        set.as_slice(),
        rest.file.as_slice(),
        bytes_of(&rest.schema),
        arguments,
    )
}

// What is printed to the question what a first set newly allows.
fn new_access<F: Folder>(
    alloc: Global,
    folder: &mut F,
    arguments: &NewAccessArguments,
) -> Result<Printed, EarlyEnd>
    requires { AreFindingsInRange arguments.now.summary }
    ensures prints { IsCommandEnd
        (Some (NewAccessCommand (summarising_in arguments.now.summary)
        (string_bytes arguments.now.second) arguments.now.certified))
        (reading_of F.held F.faults F.last_fault F.asked folder.old folder.new) result }
    ensures held { F.held folder.new ≡ F.held folder.old }
    ensures later { F.faults folder.old ≤ F.faults folder.new }
{
    let asked = &arguments.summary;
    let first = read_named(alloc, folder, Role::First, &asked.set)?;
    let rest = read_last(
        alloc,
        folder,
        Role::Second,
        &arguments.second,
        &asked.schema,
    )?;
    print_new_access(
        alloc,
        first.as_slice(),
        rest.file.as_slice(),
        bytes_of(&rest.schema),
        arguments,
    )
}

// What is printed to a check of a certified answer to it.
fn new_access_check<F: Folder>(
    alloc: Global,
    folder: &mut F,
    arguments: &CheckNewAccessArguments,
) -> Result<Printed, EarlyEnd>
    requires { IsSummaryCheckInRange arguments.now.check }
    ensures prints { IsCommandEnd
        (Some (CheckNewAccessCommand (summary_check_in arguments.now.check)
        (string_bytes arguments.now.second)))
        (reading_of F.held F.faults F.last_fault F.asked folder.old folder.new) result }
    ensures held { F.held folder.new ≡ F.held folder.old }
    ensures later { F.faults folder.old ≤ F.faults folder.new }
{
    let asked = &arguments.check;
    let first = read_named(alloc, folder, Role::First, &asked.set)?;
    let second = read_named(alloc, folder, Role::Second, &arguments.second)?;
    let rest = read_last(alloc, folder, Role::Proof, &asked.proof, &asked.schema)?;
    print_new_access_check(
        alloc,
        first.as_slice(),
        second.as_slice(),
        rest.file.as_slice(),
        bytes_of(&rest.schema),
        asked,
    )
}

// The line that says how `new-access` and `check-new-access` are called.
const NEW_ACCESS_USAGE: &str =
    "usage: new-access FIRST SECOND DIMENSION.. | check-new-access FIRST SECOND PROOF DIMENSION..\n";

// What is printed where one of these is named with words that it doesn't take.
fn new_access_usage(alloc: Global) -> Result<Printed, EarlyEnd>
    ensures { IfPrinted result (PrintsText new_access_usage_line Usage) }
{
    Ok(Printed {
        text: String::from_str(alloc, NEW_ACCESS_USAGE)?,
        status: Status::Usage,
    })
}

/// What is printed to a command.
pub fn print_command<F: Folder>(
    alloc: Global,
    folder: &mut F,
    command: &Command,
) -> Result<Printed, EarlyEnd>
    requires { IsInRange command.now }
    ensures prints { IsCommandEnd (Some (asked_in command.now))
        (reading_of F.held F.faults F.last_fault F.asked folder.old folder.new) result }
    ensures untouched { NameNoFile (Some (asked_in command.now)) → folder.new ≡ folder.old }
    ensures held { F.held folder.new ≡ F.held folder.old }
    ensures later { F.faults folder.old ≤ F.faults folder.new }
{
    match command {
        Command::Compare(arguments) => comparison(alloc, folder, arguments),
        Command::Check(arguments) => proof_check(alloc, folder, arguments),
        Command::Summary(arguments) => summary(alloc, folder, arguments),
        Command::Eval(arguments) => evaluation(alloc, folder, arguments),
        Command::Load(keys) => print_load(alloc, *keys),
        Command::Idle(arguments) => idle(alloc, folder, arguments),
        Command::Reach(arguments) => reach(alloc, folder, arguments),
        Command::Emit(arguments) => emission(alloc, folder, arguments),
        Command::CheckSummary(arguments) => summary_check(alloc, folder, arguments),
        Command::NewAccess(arguments) => new_access(alloc, folder, arguments),
        Command::CheckNewAccess(arguments) => new_access_check(alloc, folder, arguments),
        Command::MisusedNewAccess => new_access_usage(alloc),
    }
}
