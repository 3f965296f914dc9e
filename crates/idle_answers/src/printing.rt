//! What is printed of the statements of a set.
ghost use Rattle.std.specs.Prelude.{◌≡◌, ◌≤◌, IfOk, OnOk, map, option_map};
ghost use Rattle.command_words.specs.Asked.{use_question_in};
ghost use Rattle.policy_compile.specs.Limits.{IsWithinLimits};
ghost use Rattle.policy_compile.specs.Sets.{set_plan};
ghost use Rattle.policy_model.specs.StatementNames.{named_set};
ghost use Rattle.run_inputs.specs.Printing.{IfPrinted, OrAnswered};
ghost use Rattle.run_inputs.specs.OneSets.{FitsItsSchema, set_contents};
ghost use Rattle.run_inputs.specs.Refusals.{IsRefusedBy};
ghost use Rattle.idle_answers.specs.Deciding.{AreChangesOf, IsSetQuery};
ghost use Rattle.idle_answers.specs.Telling.{AddsUse, AreUsesWritten, IsStarted, told_status};
ghost use Rattle.run_inputs.specs.PastLimits.{IsSetPastLimit};
ghost use Rattle.idle_answers.specs.UsesPrinted.{AreUsesPrinted, IsIdlePrinted};

use crate::answer::{UseAnswer, is_idle, is_undecided};
use crate::deciding::use_answer;
use crate::text::{statement_start, statements_line, use_text};
use command_words::IdleArguments;
use policy_compile::{Query, QueryFault, queries_are_within_limits, set_query};
use policy_model::StatementName;
use request_build::sound_schemas_have_requests;
use run_inputs::{EarlyEnd, OneSet, Printed, Refusal, Status, read_one, refused};
use set_questions::{Changes, names_of};
use std::alloc::{AllocError, Global};
use tree_search::Budgets;

// What is said of the statements so far, and whether one of them is idle, and one undecided.
#[derive(Drop)]
struct Told {
    text: String,
    idle: bool,
    undecided: bool,
}

// The beginning for so many statements: nothing is said yet of any.
fn started(alloc: Global, count: usize) -> Result<Told, AllocError>
    ensures { IfOk result (IsStarted count) }
{
    Ok(Told {
        text: statements_line(alloc, count)?,
        idle: false,
        undecided: false,
    })
}

// Adds what is said of the next statement.
fn add_use(
    alloc: Global,
    told: &mut Told,
    name: StatementName,
    answer: &UseAnswer,
) -> Result<(), AllocError>
    ensures { OnOk result (AddsUse name answer.now told.old told.new) }
{
    let start = statement_start(alloc, name)?;
    let text = use_text(alloc, answer)?;
    told.text.push_str(start.as_str())?;
    told.text.push_str(text.as_str())?;
    told.idle = told.idle | is_idle(answer);
    told.undecided = told.undecided | is_undecided(answer);
    Ok(())
}

// The status of what is said.
fn told_status(told: &Told) -> Status
    ensures { result ≡ told_status told.now }
{
    if told.undecided {
        Status::Undecided
    } else if told.idle {
        Status::Fails
    } else {
        Status::Holds
    }
}

// What is said of each statement in turn. Only the text is kept, since certificates are large.
fn uses_told(
    alloc: Global,
    one: &OneSet,
    changes: &mut Changes<'_>,
    names: &[StatementName],
    budgets: Budgets,
    certified: bool,
) -> Result<Told, AllocError>
    requires fitting { FitsItsSchema one.now }
    requires changes { AreChangesOf one.now changes.old }
    requires names { names.now ≡ map (λ n. n.0) (named_set one.now.set) }
    requires within { IsWithinLimits (set_plan one.now.schema one.now.set) }
    requires splits { 1 ≤ budgets.splits }
    requires states { 1 ≤ budgets.states }
    ensures { IfOk result (AreUsesWritten certified budgets one.now (named_set one.now.set)) }
{
    let mut told = started(alloc, names.len())?;
    'names: for name in names {
        let answer = use_answer(alloc, one, changes, *name, budgets, certified)?;
        add_use(alloc, &mut told, *name, &answer)?;
    }
    Ok(told)
}

// The same of the set, whose query is numbered once for all of its statements.
fn told_of_set(
    alloc: Global,
    one: &OneSet,
    query: &Query,
    names: &[StatementName],
    budgets: Budgets,
    certified: bool,
) -> Result<Told, AllocError>
    requires fitting { FitsItsSchema one.now }
    requires query { IsSetQuery one.now query.now }
    requires names { names.now ≡ map (λ n. n.0) (named_set one.now.set) }
    requires splits { 1 ≤ budgets.splits }
    requires states { 1 ≤ budgets.states }
    ensures { IfOk result (AreUsesWritten certified budgets one.now (named_set one.now.set)) }
{
    let mut changes = Changes::new(alloc, &one.schema, &one.set, query)?;
    let told = uses_told(alloc, one, &mut changes, names, budgets, certified)?;
    Ok(told)
}

// The query of the set, or the line on the limit that it is past.
fn query_of_set(alloc: Global, one: &OneSet) -> Result<Query, EarlyEnd>
    ensures { OrAnswered result (IsSetQuery one.now)
        (IsRefusedBy (IsSetPastLimit one.now.schema one.now.set)) }
{
    queries_are_within_limits();
    match set_query(alloc, &one.schema, &one.set) {
        Ok(query) => Ok(query),
        Err(QueryFault::TooManyTests) => Err(refused(alloc, Refusal::TooManyTests)),
        Err(QueryFault::TooManyPieces) => Err(refused(alloc, Refusal::TooManyPieces)),
        Err(QueryFault::NoMemory) => Err(EarlyEnd::NoMemory),
    }
}

// What is printed of a set under the schema of its run.
fn print_uses(
    alloc: Global,
    one: &OneSet,
    budgets: Budgets,
    certified: bool,
) -> Result<Printed, EarlyEnd>
    requires fitting { FitsItsSchema one.now }
    requires splits { 1 ≤ budgets.splits }
    requires states { 1 ≤ budgets.states }
    ensures { IfPrinted result (AreUsesPrinted certified budgets one.now) }
{
    let query = query_of_set(alloc, one)?;
    sound_schemas_have_requests();
    let names = names_of(alloc, &one.set)?;
    let told = told_of_set(alloc, one, &query, names.as_slice(), budgets, certified)?;
    let status = told_status(&told);
    Ok(Printed {
        text: told.text,
        status,
    })
}

/// What is printed of files that were read, that of a set and that of a schema where one is named: of each
/// statement of the set whether it is used or idle.
pub fn print_idle(
    alloc: Global,
    set: &[u8],
    schema: Option<&[u8]>,
    arguments: &IdleArguments,
) -> Result<Printed, EarlyEnd>
    requires splits { 1 ≤ arguments.now.splits }
    requires states { 1 ≤ arguments.now.states }
    ensures { IfPrinted result (IsIdlePrinted (use_question_in arguments.now)
        (set_contents set.now (option_map (λ f. f.now) schema.entry))) }
{
    let one = read_one(alloc, set, schema)?;
    let budgets = Budgets {
        splits: arguments.splits,
        states: arguments.states,
    };
    print_uses(alloc, &one, budgets, arguments.certified)
}
