//! The words of the commands on findings, read.
ghost use Rattle.std.specs.Prelude.{◌≡◌, true, IfOk, IfSome, option_map};
ghost use Rattle.clap.specs.Words.{found_of, rows_of};
ghost use Rattle.command_words.specs.Asked.{AreFindingsInRange, HasBudgetsInRange, HasStatesInRange, IsInRange};
ghost use Rattle.command_words.specs.Asked.{IsSummaryCheckInRange, are_dimensions, asked_in, emission_of, findings_asked, new_access_check_of, new_access_of};
ghost use Rattle.command_words.specs.Asked.{reach_of, summarising_in, summarising_of, summary_check_asked, summary_check_in, summary_check_of};
ghost use Rattle.command_words.specs.Asked.{summary_checking_of, summary_of, texts_in};
ghost use Rattle.command_words.specs.Parsing.{HasNumbers};

use crate::asked::{
    CheckNewAccessArguments, CheckSummaryArguments, Command, FindingArguments, NewAccessArguments,
    ReachArguments, SummaryArguments,
};
use crate::dimensions::are_dimensions;
use crate::limits::{
    DEFAULT_FINDINGS, DEFAULT_SPLITS, DEFAULT_STATES, MOST_FINDINGS, MOST_SPLITS, MOST_STATES,
};
use crate::parsing::{file_of, has_flag, name_at, names_at, number_or};
use clap::ArgMatches;
use plain_lists::NoMemory;
use std::alloc::Global;

// The names and the budgets of findings, whatever the dimensions.
fn finding_arguments(alloc: Global, matches: &ArgMatches) -> Result<FindingArguments, NoMemory>
    requires { HasNumbers (found_of matches.now) }
    ensures value { IfOk result
        (λ s. summarising_in s ≡ summarising_of (rows_of (found_of matches.now))) }
    ensures within { IfOk result HasBudgetsInRange }
{
    Ok(FindingArguments {
        set: name_at(alloc, matches, "set")?,
        dimensions: names_at(alloc, matches, "dimension")?,
        schema: file_of(alloc, matches, "schema")?,
        splits: number_or(matches, "splits", MOST_SPLITS, DEFAULT_SPLITS),
        states: number_or(matches, "states", MOST_STATES, DEFAULT_STATES),
        findings: number_or(matches, "findings", MOST_FINDINGS, DEFAULT_FINDINGS),
    })
}

// The findings that the matches ask for, or none where there are too many dimensions or one stands twice.
fn findings_in(alloc: Global, matches: &ArgMatches) -> Result<Option<FindingArguments>, NoMemory>
    requires { HasNumbers (found_of matches.now) }
    ensures value { IfOk result (λ s. option_map summarising_in s
        ≡ findings_asked (rows_of (found_of matches.now))) }
    ensures within { IfOk result (λ s. IfSome s AreFindingsInRange) }
{
    let asked = finding_arguments(alloc, matches)?;
    if are_dimensions(alloc, asked.dimensions.as_slice())? {
        Ok(Some(asked))
    } else {
        Ok(None)
    }
}

/// What the matches of `summary` ask, or none where the dimensions aren't those of findings.
pub(crate) fn summary_in(alloc: Global, matches: &ArgMatches) -> Result<Option<Command>, NoMemory>
    requires { HasNumbers (found_of matches.now) }
    ensures value { IfOk result (λ c. option_map asked_in c
        ≡ summary_of (rows_of (found_of matches.now))) }
    ensures within { IfOk result (λ c. IfSome c IsInRange) }
{
    match findings_in(alloc, matches)? {
        Some(summary) => Ok(Some(Command::Summary(SummaryArguments {
            summary,
            certified: has_flag(matches, "proof"),
        }))),
        None => Ok(None),
    }
}

/// What the matches of `reach` ask, or none where the dimensions aren't those of findings.
pub(crate) fn reach_in(alloc: Global, matches: &ArgMatches) -> Result<Option<Command>, NoMemory>
    requires { HasNumbers (found_of matches.now) }
    ensures value { IfOk result (λ c. option_map asked_in c
        ≡ reach_of (rows_of (found_of matches.now))) }
    ensures within { IfOk result (λ c. IfSome c IsInRange) }
{
    match findings_in(alloc, matches)? {
        Some(summary) => Ok(Some(Command::Reach(ReachArguments {
            summary,
            zone: name_at(alloc, matches, "zone")?,
        }))),
        None => Ok(None),
    }
}

/// What the matches of `emit` ask, or none where the dimensions aren't those of findings.
pub(crate) fn emission_in(alloc: Global, matches: &ArgMatches) -> Result<Option<Command>, NoMemory>
    requires { HasNumbers (found_of matches.now) }
    ensures value { IfOk result (λ c. option_map asked_in c
        ≡ emission_of (rows_of (found_of matches.now))) }
    ensures within { IfOk result (λ c. IfSome c IsInRange) }
{
    match findings_in(alloc, matches)? {
        Some(summary) => Ok(Some(Command::Emit(summary))),
        None => Ok(None),
    }
}

// The names and the states of the check of a summary, whatever the dimensions.
fn summary_check_arguments(
    alloc: Global,
    matches: &ArgMatches,
) -> Result<CheckSummaryArguments, NoMemory>
    requires { HasNumbers (found_of matches.now) }
    ensures value { IfOk result
        (λ c. summary_check_in c ≡ summary_checking_of (rows_of (found_of matches.now))) }
    ensures within { IfOk result HasStatesInRange }
{
    Ok(CheckSummaryArguments {
        set: name_at(alloc, matches, "set")?,
        proof: name_at(alloc, matches, "proof")?,
        dimensions: names_at(alloc, matches, "dimension")?,
        schema: file_of(alloc, matches, "schema")?,
        states: number_or(matches, "states", MOST_STATES, DEFAULT_STATES),
    })
}

// The check of findings that the matches ask for, or none where there are too many dimensions or one stands twice.
fn summary_check_asked(
    alloc: Global,
    matches: &ArgMatches,
) -> Result<Option<CheckSummaryArguments>, NoMemory>
    requires { HasNumbers (found_of matches.now) }
    ensures value { IfOk result (λ c. option_map summary_check_in c
        ≡ summary_check_asked (rows_of (found_of matches.now))) }
    ensures within { IfOk result (λ c. IfSome c IsSummaryCheckInRange) }
{
    let asked = summary_check_arguments(alloc, matches)?;
    if are_dimensions(alloc, asked.dimensions.as_slice())? {
        Ok(Some(asked))
    } else {
        Ok(None)
    }
}

/// What the matches of `check-summary` ask, or none where the dimensions aren't those of findings.
pub(crate) fn summary_check_in(
    alloc: Global,
    matches: &ArgMatches,
) -> Result<Option<Command>, NoMemory>
    requires { HasNumbers (found_of matches.now) }
    ensures value { IfOk result (λ c. option_map asked_in c
        ≡ summary_check_of (rows_of (found_of matches.now))) }
    ensures within { IfOk result (λ c. IfSome c IsInRange) }
{
    match summary_check_asked(alloc, matches)? {
        Some(check) => Ok(Some(Command::CheckSummary(check))),
        None => Ok(None),
    }
}

/// What the matches of `new-access` ask, or none where the dimensions aren't those of findings.
pub(crate) fn new_access_in(
    alloc: Global,
    matches: &ArgMatches,
) -> Result<Option<Command>, NoMemory>
    requires { HasNumbers (found_of matches.now) }
    ensures value { IfOk result (λ c. option_map asked_in c
        ≡ new_access_of (rows_of (found_of matches.now))) }
    ensures within { IfOk result (λ c. IfSome c IsInRange) }
{
    match findings_in(alloc, matches)? {
        Some(summary) => Ok(Some(Command::NewAccess(NewAccessArguments {
            summary,
            second: name_at(alloc, matches, "second")?,
            certified: has_flag(matches, "proof"),
        }))),
        None => Ok(None),
    }
}

/// What the matches of `check-new-access` ask, or none where the dimensions aren't those of findings.
pub(crate) fn new_access_check_in(
    alloc: Global,
    matches: &ArgMatches,
) -> Result<Option<Command>, NoMemory>
    requires { HasNumbers (found_of matches.now) }
    ensures value { IfOk result (λ c. option_map asked_in c
        ≡ new_access_check_of (rows_of (found_of matches.now))) }
    ensures within { IfOk result (λ c. IfSome c IsInRange) }
{
    match summary_check_asked(alloc, matches)? {
        Some(check) => Ok(Some(Command::CheckNewAccess(CheckNewAccessArguments {
            check,
            second: name_at(alloc, matches, "second")?,
        }))),
        None => Ok(None),
    }
}
