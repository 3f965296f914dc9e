//! The words of a command line, read.
ghost use Rattle.std.specs.Prelude.{◌≡◌, ◌≤◌, IfOk, IfSome, option_and_then, option_map};
ghost use Rattle.clap.specs.Words.{found_of, rows_of};
ghost use Rattle.command_words.specs.Asked.{HasNumbersInRange, IsInRange};
ghost use Rattle.command_words.specs.Asked.{CheckCommand, CompareCommand, LoadCommand, EvalCommand};
ghost use Rattle.command_words.specs.Asked.{asked_by, asked_by_form, asked_in, asked_of, check_of, checking_in};
ghost use Rattle.command_words.specs.Asked.{command_of, comparing_in, comparison_of};
ghost use Rattle.command_words.specs.Asked.{evaluating_in, evaluation_of, load_of, names_in, pair_names};
ghost use Rattle.command_words.specs.Asked.{texts_in};
ghost use Rattle.command_words.specs.Named.{named_command};
ghost use Rattle.command_words.specs.Parsing.{HasNumbers};

use crate::asked::{CheckArguments, Command, CompareArguments, EvalArguments, FileNames};
use crate::findings::{
    emission_in, new_access_check_in, new_access_in, reach_in, summary_check_in, summary_in,
};
use crate::forms::command_form;
use crate::limits::{DEFAULT_SPLITS, DEFAULT_STATES, MOST_KEYS, MOST_SPLITS, MOST_STATES};
use crate::names::{CommandName, command_named};
use crate::parsing::{file_of, has_flag, name_at, number_or, parsed};
use crate::uses::use_question_in;
use clap::ArgMatches;
use plain_lists::NoMemory;
use std::alloc::Global;

fn names_in(alloc: Global, matches: &ArgMatches) -> Result<FileNames, NoMemory>
    ensures { IfOk result (λ n. names_in n ≡ pair_names (rows_of (found_of matches.now))) }
{
    Ok(FileNames {
        first: name_at(alloc, matches, "first")?,
        second: name_at(alloc, matches, "second")?,
        schema: file_of(alloc, matches, "schema")?,
    })
}

// What the matches of `compare` ask.
fn comparison_in(alloc: Global, matches: &ArgMatches) -> Result<CompareArguments, NoMemory>
    requires { HasNumbers (found_of matches.now) }
    ensures value { IfOk result (λ c. CompareCommand (comparing_in c)
        ≡ comparison_of (rows_of (found_of matches.now))) }
    ensures within { IfOk result HasNumbersInRange }
{
    Ok(CompareArguments {
        names: names_in(alloc, matches)?,
        splits: number_or(matches, "splits", MOST_SPLITS, DEFAULT_SPLITS),
        states: number_or(matches, "states", MOST_STATES, DEFAULT_STATES),
        certified: has_flag(matches, "proof"),
    })
}

// What the matches of `check` ask.
fn check_in(alloc: Global, matches: &ArgMatches) -> Result<CheckArguments, NoMemory>
    ensures { IfOk result
        (λ c. CheckCommand (checking_in c) ≡ check_of (rows_of (found_of matches.now))) }
{
    Ok(CheckArguments {
        names: names_in(alloc, matches)?,
        proof: name_at(alloc, matches, "proof")?,
    })
}

// What the matches of `eval` ask.
fn evaluation_in(alloc: Global, matches: &ArgMatches) -> Result<EvalArguments, NoMemory>
    ensures { IfOk result (λ e. EvalCommand (evaluating_in e)
        ≡ evaluation_of (rows_of (found_of matches.now))) }
{
    Ok(EvalArguments {
        set: name_at(alloc, matches, "set")?,
        request: name_at(alloc, matches, "request")?,
        schema: file_of(alloc, matches, "schema")?,
    })
}

// The number of keys in the matches of `load`.
fn load_in(matches: &ArgMatches) -> u32
    requires { HasNumbers (found_of matches.now) }
    ensures value { LoadCommand result ≡ load_of (rows_of (found_of matches.now)) }
    ensures within { (1 ≤ result) × (result ≤ MOST_KEYS) }
{
    number_or(matches, "keys", MOST_KEYS, 1)
}

// What the matches of the command of the name ask, if anything.
fn command_in(
    alloc: Global,
    name: CommandName,
    matches: &ArgMatches,
) -> Result<Option<Command>, NoMemory>
    requires { HasNumbers (found_of matches.now) }
    ensures value { IfOk result (λ c. option_map asked_in c
        ≡ (named_command name).asks (rows_of (found_of matches.now))) }
    ensures within { IfOk result (λ c. IfSome c IsInRange) }
{
    match name {
        CommandName::Compare => Ok(Some(Command::Compare(comparison_in(alloc, matches)?))),
        CommandName::Check => Ok(Some(Command::Check(check_in(alloc, matches)?))),
        CommandName::Summary => summary_in(alloc, matches),
        CommandName::Eval => Ok(Some(Command::Eval(evaluation_in(alloc, matches)?))),
        CommandName::Load => Ok(Some(Command::Load(load_in(matches)))),
        CommandName::Idle => Ok(Some(Command::Idle(use_question_in(alloc, matches)?))),
        CommandName::Reach => reach_in(alloc, matches),
        CommandName::Emit => emission_in(alloc, matches),
        CommandName::CheckSummary => summary_check_in(alloc, matches),
        CommandName::NewAccess => new_access_in(alloc, matches),
        CommandName::CheckNewAccess => new_access_check_in(alloc, matches),
    }
}

// What the words ask by the form of the command of the name, or none where `clap` refuses them or they ask for no
// findings.
fn read_form(
    alloc: Global,
    name: CommandName,
    words: &[String],
) -> Result<Option<Command>, NoMemory>
    ensures value { IfOk result (λ c. option_map asked_in c
        ≡ asked_by_form (named_command name) (texts_in words.now)) }
    ensures within { IfOk result (λ c. IfSome c IsInRange) }
{
    match parsed(command_form(alloc, name)?, words)? {
        Some(matches) => command_in(alloc, name, &matches),
        None => Ok(None),
    }
}

// What is asked by words behind the name that ask nothing by the command's form.
fn otherwise(name: CommandName) -> Option<Command>
    ensures value { option_map asked_in result ≡ (named_command name).otherwise }
    ensures within { IfSome result IsInRange }
{
    match name {
        CommandName::NewAccess => Some(Command::MisusedNewAccess),
        CommandName::CheckNewAccess => Some(Command::MisusedNewAccess),
        CommandName::Compare => None,
        CommandName::Check => None,
        CommandName::Summary => None,
        CommandName::Eval => None,
        CommandName::Load => None,
        CommandName::Idle => None,
        CommandName::Reach => None,
        CommandName::Emit => None,
        CommandName::CheckSummary => None,
    }
}

// What the words ask of the command of the name.
fn read_named(
    alloc: Global,
    name: CommandName,
    words: &[String],
) -> Result<Option<Command>, NoMemory>
    ensures value { IfOk result (λ c. option_map asked_in c
        ≡ asked_of (named_command name) (texts_in words.now)) }
    ensures within { IfOk result (λ c. IfSome c IsInRange) }
{
    match read_form(alloc, name, words)? {
        Some(command) => Ok(Some(command)),
        None => Ok(otherwise(name)),
    }
}

// What the words ask of the command that the first word names.
fn read_command(alloc: Global, word: &str, words: &[String]) -> Result<Option<Command>, NoMemory>
    ensures value { IfOk result (λ c. option_map asked_in c ≡ option_and_then (λ e. asked_of e
        (texts_in words.now)) (command_of word.now)) }
    ensures within { IfOk result (λ c. IfSome c IsInRange) }
{
    match command_named(word) {
        Some(name) => read_named(alloc, name, words),
        None => Ok(None),
    }
}

/// What the words after the program's name ask, or none where there are none, where the first is no
/// command, where `clap` refuses the others, which aren't of the command's form or ask for help, or where
/// they ask for findings by more than four dimensions, or by two that are equal but for the case of ASCII
/// letters. Behind `new-access` and `check-new-access` such words ask how these two are called.
pub fn read_words(alloc: Global, words: &[String]) -> Result<Option<Command>, NoMemory>
    ensures value { IfOk result (λ c. option_map asked_in c ≡ asked_by words.now) }
    ensures within { IfOk result (λ c. IfSome c IsInRange) }
{
    match words.first() {
        Some(word) => read_command(alloc, word.as_str(), words),
        None => Ok(None),
    }
}
