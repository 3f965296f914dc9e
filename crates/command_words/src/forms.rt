//! The form of each command's words, as a simple command of `clap`.
ghost use Rattle.std.specs.Prelude.{◌≡◌, ◌≤◌, false, fold, map, IfOk};
ghost use Rattle.clap.specs.Words.{app_of, rule_of, with_rule};
ghost use Rattle.command_words.specs.Arguments.{argument_rule};
ghost use Rattle.command_words.specs.Forms.{amount_rule, check_form, check_new_access_form, check_summary_form, compare_form, emit_form, eval_form};
ghost use Rattle.command_words.specs.Forms.{file_rule, flag_rule, idle_form, load_form, name_rule, names_rule, new_access_form, number_rule};
ghost use Rattle.command_words.specs.Forms.{numbers_up_to, reach_form, summary_form};
ghost use Rattle.command_words.specs.Named.{named_command};

use crate::limits::{MOST_FINDINGS, MOST_KEYS, MOST_SPLITS, MOST_STATES};
use crate::names::CommandName;
use clap::builder::ValueParser;
use clap::{Arg, ArgAction, Command, value_parser};
use plain_lists::NoMemory;
use std::alloc::Global;

fn name_arg<'a>(alloc: Global, id: &'a str) -> Arg<'a>
    ensures rule { rule_of result ≡ name_rule id.now }
    ensures local { result.global ≡ false }
{
    Arg::new(alloc, id).required(true).action(ArgAction::Set)
}

fn names_arg<'a>(alloc: Global, id: &'a str) -> Arg<'a>
    ensures rule { rule_of result ≡ names_rule id.now }
    ensures local { result.global ≡ false }
{
    Arg::new(alloc, id)
        .required(true)
        .num_args(1..)
        .action(ArgAction::Append)
}

// The numbers from 1 to `most`.
fn numbers_up_to<'a>(most: u32) -> ValueParser<'a>
    ensures { result ≡ numbers_up_to most }
{
    value_parser!(u32).range(1..=i64::from(most))
}

fn amount_arg<'a>(alloc: Global, id: &'a str, most: u32) -> Arg<'a>
    ensures rule { rule_of result ≡ amount_rule id.now most }
    ensures local { result.global ≡ false }
{
    Arg::new(alloc, id)
        .required(true)
        .action(ArgAction::Set)
        .value_parser(numbers_up_to(most))
}

fn file_arg<'a>(alloc: Global, id: &'a str) -> Arg<'a>
    ensures rule { rule_of result ≡ file_rule id.now }
    ensures local { result.global ≡ false }
{
    Arg::new(alloc, id).long(id).action(ArgAction::Set)
}

fn number_arg<'a>(alloc: Global, id: &'a str, most: u32) -> Arg<'a>
    ensures rule { rule_of result ≡ number_rule id.now most }
    ensures local { result.global ≡ false }
{
    Arg::new(alloc, id)
        .long(id)
        .action(ArgAction::Set)
        .value_parser(numbers_up_to(most))
}

fn flag_arg<'a>(alloc: Global, id: &'a str) -> Arg<'a>
    ensures rule { rule_of result ≡ flag_rule id.now }
    ensures local { result.global ≡ false }
{
    Arg::new(alloc, id).long(id).action(ArgAction::SetTrue)
}

/// An argument of a command, by its id.
#[derive(Clone, Copy)]
pub(crate) enum Argument<'a> {
    /// A name that has to stand, by its position.
    Name(&'a str),
    /// Names, one of them required, behind the others by position.
    Names(&'a str),
    /// A number from 1 to the greatest that has to stand, by its position.
    Amount(&'a str, u32),
    /// `--ID FILE`.
    File(&'a str),
    /// `--ID N`, a number from 1 to the greatest.
    Number(&'a str, u32),
    /// `--ID`.
    Flag(&'a str),
}

fn arg_of<'a>(alloc: Global, argument: Argument<'a>) -> Arg<'a>
    ensures rule { rule_of result ≡ argument_rule argument.entry }
    ensures local { result.global ≡ false }
{
    match argument {
        Argument::Name(id) => name_arg(alloc, id),
        Argument::Names(id) => names_arg(alloc, id),
        Argument::Amount(id, most) => amount_arg(alloc, id, most),
        Argument::File(id) => file_arg(alloc, id),
        Argument::Number(id, most) => number_arg(alloc, id, most),
        Argument::Flag(id) => flag_arg(alloc, id),
    }
}

fn with_arg<'a>(form: Command<'a>, arg: Arg<'a>) -> Result<Command<'a>, NoMemory>
    requires { arg.global ≡ false }
    ensures { IfOk result (λ r. app_of r ≡ with_rule (app_of form.entry) (rule_of arg.entry)) }
{
    form.arg(arg)
}

// The form with the arguments, in their order.
fn with_arguments<'a>(
    alloc: Global,
    form: Command<'a>,
    arguments: &[Argument<'a>],
) -> Result<Command<'a>, NoMemory>
    ensures { IfOk result
        (λ r. app_of r ≡ fold with_rule (app_of form.entry) (map argument_rule arguments.now)) }
{
    let mut filled = form;
    for argument in arguments {
        filled = with_arg(filled, arg_of(alloc, *argument))?;
    }
    Ok(filled)
}

// `compare FIRST SECOND [--schema FILE] [--splits N] [--states N] [--proof]`.
#[tactic(auto, unfolding(crate::specs::Forms::compare_form))]
fn compare_form<'a>(alloc: Global) -> Result<Command<'a>, NoMemory>
    ensures { IfOk result (λ c. app_of c ≡ compare_form) }
{
    let arguments = [
        Argument::Name("first"),
        Argument::Name("second"),
        Argument::File("schema"),
        Argument::Number("splits", MOST_SPLITS),
        Argument::Number("states", MOST_STATES),
        Argument::Flag("proof"),
    ];
    with_arguments(alloc, Command::new(alloc, "compare"), &arguments)
}

// `check FIRST SECOND PROOF [--schema FILE]`.
#[tactic(auto, unfolding(crate::specs::Forms::check_form))]
fn check_form<'a>(alloc: Global) -> Result<Command<'a>, NoMemory>
    ensures { IfOk result (λ c. app_of c ≡ check_form) }
{
    let arguments = [
        Argument::Name("first"),
        Argument::Name("second"),
        Argument::Name("proof"),
        Argument::File("schema"),
    ];
    with_arguments(alloc, Command::new(alloc, "check"), &arguments)
}

// `summary SET DIMENSION.. [--schema FILE] [--splits N] [--states N] [--findings N] [--proof]`.
#[tactic(auto, unfolding(crate::specs::Forms::summary_form))]
fn summary_form<'a>(alloc: Global) -> Result<Command<'a>, NoMemory>
    ensures { IfOk result (λ c. app_of c ≡ summary_form) }
{
    let arguments = [
        Argument::Name("set"),
        Argument::Names("dimension"),
        Argument::File("schema"),
        Argument::Number("splits", MOST_SPLITS),
        Argument::Number("states", MOST_STATES),
        Argument::Number("findings", MOST_FINDINGS),
        Argument::Flag("proof"),
    ];
    with_arguments(alloc, Command::new(alloc, "summary"), &arguments)
}

// `eval SET REQUEST [--schema FILE]`.
#[tactic(auto, unfolding(crate::specs::Forms::eval_form))]
fn eval_form<'a>(alloc: Global) -> Result<Command<'a>, NoMemory>
    ensures { IfOk result (λ c. app_of c ≡ eval_form) }
{
    let arguments = [
        Argument::Name("set"),
        Argument::Name("request"),
        Argument::File("schema"),
    ];
    with_arguments(alloc, Command::new(alloc, "eval"), &arguments)
}

// `load N`.
#[tactic(auto, unfolding(crate::specs::Forms::load_form))]
fn load_form<'a>(alloc: Global) -> Result<Command<'a>, NoMemory>
    ensures { IfOk result (λ c. app_of c ≡ load_form) }
{
    let arguments = [Argument::Amount("keys", MOST_KEYS)];
    with_arguments(alloc, Command::new(alloc, "load"), &arguments)
}

// `idle SET [--schema FILE] [--splits N] [--states N] [--proof]`.
#[tactic(auto, unfolding(crate::specs::Forms::idle_form))]
fn idle_form<'a>(alloc: Global) -> Result<Command<'a>, NoMemory>
    ensures { IfOk result (λ c. app_of c ≡ idle_form) }
{
    let arguments = [
        Argument::Name("set"),
        Argument::File("schema"),
        Argument::Number("splits", MOST_SPLITS),
        Argument::Number("states", MOST_STATES),
        Argument::Flag("proof"),
    ];
    with_arguments(alloc, Command::new(alloc, "idle"), &arguments)
}

// `reach SET ZONE DIMENSION.. [--schema FILE] [--splits N] [--states N] [--findings N]`.
#[tactic(auto, unfolding(crate::specs::Forms::reach_form))]
fn reach_form<'a>(alloc: Global) -> Result<Command<'a>, NoMemory>
    ensures { IfOk result (λ c. app_of c ≡ reach_form) }
{
    let arguments = [
        Argument::Name("set"),
        Argument::Name("zone"),
        Argument::Names("dimension"),
        Argument::File("schema"),
        Argument::Number("splits", MOST_SPLITS),
        Argument::Number("states", MOST_STATES),
        Argument::Number("findings", MOST_FINDINGS),
    ];
    with_arguments(alloc, Command::new(alloc, "reach"), &arguments)
}

// `emit SET DIMENSION.. [--schema FILE] [--splits N] [--states N] [--findings N]`.
#[tactic(auto, unfolding(crate::specs::Forms::emit_form))]
fn emit_form<'a>(alloc: Global) -> Result<Command<'a>, NoMemory>
    ensures { IfOk result (λ c. app_of c ≡ emit_form) }
{
    let arguments = [
        Argument::Name("set"),
        Argument::Names("dimension"),
        Argument::File("schema"),
        Argument::Number("splits", MOST_SPLITS),
        Argument::Number("states", MOST_STATES),
        Argument::Number("findings", MOST_FINDINGS),
    ];
    with_arguments(alloc, Command::new(alloc, "emit"), &arguments)
}

// `check-summary SET PROOF DIMENSION.. [--schema FILE] [--states N]`.
#[tactic(auto, unfolding(crate::specs::Forms::check_summary_form))]
fn check_summary_form<'a>(alloc: Global) -> Result<Command<'a>, NoMemory>
    ensures { IfOk result (λ c. app_of c ≡ check_summary_form) }
{
    let arguments = [
        Argument::Name("set"),
        Argument::Name("proof"),
        Argument::Names("dimension"),
        Argument::File("schema"),
        Argument::Number("states", MOST_STATES),
    ];
    with_arguments(alloc, Command::new(alloc, "check-summary"), &arguments)
}

// `new-access FIRST SECOND DIMENSION.. [--schema FILE] [--splits N] [--states N] [--findings N] [--proof]`.
#[tactic(auto, unfolding(crate::specs::Forms::new_access_form))]
fn new_access_form<'a>(alloc: Global) -> Result<Command<'a>, NoMemory>
    ensures { IfOk result (λ c. app_of c ≡ new_access_form) }
{
    let arguments = [
        Argument::Name("set"),
        Argument::Name("second"),
        Argument::Names("dimension"),
        Argument::File("schema"),
        Argument::Number("splits", MOST_SPLITS),
        Argument::Number("states", MOST_STATES),
        Argument::Number("findings", MOST_FINDINGS),
        Argument::Flag("proof"),
    ];
    with_arguments(alloc, Command::new(alloc, "new-access"), &arguments)
}

// `check-new-access FIRST SECOND PROOF DIMENSION.. [--schema FILE] [--states N]`.
#[tactic(auto, unfolding(crate::specs::Forms::check_new_access_form))]
fn check_new_access_form<'a>(alloc: Global) -> Result<Command<'a>, NoMemory>
    ensures { IfOk result (λ c. app_of c ≡ check_new_access_form) }
{
    let arguments = [
        Argument::Name("set"),
        Argument::Name("second"),
        Argument::Name("proof"),
        Argument::Names("dimension"),
        Argument::File("schema"),
        Argument::Number("states", MOST_STATES),
    ];
    with_arguments(alloc, Command::new(alloc, "check-new-access"), &arguments)
}

/// The form of the command of the name.
pub(crate) fn command_form<'a>(alloc: Global, name: CommandName) -> Result<Command<'a>, NoMemory>
    ensures { IfOk result (λ c. app_of c ≡ (named_command name).form) }
{
    match name {
        CommandName::Compare => compare_form(alloc),
        CommandName::Check => check_form(alloc),
        CommandName::Summary => summary_form(alloc),
        CommandName::Eval => eval_form(alloc),
        CommandName::Load => load_form(alloc),
        CommandName::Idle => idle_form(alloc),
        CommandName::Reach => reach_form(alloc),
        CommandName::Emit => emit_form(alloc),
        CommandName::CheckSummary => check_summary_form(alloc),
        CommandName::NewAccess => new_access_form(alloc),
        CommandName::CheckNewAccess => check_new_access_form(alloc),
    }
}
