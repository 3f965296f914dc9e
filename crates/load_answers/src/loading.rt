//! The comparisons and the summary of two sets of a size that is asked for.
ghost use Rattle.std.specs.Prelude.{◌≡◌, ◌++◌, ◌<◌, IfOk, codes, string_bytes};
ghost use Rattle.command_words.specs.Asked.{texts_in};
ghost use Rattle.policy_load.specs.Loads.{first_load, second_load};
ghost use Rattle.policy_model.specs.Soundness.{IsSound, SchemaIsSound};
ghost use Rattle.request_schema.specs.BuiltIn.{built_in_schema};
ghost use Rattle.run_inputs.specs.Printing.{IfPrinted};
ghost use Rattle.summary_search.specs.Outcomes.{AreInRange};
ghost use Rattle.load_answers.specs.Loaded.{ComparesSets, IsLineFor, IsLoadPrinted, IsLoaded, SummarisesFirst};
ghost use Rattle.load_answers.specs.Loaded.{back_line, default_budgets, default_limits, first_key, forth_line, keys_line, line_of, load_text};

use command_words::{DEFAULT_FINDINGS, DEFAULT_SPLITS, DEFAULT_STATES};
use compare_answers::print_pair;
use policy_load::load_pair;
use policy_model::{PolicySet, Schema};
use request_schema::built_in;
use run_inputs::{EarlyEnd, Printed, Status, printed_of, run_one, run_pair};
use std::alloc::{AllocError, Global};
use strata::MOST_PREDICATES;
use summary_answers::{print_subject_summary, subject_of_set};
use summary_search::Limits;
use tree_search::Budgets;

/// What the comparisons and the summary of two sets of so many keys came to: the first line of what is printed
/// to each.
#[derive(Drop)]
pub struct LoadLines {
    /// How many keys there are.
    pub keys: u32,
    /// Of the comparison of the first set with the second.
    pub forth: String,
    /// Of the comparison of the second set with the first.
    pub back: String,
    /// Of the summary of the first set by its first key.
    pub summary: String,
}

// The first line of a text, without its line feed.
fn line_of(alloc: Global, text: &str) -> Result<String, AllocError>
    ensures { IfOk result (λ s. string_bytes s ≡ line_of text.now) }
{
    match text.split_once('\n') {
        Some((line, _)) => String::from_str(alloc, line),
        None => String::from_str(alloc, text),
    }
}

// The budgets of a run that names no others.
fn default_budgets() -> Budgets
    ensures { result ≡ default_budgets }
{
    Budgets {
        splits: DEFAULT_SPLITS,
        states: DEFAULT_STATES,
    }
}

// What is printed to a comparison of two sets under named keys.
fn compared(
    alloc: Global,
    named: &Schema,
    first: PolicySet,
    second: PolicySet,
) -> Result<Printed, EarlyEnd>
    requires sound { SchemaIsSound named.now }
    requires first_sound { IsSound first }
    requires second_sound { IsSound second }
    ensures { IfPrinted result (ComparesSets named.now first second) }
{
    let pair = run_pair(alloc, named, first, second)?;
    print_pair(alloc, &pair, default_budgets(), false)
}

// The first line of that.
fn comparison_line(
    alloc: Global,
    named: &Schema,
    first: PolicySet,
    second: PolicySet,
) -> Result<String, AllocError>
    requires sound { SchemaIsSound named.now }
    requires first_sound { IsSound first }
    requires second_sound { IsSound second }
    ensures { IfOk result (IsLineFor (ComparesSets named.now first second)) }
{
    let printed = printed_of(compared(alloc, named, first, second))?;
    line_of(alloc, printed.text.as_str())
}

// The limits of a summary that names no others.
fn default_limits() -> Limits
    ensures value { result ≡ default_limits }
    ensures range { AreInRange result }
{
    Limits {
        splits: DEFAULT_SPLITS,
        predicates: MOST_PREDICATES,
        states: DEFAULT_STATES,
        findings: DEFAULT_FINDINGS,
    }
}

// The first key, by which the first set is summarised.
fn first_key(alloc: Global) -> Result<Vec<String>, AllocError>
    ensures { IfOk result (λ names. texts_in names.items ≡ first_key) }
{
    let mut names = Vec::new(alloc);
    names.push(String::from_str(alloc, "load:k001")?)?;
    Ok(names)
}

// What is printed to a summary of the set under named keys by its first key.
fn first_summary(alloc: Global, named: &Schema, set: PolicySet) -> Result<Printed, EarlyEnd>
    requires sound { SchemaIsSound named.now }
    requires set_sound { IsSound set }
    ensures { IfPrinted result (SummarisesFirst named.now set) }
{
    let one = run_one(alloc, named, set)?;
    let subject = subject_of_set(one);
    let names = first_key(alloc)?;
    print_subject_summary(alloc, &subject, names.as_slice(), default_limits())
}

// The first line of that.
fn summary_line(alloc: Global, named: &Schema, set: PolicySet) -> Result<String, AllocError>
    requires sound { SchemaIsSound named.now }
    requires set_sound { IsSound set }
    ensures { IfOk result (IsLineFor (SummarisesFirst named.now set)) }
{
    let printed = printed_of(first_summary(alloc, named, set))?;
    line_of(alloc, printed.text.as_str())
}

// The line of the comparison of the first set of so many keys with the second.
fn first_to_second(alloc: Global, named: &Schema, keys: u32) -> Result<String, AllocError>
    requires sound { SchemaIsSound named.now }
    requires few { keys < 1000 }
    ensures { IfOk result (IsLineFor (ComparesSets named.now (first_load keys) second_load)) }
{
    let (first, second) = load_pair(alloc, keys)?;
    comparison_line(alloc, named, first, second)
}

// The line of the comparison of the second set with the first.
fn second_to_first(alloc: Global, named: &Schema, keys: u32) -> Result<String, AllocError>
    requires sound { SchemaIsSound named.now }
    requires few { keys < 1000 }
    ensures { IfOk result (IsLineFor (ComparesSets named.now second_load (first_load keys))) }
{
    let (first, second) = load_pair(alloc, keys)?;
    comparison_line(alloc, named, second, first)
}

// The line of the summary of the first set by its first key.
fn first_by_key(alloc: Global, named: &Schema, keys: u32) -> Result<String, AllocError>
    requires sound { SchemaIsSound named.now }
    requires few { keys < 1000 }
    ensures { IfOk result (IsLineFor (SummarisesFirst named.now (first_load keys))) }
{
    let (first, _second) = load_pair(alloc, keys)?;
    summary_line(alloc, named, first)
}

// The lines of the two sets of so many keys, each with the budgets of a run that names no others.
fn load_lines(alloc: Global, keys: u32) -> Result<LoadLines, AllocError>
    requires { keys < 1000 }
    ensures { IfOk result (IsLoaded keys) }
{
    let named = built_in(alloc)?;
    lines_under(alloc, &named, keys)
}

// The same, under the built-in keys.
fn lines_under(alloc: Global, named: &Schema, keys: u32) -> Result<LoadLines, AllocError>
    requires built_in { named.now ≡ built_in_schema }
    requires sound { SchemaIsSound named.now }
    requires few { keys < 1000 }
    ensures { IfOk result (IsLoaded keys) }
{
    let forth = first_to_second(alloc, named, keys)?;
    let back = second_to_first(alloc, named, keys)?;
    let summary = first_by_key(alloc, named, keys)?;
    Ok(LoadLines {
        keys,
        forth,
        back,
        summary,
    })
}

// The line on the number of keys.
fn keys_line(alloc: Global, keys: u32) -> Result<String, AllocError>
    ensures { IfOk result (λ s. string_bytes s ≡ keys_line keys) }
{
    format!(in alloc; "load {keys}\n")
}

// The line of the comparison of the first set with the second.
fn forth_line(alloc: Global, line: &str) -> Result<String, AllocError>
    ensures { IfOk result (λ s. string_bytes s ≡ forth_line line.now) }
{
    format!(in alloc; "first to second: {line}\n")
}

// The line of the comparison of the second set with the first.
fn back_line(alloc: Global, line: &str) -> Result<String, AllocError>
    ensures { IfOk result (λ s. string_bytes s ≡ back_line line.now) }
{
    format!(in alloc; "second to first: {line}\n")
}

// The line with its line feed.
fn ended(alloc: Global, line: &str) -> Result<String, AllocError>
    ensures { IfOk result (λ s. string_bytes s ≡ line.now ++ codes "\n") }
{
    format!(in alloc; "{line}\n")
}

// The lines of a load.
fn load_text(alloc: Global, lines: &LoadLines) -> Result<String, AllocError>
    ensures { IfOk result (λ s. string_bytes s ≡ load_text lines.now) }
{
    let forth = forth_line(alloc, lines.forth.as_str())?;
    let back = back_line(alloc, lines.back.as_str())?;
    let summary = ended(alloc, lines.summary.as_str())?;
    let mut text = keys_line(alloc, lines.keys)?;
    text.push_str(forth.as_str())?;
    text.push_str(back.as_str())?;
    text.push_str(summary.as_str())?;
    Ok(text)
}

/// What is printed to a load of so many keys.
pub fn print_load(alloc: Global, keys: u32) -> Result<Printed, EarlyEnd>
    requires { keys < 1000 }
    ensures { IfPrinted result (IsLoadPrinted keys) }
{
    let lines = load_lines(alloc, keys)?;
    Ok(Printed {
        text: load_text(alloc, &lines)?,
        status: Status::Holds,
    })
}
