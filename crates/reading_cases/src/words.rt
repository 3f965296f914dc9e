//! What words ask.
use command_words::{
    CheckArguments, CheckNewAccessArguments, CheckSummaryArguments, Command, CompareArguments,
    EvalArguments, FindingArguments, IdleArguments, NewAccessArguments, ReachArguments,
    SummaryArguments, read_words,
};
use serde_json::Value;
use std::alloc::{AllocError, Global};
use std::io;
use std::io::ErrorKind;

fn add_word(alloc: Global, words: &mut Vec<String>, item: &Value) -> io::Result<()> {
    let Some(word) = item.as_str() else {
        return Err(ErrorKind::InvalidData.into());
    };
    words.push(String::from_str(alloc, word)?)?;
    Ok(())
}

fn words_in(alloc: Global, items: &[Value]) -> io::Result<Vec<String>> {
    let mut words = Vec::new(alloc);
    for item in items {
        add_word(alloc, &mut words, item)?;
    }
    Ok(words)
}

/// The words of a line.
fn words_of(alloc: Global, line: &str) -> io::Result<Vec<String>> {
    match Value::from_str(alloc, line) {
        Ok(Value::Array(items)) => words_in(alloc, items.as_slice()),
        _ => Err(ErrorKind::InvalidData.into()),
    }
}

fn name_quoted(alloc: Global, name: &str) -> Result<String, AllocError> {
    let name = Value::String(String::from_str(alloc, name)?);
    name.to_string(alloc)
}

/// Adds a name as JSON, behind a space.
fn push_name(alloc: Global, out: &mut String, name: &str) -> Result<(), AllocError> {
    let name = name_quoted(alloc, name)?;
    write!(out, " {name}")
}

fn push_schema(alloc: Global, out: &mut String, schema: Option<&str>) -> Result<(), AllocError> {
    let Some(name) = schema else {
        return Ok(());
    };
    out.push_str(" schema")?;
    push_name(alloc, out, name)
}

fn proof_word(certified: bool) -> &'static str {
    if certified { " proof" } else { "" }
}

fn push_numbers(out: &mut String, asked: &CompareArguments) -> Result<(), AllocError> {
    let (splits, states) = (asked.splits, asked.states);
    let proof = proof_word(asked.certified);
    write!(out, " splits {splits} states {states}{proof}")
}

fn push_comparison(
    alloc: Global,
    out: &mut String,
    asked: &CompareArguments,
) -> Result<(), AllocError> {
    out.push_str("compare")?;
    push_name(alloc, out, asked.names.first.as_str())?;
    push_name(alloc, out, asked.names.second.as_str())?;
    push_schema(alloc, out, asked.names.schema.as_deref())?;
    push_numbers(out, asked)
}

fn push_check(alloc: Global, out: &mut String, asked: &CheckArguments) -> Result<(), AllocError> {
    out.push_str("check")?;
    push_name(alloc, out, asked.names.first.as_str())?;
    push_name(alloc, out, asked.names.second.as_str())?;
    push_name(alloc, out, asked.proof.as_str())?;
    push_schema(alloc, out, asked.names.schema.as_deref())
}

fn push_dimensions(
    alloc: Global,
    out: &mut String,
    dimensions: &[String],
) -> Result<(), AllocError> {
    out.push_str(" by")?;
    for dimension in dimensions {
        push_name(alloc, out, dimension.as_str())?;
    }
    Ok(())
}

fn push_budgets(out: &mut String, asked: &FindingArguments) -> Result<(), AllocError> {
    let (splits, states, findings) = (asked.splits, asked.states, asked.findings);
    write!(out, " splits {splits} states {states} findings {findings}")
}

/// Adds the findings that are asked for, behind a command's word.
fn push_findings(
    alloc: Global,
    out: &mut String,
    word: &str,
    asked: &FindingArguments,
) -> Result<(), AllocError> {
    out.push_str(word)?;
    push_name(alloc, out, asked.set.as_str())?;
    push_dimensions(alloc, out, asked.dimensions.as_slice())?;
    push_schema(alloc, out, asked.schema.as_deref())?;
    push_budgets(out, asked)
}

fn push_summary(
    alloc: Global,
    out: &mut String,
    asked: &SummaryArguments,
) -> Result<(), AllocError> {
    push_findings(alloc, out, "summary", &asked.summary)?;
    out.push_str(proof_word(asked.certified))
}

fn push_reach(alloc: Global, out: &mut String, asked: &ReachArguments) -> Result<(), AllocError> {
    push_findings(alloc, out, "reach", &asked.summary)?;
    out.push_str(" outside")?;
    push_name(alloc, out, asked.zone.as_str())
}

fn push_idle(alloc: Global, out: &mut String, asked: &IdleArguments) -> Result<(), AllocError> {
    out.push_str("idle")?;
    push_name(alloc, out, asked.set.as_str())?;
    push_schema(alloc, out, asked.schema.as_deref())?;
    let (splits, states) = (asked.splits, asked.states);
    let proof = proof_word(asked.certified);
    write!(out, " splits {splits} states {states}{proof}")
}

/// Adds the check of findings that is asked for, behind a command's word.
fn push_findings_check(
    alloc: Global,
    out: &mut String,
    word: &str,
    asked: &CheckSummaryArguments,
) -> Result<(), AllocError> {
    out.push_str(word)?;
    push_name(alloc, out, asked.set.as_str())?;
    push_name(alloc, out, asked.proof.as_str())?;
    push_dimensions(alloc, out, asked.dimensions.as_slice())?;
    push_schema(alloc, out, asked.schema.as_deref())?;
    let states = asked.states;
    write!(out, " states {states}")
}

/// Adds the name of the second set's file.
fn push_second(alloc: Global, out: &mut String, second: &str) -> Result<(), AllocError> {
    out.push_str(" against")?;
    push_name(alloc, out, second)
}

fn push_new_access(
    alloc: Global,
    out: &mut String,
    asked: &NewAccessArguments,
) -> Result<(), AllocError> {
    push_findings(alloc, out, "new-access", &asked.summary)?;
    push_second(alloc, out, asked.second.as_str())?;
    out.push_str(proof_word(asked.certified))
}

fn push_new_access_check(
    alloc: Global,
    out: &mut String,
    asked: &CheckNewAccessArguments,
) -> Result<(), AllocError> {
    push_findings_check(alloc, out, "check-new-access", &asked.check)?;
    push_second(alloc, out, asked.second.as_str())
}

fn push_evaluation(
    alloc: Global,
    out: &mut String,
    asked: &EvalArguments,
) -> Result<(), AllocError> {
    out.push_str("eval")?;
    push_name(alloc, out, asked.set.as_str())?;
    push_name(alloc, out, asked.request.as_str())?;
    push_schema(alloc, out, asked.schema.as_deref())
}

fn push_command(alloc: Global, out: &mut String, command: &Command) -> Result<(), AllocError> {
    match command {
        Command::Compare(asked) => push_comparison(alloc, out, asked),
        Command::Check(asked) => push_check(alloc, out, asked),
        Command::Summary(asked) => push_summary(alloc, out, asked),
        Command::Eval(asked) => push_evaluation(alloc, out, asked),
        Command::Load(keys) => write!(out, "load {keys}"),
        Command::Idle(asked) => push_idle(alloc, out, asked),
        Command::Reach(asked) => push_reach(alloc, out, asked),
        Command::Emit(asked) => push_findings(alloc, out, "emit", asked),
        Command::CheckSummary(asked) => push_findings_check(alloc, out, "check-summary", asked),
        Command::NewAccess(asked) => push_new_access(alloc, out, asked),
        Command::CheckNewAccess(asked) => push_new_access_check(alloc, out, asked),
        Command::MisusedNewAccess => out.push_str("usage"),
    }
}

fn push_answer(alloc: Global, out: &mut String, words: &[String]) -> Result<(), AllocError> {
    match read_words(alloc, words)? {
        Some(command) => push_command(alloc, out, &command),
        None => out.push_str("usage"),
    }
}

fn command_text(alloc: Global, words: &[String]) -> Result<String, AllocError> {
    let mut out = String::new(alloc);
    push_answer(alloc, &mut out, words)?;
    Ok(out)
}

/// What the words of a JSON list ask, or `usage`.
pub(crate) fn words_answer(alloc: Global, line: &str) -> io::Result<String> {
    let words = words_of(alloc, line)?;
    Ok(command_text(alloc, words.as_slice())?)
}
