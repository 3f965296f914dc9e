//! Writes the policy of a summary.
ghost use Rattle.std.specs.Prelude.{◌≡◌, ◌<◌, ◌↔◌, All, IfOk, IsTrue, length, string_bytes};
ghost use Rattle.serde_json.specs.View.{view};
ghost use Rattle.policy_json.specs.declared.statement.TheConstants.{MOST_STATEMENTS};
ghost use Rattle.findings.specs.Findings.{IsFinding};
ghost use Rattle.findings.specs.Summaries.{findings_of};
ghost use Rattle.policy_emit.specs.Emitted.{StatementsAreKept, IsEmitted, policy_data, policy_text, statements_data};
ghost use Rattle.policy_emit.specs.Laws.{IsReadAsEmitted};

use crate::fault::EmitFault;
use crate::meaning::emitted_policies_are_read;
use crate::statement::statement_json;
use crate::texts::{put_at, str_json};
use findings::{Finding, Summary};
use plain_lists::NoMemory;
use policy_json::MOST_STATEMENTS;
use policy_model::{Request, Schema};
use serde_json::{Map, Value as Json};
use std::alloc::Global;
use strata::Strata;

// The statements of the findings.
fn statements_json(
    alloc: Global,
    schema: &Schema,
    strata: &Strata,
    summary: &[(Finding, Request)],
) -> Result<Json, NoMemory>
    requires { All (λ p. IsFinding strata.now.dimensions p.0) summary.now }
    ensures data { IfOk result (λ v. view v ≡
        statements_data schema.now strata.now.dimensions (findings_of summary.now)) }
    ensures kept { IfOk result (λ _.
        StatementsAreKept schema.now strata.now.dimensions (findings_of summary.now)) }
{
    let mut statements = Vec::new(alloc);
    for found in summary {
        statements.push(statement_json(alloc, schema, strata, &found.0)?)?;
    }
    Ok(Json::Array(statements))
}

// The document of the findings.
fn document_json(
    alloc: Global,
    schema: &Schema,
    strata: &Strata,
    summary: &Summary,
) -> Result<Json, NoMemory>
    requires { All (λ p. IsFinding strata.now.dimensions p.0) summary.now }
    ensures data { IfOk result (λ v. view v ≡
        policy_data schema.now strata.now.dimensions (findings_of summary.now)) }
    ensures kept { IfOk result (λ _.
        StatementsAreKept schema.now strata.now.dimensions (findings_of summary.now)) }
{
    let mut members = Map::new(alloc);
    let statements = statements_json(alloc, schema, strata, summary.as_slice())?;
    put_at(alloc, &mut members, "Statement", statements)?;
    put_at(
        alloc,
        &mut members,
        "Version",
        str_json(alloc, "2012-10-17")?,
    )?;
    Ok(Json::Object(members))
}

// The document as a text, with a line feed behind it.
fn document_text(
    alloc: Global,
    schema: &Schema,
    strata: &Strata,
    summary: &Summary,
) -> Result<String, NoMemory>
    requires { All (λ p. IsFinding strata.now.dimensions p.0) summary.now }
    ensures text { IfOk result (λ text. string_bytes text ≡
        policy_text schema.now strata.now.dimensions (findings_of summary.now)) }
    ensures kept { IfOk result (λ _.
        StatementsAreKept schema.now strata.now.dimensions (findings_of summary.now)) }
{
    let document = document_json(alloc, schema, strata, summary)?;
    let mut text = document.to_string(alloc)?;
    text.push('\n')?;
    Ok(text)
}

// Whether there are more findings than statements may stand in a set.
fn are_too_many(summary: &Summary) -> bool
    ensures { IsTrue result ↔ (MOST_STATEMENTS < length summary.now) }
{
    summary.len() > MOST_STATEMENTS
}

/// The policy of a summary as one line of compact JSON (RFC 8259), which a line feed ends. Each finding is
/// a statement that allows what lies in it, and the statements stand in the order of the findings. The
/// document's version is the one whose texts have escapes, 2012-10-17.
///
/// Where a finding asks nothing of a part of the request, `Action` and `Resource` say `*`, and `Principal` and
/// `Condition` are left out. Actions are written without escapes, resources and the values of keys with
/// escapes. A key stands under one operator, by its name with ASCII letters lowered:
///
/// - a pattern under `ArnLike` where a wildcard of it takes no colon, else under `StringEqualsIgnoreCase` where
///   it takes a letter in either case, else under `StringLike`;
/// - a comparison under its `Numeric` name, and a block under `IpAddress`;
/// - a flag under `Bool`, with each truth value that it takes, and bytes under `BinaryEquals`.
///
/// Before the name of the operator stands `ForAnyValue:` where the schema gives the key several values.
///
/// Where the strata were made for a set that a file gives, the reader of policies reads the text as
/// `emitted_set`. It refuses a summary of more findings than a set may have statements, which are 2,000, by
/// `TooManyStatements`, and no other one; `NoMemory` says that there was no memory.
pub fn emit(
    alloc: Global,
    schema: &Schema,
    strata: &Strata,
    summary: &Summary,
) -> Result<String, EmitFault>
    requires findings { All (λ p. IsFinding strata.now.dimensions p.0) summary.now }
    ensures emitted { IsEmitted schema.now strata.now.dimensions (findings_of summary.now) result }
    ensures read { IfOk result (λ text.
        IsReadAsEmitted schema.now strata.now (findings_of summary.now) (string_bytes text)) }
{
    if are_too_many(summary) {
        return Err(EmitFault::TooManyStatements);
    }
    emitted_policies_are_read();
    Ok(document_text(alloc, schema, strata, summary)?)
}
