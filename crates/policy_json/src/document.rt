//! Reads documents.
ghost use Rattle.std.specs.Prelude.{◌≡◌, ◌+◌, ◌≤◌, All, IfOk, length, codes};
ghost use Rattle.serde_json.specs.Find.{get};
ghost use Rattle.json_shapes.specs.Shapes.{where_there};
ghost use Rattle.serde_json.specs.View.{view};
ghost use Rattle.policy_model.specs.Soundness.{DocumentIsSound, StatementIsSound};
ghost use Rattle.policy_json.specs.declared.document.TheConstants.{MOST_DOCUMENTS};
ghost use Rattle.policy_json.specs.declared.statement.TheConstants.{MOST_STATEMENTS};
ghost use Rattle.policy_json.specs.Documents.{AreStatementsRead, IsDocumentRead, element_checks, has_escapes, head_checks, is_version, object_checks, statements_in};
ghost use Rattle.json_shapes.specs.Json.{views};
ghost use Rattle.json_shapes.specs.Checks.{IsReadOf};

use crate::fault::{PolicyAnswer, PolicyCode, refusal};
use crate::location::Location;
use crate::names::check_names;
use crate::requirement::require;
use crate::statement::read_statement;
use json_shapes::{is_absent_or_string, is_object, is_object_or_list, is_text_at, members};
use policy_model::{Document, List, StatementList};
use serde_json::Value;
use std::alloc::Global;

/// The most documents of a set, those of its guards included.
pub const MOST_DOCUMENTS: u32 = 32;

// The document is one of the first of its set, and an object with known names.
fn check_object(alloc: Global, location: Location, document: &Value) -> Result<(), PolicyAnswer>
    ensures { IsReadOf (object_checks location (view document.now)) tt result }
{
    let is_few = location.document <= MOST_DOCUMENTS;
    require(alloc, location, is_few, PolicyCode::P17Limit, "")?;
    let fits = is_object(document);
    require(alloc, location, fits, PolicyCode::P2SetShape, "")?;
    let names = ["Version", "Id", "Statement"];
    check_names(alloc, location, &names, document)
}

// Whether the value is a version that the language has.
fn is_version(value: &Value) -> bool
    ensures { result ≡ is_version (view value.now) }
{
    match value.as_str() {
        Some(text) => text == "2012-10-17" || text == "2008-10-17",
        None => false,
    }
}

// Whether the version is such a value, or absent.
fn is_version_or_absent(document: &Value) -> bool
    ensures { result ≡ where_there is_version (get (codes "Version") (view document.now)) }
{
    match document.get("Version") {
        Some(version) => is_version(version),
        None => true,
    }
}

// A document without a version is one of version 2008-10-17.
fn has_escapes(document: &Value) -> bool
    ensures { result ≡ has_escapes (view document.now) }
{
    is_text_at(document, "Version", "2012-10-17")
}

// Version, id and statements are as they must be.
fn check_elements(alloc: Global, location: Location, document: &Value) -> Result<(), PolicyAnswer>
    ensures { IsReadOf (element_checks location (view document.now)) tt result }
{
    let fits = is_absent_or_string(document, "Version");
    require(alloc, location, fits, PolicyCode::P4WrongShape, "Version")?;
    let is_known = is_version_or_absent(document);
    require(
        alloc,
        location,
        is_known,
        PolicyCode::P7BadVersion,
        "Version",
    )?;
    let fits = is_absent_or_string(document, "Id");
    require(alloc, location, fits, PolicyCode::P4WrongShape, "Id")?;
    let Some(statements) = document.get("Statement") else {
        return Err(refusal(alloc, location, PolicyCode::P5MissingElement, "Statement"));
    };
    let fits = is_object_or_list(statements);
    require(alloc, location, fits, PolicyCode::P4WrongShape, "Statement")
}

// All that is checked of a document before its statements.
fn check_head(alloc: Global, location: Location, document: &Value) -> Result<(), PolicyAnswer>
    ensures { IsReadOf (head_checks location (view document.now)) tt result }
{
    check_object(alloc, location, document)?;
    check_elements(alloc, location, document)
}

// The statements: one, or a list.
fn statements_in(document: &Value) -> &[Value]
    ensures { views result.now ≡ statements_in (view document.now) }
{
    match document.get("Statement") {
        Some(element) => members(element),
        None => &[],
    }
}

// Reads the statements of a document, before which so many stand in the set.
fn read_statements(
    alloc: Global,
    document: u32,
    before: usize,
    escapes: bool,
    values: &[Value],
) -> Result<StatementList, PolicyAnswer>
    requires { before ≤ MOST_STATEMENTS }
    ensures read { AreStatementsRead document before escapes (views values.now) result }
    ensures few { IfOk result (λ s. before + length s ≤ MOST_STATEMENTS) }
    ensures sound { IfOk result (All StatementIsSound) }
{
    let mut statements = List::new(alloc);
    for value in values {
        let location = Location {
            document,
            statement: statements.len() as u32 + 1,
        };
        let in_set = before + statements.len() + 1;
        let statement = read_statement(alloc, location, in_set, escapes, value)?;
        statements.push(statement)?;
    }
    Ok(statements)
}

/// Reads the document of this number, before which so many statements stand in the set.
pub(crate) fn read_document(
    alloc: Global,
    number: u32,
    before: usize,
    document: &Value,
) -> Result<Document, PolicyAnswer>
    requires { before ≤ MOST_STATEMENTS }
    ensures read { IsDocumentRead number before (view document.now) result }
    ensures few { IfOk result (λ d. (number ≤ MOST_DOCUMENTS)
        × (before + length d.statements ≤ MOST_STATEMENTS)) }
    ensures sound { IfOk result DocumentIsSound }
{
    let location = Location {
        document: number,
        statement: 0,
    };
    check_head(alloc, location, document)?;
    let escapes = has_escapes(document);
    let values = statements_in(document);
    let statements = read_statements(alloc, number, before, escapes, values)?;
    Ok(Document { statements })
}
