//! Reads statements.
ghost use Rattle.std.specs.Prelude.{IfOk};
ghost use Rattle.serde_json.specs.View.{view};
ghost use Rattle.policy_model.specs.Soundness.{StatementIsSound};
ghost use Rattle.policy_json.specs.Statements.{IsEffectRead, IsStatementRead, form_checks};
ghost use Rattle.json_shapes.specs.Checks.{IsReadOf};

use crate::conditions::read_conditions;
use crate::fault::{PolicyAnswer, PolicyCode, refusal};
use crate::location::Location;
use crate::names::check_names;
use crate::principals::read_who;
use crate::requirement::require;
use crate::texts::{read_action, read_resource};
use json_shapes::{is_absent_or_string, is_object};
use policy_model::Statement;
use serde_json::Value;
use std::alloc::Global;

/// The most statements of a set.
pub const MOST_STATEMENTS: usize = 2000;

// The statement is one of the first of its set, and an object with known names.
fn check_form(
    alloc: Global,
    location: Location,
    in_set: usize,
    statement: &Value,
) -> Result<(), PolicyAnswer>
    ensures { IsReadOf (form_checks location in_set (view statement.now)) tt result }
{
    let is_few = in_set <= MOST_STATEMENTS;
    require(alloc, location, is_few, PolicyCode::P17Limit, "Statement")?;
    let fits = is_object(statement);
    require(alloc, location, fits, PolicyCode::P4WrongShape, "Statement")?;
    let names = [
        "Sid",
        "Effect",
        "Principal",
        "NotPrincipal",
        "Action",
        "NotAction",
        "Resource",
        "NotResource",
        "Condition",
    ];
    check_names(alloc, location, &names, statement)
}

// Whether the statement allows.
fn read_effect(alloc: Global, location: Location, statement: &Value) -> Result<bool, PolicyAnswer>
    ensures { IsEffectRead location (view statement.now) result }
{
    let fits = is_absent_or_string(statement, "Sid");
    require(alloc, location, fits, PolicyCode::P4WrongShape, "Sid")?;
    let Some(effect) = statement.get("Effect") else {
        return Err(refusal(alloc, location, PolicyCode::P5MissingElement, "Effect"));
    };
    match effect.as_str() {
        None => Err(refusal(alloc, location, PolicyCode::P4WrongShape, "Effect")),
        Some("Allow") => Ok(true),
        Some("Deny") => Ok(false),
        Some(_) => Err(refusal(alloc, location, PolicyCode::P8BadEffect, "Effect")),
    }
}

/// Reads the statement of this number in its set, of a document with escapes or without.
pub(crate) fn read_statement(
    alloc: Global,
    location: Location,
    in_set: usize,
    escapes: bool,
    statement: &Value,
) -> Result<Statement, PolicyAnswer>
    ensures read { IsStatementRead location in_set escapes (view statement.now) result }
    ensures sound { IfOk result StatementIsSound }
{
    check_form(alloc, location, in_set, statement)?;
    let allow = read_effect(alloc, location, statement)?;
    let principal = read_who(alloc, location, statement)?;
    let action = read_action(alloc, location, statement)?;
    let resource = read_resource(alloc, location, escapes, statement)?;
    let conditions = read_conditions(alloc, location, escapes, statement)?;
    Ok(Statement {
        allow,
        principal,
        action,
        resource,
        conditions,
    })
}
