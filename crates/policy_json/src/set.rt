//! Reads sets.
ghost use Rattle.std.specs.Prelude.{◌≡◌, ◌+◌, ◌≤◌, Err, Some, All, IfErr, IfOk, OnOk, false, true, length};
ghost use Rattle.std.specs.List.{list_all};
ghost use Rattle.serde_json.specs.Find.{get};
ghost use Rattle.serde_json.specs.View.{view};
ghost use Rattle.policy_model.specs.Soundness.{DocumentIsSound, IsSound};
ghost use Rattle.policy_json.specs.declared.set.TheConstants.{MOST_GUARDS};
ghost use Rattle.json_shapes.specs.Json.{json_of, values_in, views, list_under};
ghost use Rattle.json_shapes.specs.Shapes.{is_list};
ghost use Rattle.policy_json.specs.Sets.{AreDocumentsRead, AreGuardsRead, AreSetPartsRead, CountsDocuments, CountsGuards, CountsStatements, IsSetOf, IsValueRead, guarded_checks, guards_in, is_guarded, list_checks};
ghost use Rattle.json_shapes.specs.Checks.{IsReadOf};

use crate::counts::Counts;
use crate::document::read_document;
use crate::fault::{PolicyAnswer, PolicyCode, refusal};
use crate::location::NOWHERE;
use crate::names::check_names;
use crate::requirement::require;
use json_shapes::{
    has, is_list, is_list_at, is_object_or_list, list_under, members, read_json, values_in,
};
use policy_model::{DocumentList, GuardList, List, PolicySet};
use serde_json::Value;
use std::alloc::Global;

/// The most guards of a set.
pub const MOST_GUARDS: usize = 16;

// Whether each of the values is a list.
fn are_lists(values: &[Value]) -> bool
    ensures { result ≡ list_all is_list (views values.now) }
{
    for value in values {
        if !is_list(value) {
            return false;
        }
    }
    true
}

// The value has one of the names of a guarded set.
fn is_guarded(value: &Value) -> bool
    ensures { result ≡ is_guarded (view value.now) }
{
    has(value, "Grants") || has(value, "Guards")
}

// The grants and the guards are there, and both are lists, the guards few and lists themselves.
fn check_lists(alloc: Global, value: &Value) -> Result<(), PolicyAnswer>
    ensures read { IsReadOf (list_checks (view value.now)) tt result }
    ensures few { OnOk result (length (guards_in (view value.now)) ≤ MOST_GUARDS) }
{
    let is_there = has(value, "Grants");
    require(
        alloc,
        NOWHERE,
        is_there,
        PolicyCode::P5MissingElement,
        "Grants",
    )?;
    let is_there = has(value, "Guards");
    require(
        alloc,
        NOWHERE,
        is_there,
        PolicyCode::P5MissingElement,
        "Guards",
    )?;
    let fits = is_list_at(value, "Grants");
    require(alloc, NOWHERE, fits, PolicyCode::P4WrongShape, "Grants")?;
    let fits = is_list_at(value, "Guards");
    require(alloc, NOWHERE, fits, PolicyCode::P4WrongShape, "Guards")?;
    let guards = list_under(value, "Guards");
    let are_few = guards.len() <= MOST_GUARDS;
    require(alloc, NOWHERE, are_few, PolicyCode::P17Limit, "Guards")?;
    let fits = are_lists(guards);
    require(alloc, NOWHERE, fits, PolicyCode::P4WrongShape, "Guards")
}

// A guarded set has no other name than these two, and then its lists are as they must be.
fn check_guarded(alloc: Global, value: &Value) -> Result<(), PolicyAnswer>
    ensures read { IsReadOf (guarded_checks (view value.now)) tt result }
    ensures few { OnOk result (length (guards_in (view value.now)) ≤ MOST_GUARDS) }
{
    let names = ["Grants", "Guards"];
    check_names(alloc, NOWHERE, &names, value)?;
    check_lists(alloc, value)
}

// Reads the documents that stand behind so many documents and statements of the set.
fn read_documents(
    alloc: Global,
    counts: &mut Counts,
    values: &[Value],
) -> Result<DocumentList, PolicyAnswer>
    ensures read { AreDocumentsRead counts.old (views values.now) result }
    ensures documents { IfOk result (CountsDocuments counts.old counts.new) }
    ensures statements { OnOk result (CountsStatements counts.old counts.new (views values.now)) }
    ensures sound { IfOk result (All DocumentIsSound) }
{
    let mut documents = List::new(alloc);
    for value in values {
        let document = read_document(alloc, counts.documents + 1, counts.statements, value)?;
        counts.documents += 1;
        counts.statements += document.statements.len();
        documents.push(document)?;
    }
    Ok(documents)
}

// Reads the guards, whose documents stand behind so many documents and statements of the set.
fn read_guards(
    alloc: Global,
    counts: &mut Counts,
    values: &[Value],
) -> Result<GuardList, PolicyAnswer>
    ensures read { AreGuardsRead counts.old (views values.now) result }
    ensures documents { IfOk result (CountsGuards counts.old counts.new) }
    ensures sound { IfOk result (All (λ g. All DocumentIsSound g)) }
{
    let mut guards = List::new(alloc);
    for value in values {
        let documents = read_documents(alloc, counts, values_in(value))?;
        guards.push(documents)?;
    }
    Ok(guards)
}

// Reads the documents of the grants, and then those of the guards.
fn read_parts(alloc: Global, grants: &[Value], guards: &[Value]) -> Result<PolicySet, PolicyAnswer>
    requires { length guards.now ≤ MOST_GUARDS }
    ensures read { AreSetPartsRead (views grants.now) (views guards.now) result }
    ensures sound { IfOk result IsSound }
{
    let mut counts = Counts {
        documents: 0,
        statements: 0,
    };
    let grants = read_documents(alloc, &mut counts, grants)?;
    let guards = read_guards(alloc, &mut counts, guards)?;
    Ok(PolicySet { grants, guards })
}

// Reads a file with grants and guards.
fn read_guarded(alloc: Global, value: &Value) -> Result<PolicySet, PolicyAnswer>
    requires { is_guarded (view value.now) ≡ true }
    ensures read { IsValueRead (view value.now) result }
    ensures sound { IfOk result IsSound }
{
    check_guarded(alloc, value)?;
    let grants = list_under(value, "Grants");
    let guards = list_under(value, "Guards");
    read_parts(alloc, grants, guards)
}

// Reads a file of one document, or of a list of documents.
fn read_plain(alloc: Global, value: &Value) -> Result<PolicySet, PolicyAnswer>
    requires { is_guarded (view value.now) ≡ false }
    ensures read { IsValueRead (view value.now) result }
    ensures sound { IfOk result IsSound }
{
    let fits = is_object_or_list(value);
    require(alloc, NOWHERE, fits, PolicyCode::P2SetShape, "")?;
    read_parts(alloc, members(value), &[])
}

// Reads the bytes as a JSON value.
fn read_value(alloc: Global, bytes: &[u8]) -> Result<Value, PolicyAnswer>
    ensures ok { IfOk result (λ v. json_of bytes.now ≡ Some (view v)) }
    ensures err { IfErr result (λ e. IsSetOf bytes.now (Err e)) }
{
    match read_json(alloc, bytes)? {
        Some(value) => Ok(value),
        None => Err(refusal(alloc, NOWHERE, PolicyCode::P1NotJson, "")),
    }
}

/// The set of policies that a file stands for: one document, a list of documents, or an object with
/// `Grants` and `Guards`. The set is sound. `Refused` with the file's first fault exactly where it has
/// one: first come those of its form, and then document by document those of its head and of its
/// statements in order. `NoMemory` only where there is no memory.
pub fn read_set(alloc: Global, bytes: &[u8]) -> Result<PolicySet, PolicyAnswer>
    ensures value { IsSetOf bytes.now result }
    ensures sound { IfOk result IsSound }
{
    let value = read_value(alloc, bytes)?;
    if is_guarded(&value) {
        read_guarded(alloc, &value)
    } else {
        read_plain(alloc, &value)
    }
}
