//! The statement of a finding.
ghost use Rattle.std.specs.Prelude.{◌≡◌, IfOk, OnOk, option_map};
ghost use Rattle.serde_json.specs.Data.{object, member, no_members};
ghost use Rattle.serde_json.specs.View.{members_view, view};
ghost use Rattle.wildcard_lang.specs.Patterns.{IsPattern};
ghost use Rattle.wildcard_lang.specs.Text.{IsText};
ghost use Rattle.policy_model.specs.Principals.{kind_word};
ghost use Rattle.findings.specs.Findings.{IsFinding};
ghost use Rattle.policy_emit.specs.Emitted.{action_of_finding, emitted_statement, entry_of_finding, resource_of_finding, statement_data};
ghost use Rattle.policy_emit.specs.Written.{action_data, allow_data, block_data, entry_data, id_data, put_if, resource_data, with_elements};
ghost use Rattle.policy_emit.specs.Kept.{EntryIsKept, StatementIsKept};

use crate::conditions::conditions_block;
use crate::part::{Part, predicate_of};
use crate::texts::{action_json, pattern_json, put_at, str_json, text_json};
use findings::Finding;
use plain_lists::NoMemory;
use policy_model::{Entry, PrincipalKind, Schema};
use serde_json::{Map, Value as Json};
use std::alloc::Global;
use strata::{Predicate, Strata};
use wildcard_lang::Text;

// An id as JSON under its kind.
fn under_kind(alloc: Global, kind: PrincipalKind, id: Json) -> Result<Json, NoMemory>
    ensures { IfOk result (λ v. view v ≡ object (member (kind_word kind) (view id) no_members)) }
{
    let mut members = Map::new(alloc);
    put_at(alloc, &mut members, kind.word(), id)?;
    Ok(Json::Object(members))
}

// An id under its kind.
fn id_json(alloc: Global, kind: PrincipalKind, id: &Text) -> Result<Json, NoMemory>
    ensures data { IfOk result (λ v. view v ≡ id_data kind id.now) }
    ensures kept { IsText id.now }
{
    id.len();
    under_kind(alloc, kind, text_json(id)?)
}

// The element of principals that has this entry, or none where it is every principal.
fn entry_json(alloc: Global, entry: &Entry) -> Result<Option<Json>, NoMemory>
    ensures data { IfOk result (λ v. option_map view v ≡ entry_data entry.now) }
    ensures kept { IfOk result (λ _. EntryIsKept entry.now) }
{
    match entry {
        Entry::All => Ok(None),
        Entry::Kind(kind) => Ok(Some(under_kind(alloc, *kind, str_json(alloc, "*")?)?)),
        Entry::Account(account) => Ok(Some(id_json(alloc, PrincipalKind::Aws, account)?)),
        Entry::Exact(kind, id) => Ok(Some(id_json(alloc, *kind, id)?)),
    }
}

// The finding's element of principals.
fn principal_element(
    alloc: Global,
    strata: &Strata,
    finding: &Finding,
) -> Result<Option<Json>, NoMemory>
    requires { IsFinding strata.now.dimensions finding.now }
    ensures data { IfOk result (λ v. option_map view v ≡
        entry_data (entry_of_finding strata.now.dimensions finding.now)) }
    ensures kept { IfOk result (λ _.
        EntryIsKept (entry_of_finding strata.now.dimensions finding.now)) }
{
    match predicate_of(Part::Principal, strata, finding) {
        Some(Predicate::Principal(entry)) => entry_json(alloc, entry),
        _ => Ok(None),
    }
}

// The finding's element of actions.
fn action_element(alloc: Global, strata: &Strata, finding: &Finding) -> Result<Json, NoMemory>
    requires { IsFinding strata.now.dimensions finding.now }
    ensures data { IfOk result (λ v. view v ≡
        action_data (action_of_finding strata.now.dimensions finding.now)) }
    ensures kept { IsPattern (action_of_finding strata.now.dimensions finding.now) }
{
    match predicate_of(Part::Action, strata, finding) {
        Some(Predicate::Word(pattern)) => action_json(alloc, pattern),
        _ => str_json(alloc, "*"),
    }
}

// The finding's element of resources.
fn resource_element(alloc: Global, strata: &Strata, finding: &Finding) -> Result<Json, NoMemory>
    requires { IsFinding strata.now.dimensions finding.now }
    ensures data { IfOk result (λ v. view v ≡
        resource_data (resource_of_finding strata.now.dimensions finding.now)) }
    ensures kept { IsPattern (resource_of_finding strata.now.dimensions finding.now) }
{
    match predicate_of(Part::Resource, strata, finding) {
        Some(Predicate::Word(pattern)) => pattern_json(alloc, pattern),
        _ => str_json(alloc, "*"),
    }
}

// The element of conditions, or none where there are no conditions.
fn block_element(block: Map<String, Json>) -> Option<Json>
    ensures { option_map view result ≡ block_data (members_view block.entries) }
{
    if block.is_empty() {
        return None;
    }
    Some(Json::Object(block))
}

// Puts a value at a name, where there is one.
fn put_if(
    alloc: Global,
    members: &mut Map<String, Json>,
    name: &str,
    value: Option<Json>,
) -> Result<(), NoMemory>
    ensures { OnOk result (members_view members.new.entries ≡
        put_if name.now (option_map view value) (members_view members.old.entries)) }
{
    match value {
        Some(value) => put_at(alloc, members, name, value),
        None => Ok(()),
    }
}

// Puts the elements of an Allow statement at their names.
fn put_elements(
    alloc: Global,
    members: &mut Map<String, Json>,
    action: Json,
    resource: Json,
    condition: Option<Json>,
    principal: Option<Json>,
) -> Result<(), NoMemory>
    ensures { OnOk result (members_view members.new.entries ≡
        with_elements (view action) (option_map view condition) (option_map view principal)
        (view resource) (members_view members.old.entries)) }
{
    put_at(alloc, members, "Action", action)?;
    put_at(alloc, members, "Effect", str_json(alloc, "Allow")?)?;
    put_at(alloc, members, "Resource", resource)?;
    put_if(alloc, members, "Condition", condition)?;
    put_if(alloc, members, "Principal", principal)
}

// An Allow statement of these elements.
fn allow_json(
    alloc: Global,
    action: Json,
    resource: Json,
    condition: Option<Json>,
    principal: Option<Json>,
) -> Result<Json, NoMemory>
    ensures { IfOk result (λ v. view v ≡ allow_data (view action)
        (option_map view condition) (option_map view principal) (view resource)) }
{
    let mut members = Map::new(alloc);
    put_elements(alloc, &mut members, action, resource, condition, principal)?;
    Ok(Json::Object(members))
}

/// The finding's statement as JSON.
pub(crate) fn statement_json(
    alloc: Global,
    schema: &Schema,
    strata: &Strata,
    finding: &Finding,
) -> Result<Json, NoMemory>
    requires { IsFinding strata.now.dimensions finding.now }
    ensures data { IfOk result (λ v. view v ≡
        statement_data schema.now strata.now.dimensions finding.now) }
    ensures kept { IfOk result (λ _. StatementIsKept
        (emitted_statement schema.now strata.now.dimensions finding.now)) }
{
    let action = action_element(alloc, strata, finding)?;
    let resource = resource_element(alloc, strata, finding)?;
    let condition = block_element(conditions_block(alloc, schema, strata, finding)?);
    let principal = principal_element(alloc, strata, finding)?;
    allow_json(alloc, action, resource, condition, principal)
}
