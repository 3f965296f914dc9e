//! Reads the principals of a statement.
ghost use Rattle.std.specs.Prelude.{◌≡◌, ◌++◌, IfOk, OnOk, Some, None, if◌then◌else◌};
ghost use Rattle.std.specs.List.{flat_map};
ghost use Rattle.serde_json.specs.View.{view, members_view};
ghost use Rattle.policy_model.specs.Soundness.{PrincipalIsSound};
ghost use Rattle.json_shapes.specs.Json.{pairs_of, views};
ghost use Rattle.json_shapes.specs.Shapes.{is_among};
ghost use Rattle.policy_json.specs.Principals.{AddsKind, AreEntriesRead, AreKindsRead, IsIdRead, IsKindRead, IsStarRead, account_of, account_or_exact, entries_at, entry_of, has_wildcard, id_checks, is_star_id, kind_names, kind_of};
ghost use Rattle.policy_json.specs.Statements.{IsWhoRead};
ghost use Rattle.json_shapes.specs.Checks.{IsReadOf};

use crate::accounts::account_of;
use crate::element::{element_of, not_both};
use crate::fault::{PolicyAnswer, PolicyCode, refusal};
use crate::location::Location;
use json_shapes::{are_strings, members, text_of};
use plain_lists::List;
use policy_model::{Entry, EntryList, Matcher, PrincipalKind};
use serde_json::{Map, Value};
use std::alloc::{AllocError, Global};
use wildcard_lang::{MOST_PIECES, Text};

// The kind of a name, or none where the language has no such kind.
fn kind_of(name: &str) -> Option<PrincipalKind>
    ensures { result ≡ (if is_among kind_names name.now then Some (kind_of name.now) else None) }
{
    match name {
        "AWS" => Some(PrincipalKind::Aws),
        "CanonicalUser" => Some(PrincipalKind::CanonicalUser),
        "Federated" => Some(PrincipalKind::Federated),
        "Service" => Some(PrincipalKind::Service),
        _ => None,
    }
}

// Whether the id is `*` alone.
fn is_star(id: &[char]) -> bool
    ensures { result ≡ is_star_id id.now }
{
    match id {
        ['*'] => true,
        _ => false,
    }
}

// Whether a wildcard stands in the id.
fn has_wildcard(id: &[char]) -> bool
    ensures { result ≡ has_wildcard id.now }
{
    id.iter().any(|c| *c == '*' || *c == '?')
}

// The entry of an `AWS` id that isn't `*`.
fn account_or_exact(alloc: Global, id: Text) -> Result<Entry, AllocError>
    ensures { IfOk result (λ e. e ≡ account_or_exact id (account_of id)) }
{
    match account_of(id.as_slice()) {
        Some(account) => {
            let account = Text::from_chars(Vec::from_slice(alloc, account)?);
            Ok(Entry::Account(account))
        }
        None => Ok(Entry::Exact(PrincipalKind::Aws, id)),
    }
}

// The entry of an id under a kind.
fn entry_of(alloc: Global, kind: PrincipalKind, id: Text) -> Result<Entry, AllocError>
    ensures { IfOk result (λ e. e ≡ entry_of kind id) }
{
    let is_star = is_star(id.as_slice());
    match kind {
        PrincipalKind::Aws if is_star => Ok(Entry::All),
        PrincipalKind::Aws => account_or_exact(alloc, id),
        _ if is_star => Ok(Entry::Kind(kind)),
        _ => Ok(Entry::Exact(kind, id)),
    }
}

// The entry of one id.
fn read_id(
    alloc: Global,
    location: Location,
    name: &str,
    kind: PrincipalKind,
    value: &Value,
) -> Result<Entry, PolicyAnswer>
    ensures { IsIdRead location name.now kind (view value.now) result }
{
    let id = Text::of(alloc, text_of(value))?;
    if id.is_empty() {
        return Err(refusal(alloc, location, PolicyCode::P4WrongShape, name));
    }
    if !is_star(id.as_slice()) && has_wildcard(id.as_slice()) {
        return Err(refusal(alloc, location, PolicyCode::P10PrincipalWildcard, name));
    }
    if id.len() > MOST_PIECES {
        return Err(refusal(alloc, location, PolicyCode::P17Limit, name));
    }
    let entry = entry_of(alloc, kind, id)?;
    Ok(entry)
}

// Adds the entries of the ids of one kind.
fn read_ids(
    alloc: Global,
    location: Location,
    name: &str,
    kind: PrincipalKind,
    values: &[Value],
    entries: &mut EntryList,
) -> Result<(), PolicyAnswer>
    ensures read { IsReadOf (flat_map (id_checks location name.now) (views values.now)) tt result }
    ensures added { OnOk result (entries.new ≡ entries.old ++ entries_at kind (views values.now)) }
{
    for value in values {
        let entry = read_id(alloc, location, name, kind, value)?;
        entries.push(entry)?;
    }
    Ok(())
}

// Adds the entries of one member of a principal element.
fn read_kind(
    alloc: Global,
    location: Location,
    name: &str,
    kind_name: &str,
    ids: &Value,
    entries: &mut EntryList,
) -> Result<(), PolicyAnswer>
    ensures read { IsKindRead location name.now (kind_name.now, view ids.now) result }
    ensures added { OnOk result (AddsKind entries.old entries.new (kind_name.now, view ids.now)) }
{
    let Some(kind) = kind_of(kind_name) else {
        return Err(refusal(alloc, location, PolicyCode::P9PrincipalKind, kind_name));
    };
    let values = members(ids);
    if !are_strings(values) {
        return Err(refusal(alloc, location, PolicyCode::P4WrongShape, name));
    }
    read_ids(alloc, location, name, kind, values, entries)
}

// The entries of the members of a principal element.
fn read_kinds(
    alloc: Global,
    location: Location,
    name: &str,
    kinds: &Map<String, Value>,
) -> Result<EntryList, PolicyAnswer>
    ensures { AreKindsRead location name.now (pairs_of (members_view kinds.now.entries)) result }
{
    let mut entries = List::new(alloc);
    for (kind_name, ids) in kinds {
        read_kind(alloc, location, name, kind_name.as_str(), ids, &mut entries)?;
    }
    Ok(entries)
}

// The entry of the string `*`.
fn read_star(
    alloc: Global,
    location: Location,
    name: &str,
    value: &Value,
) -> Result<EntryList, PolicyAnswer>
    ensures { IsStarRead location name.now (view value.now) result }
{
    if value.as_str() != Some("*") {
        return Err(refusal(alloc, location, PolicyCode::P4WrongShape, name));
    }
    let mut entries = List::new(alloc);
    entries.push(Entry::All)?;
    Ok(entries)
}

// The entries of a principal element.
fn read_entries(
    alloc: Global,
    location: Location,
    name: &str,
    value: &Value,
) -> Result<EntryList, PolicyAnswer>
    ensures { AreEntriesRead location name.now (view value.now) result }
{
    match value.as_object() {
        Some(kinds) => read_kinds(alloc, location, name, kinds),
        None => read_star(alloc, location, name, value),
    }
}

/// The principals of a statement, or none where it has no element of principals, or the first fault of
/// these elements.
pub(crate) fn read_who(
    alloc: Global,
    location: Location,
    statement: &Value,
) -> Result<Option<Matcher<Entry>>, PolicyAnswer>
    ensures read { IsWhoRead location (view statement.now) result }
    ensures sound { IfOk result PrincipalIsSound }
{
    not_both(alloc, location, "Principal", "NotPrincipal", statement)?;
    match element_of("Principal", "NotPrincipal", statement) {
        None => Ok(None),
        Some(element) => {
            let items = read_entries(alloc, location, element.name, element.value)?;
            Ok(Some(Matcher {
                not: element.not,
                items,
            }))
        }
    }
}
