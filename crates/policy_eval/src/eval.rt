//! What a set allows (IAM JSON policy reference, evaluation logic).
ghost use Rattle.std.specs.Prelude.{◌↔◌, IsTrue, All, Any, true, false};
ghost use Rattle.wildcard_lang.specs.Matching.{Matches};
ghost use Rattle.policy_model.specs.Principals.{EntryHolds};
ghost use Rattle.policy_model.specs.Requests.{IsValid};
ghost use Rattle.policy_model.specs.Soundness.{SchemaFits};
ghost use Rattle.policy_model.specs.Sets.{Allows, Applies, Decides, MatcherHolds, OptionalHolds, SomeDecides};

use crate::conditions::conditions_hold;
use policy_model::{
    Document, DocumentList, Entry, GuardList, Matcher, PolicySet, Request, Schema, Statement,
    entry_holds,
};
use wildcard_lang::{Pattern, Text, matches};

fn entries_hold(matcher: &Matcher<Entry>, request: &Request) -> bool
    ensures { IsTrue result ↔ MatcherHolds (EntryHolds request.now) matcher.now }
{
    let some = matcher
        .items
        .as_slice()
        .iter()
        .any(|entry| entry_holds(entry, request));
    some != matcher.not
}

fn patterns_hold(matcher: &Matcher<Pattern>, text: &Text) -> bool
    ensures { IsTrue result ↔ MatcherHolds (λ p. Matches p text.now) matcher.now }
{
    let some = matcher
        .items
        .as_slice()
        .iter()
        .any(|pattern| matches(pattern, text));
    some != matcher.not
}

fn principal_holds(matcher: &Option<Matcher<Entry>>, request: &Request) -> bool
    ensures { IsTrue result ↔ OptionalHolds (EntryHolds request.now) matcher.now }
{
    match matcher {
        None => true,
        Some(matcher) => entries_hold(matcher, request),
    }
}

fn resource_holds(matcher: &Option<Matcher<Pattern>>, text: &Text) -> bool
    ensures { IsTrue result ↔ OptionalHolds (λ p. Matches p text.now) matcher.now }
{
    match matcher {
        None => true,
        Some(matcher) => patterns_hold(matcher, text),
    }
}

fn applies(schema: &Schema, statement: &Statement, request: &Request) -> bool
    ensures { IsTrue result ↔ Applies schema.now statement.now request.now }
{
    if !principal_holds(&statement.principal, request) {
        return false;
    }
    if !patterns_hold(&statement.action, &request.action) {
        return false;
    }
    if !resource_holds(&statement.resource, &request.resource) {
        return false;
    }
    conditions_hold(schema, &statement.conditions, request)
}

// Whether the statement has this effect and applies.
pub(crate) fn decides(
    schema: &Schema,
    statement: &Statement,
    allow: bool,
    request: &Request,
) -> bool
    ensures { IsTrue result ↔ Decides schema.now allow request.now statement.now }
{
    statement.allow == allow && applies(schema, statement, request)
}

fn document_decides(schema: &Schema, document: &Document, allow: bool, request: &Request) -> bool
    ensures { IsTrue result ↔ Any (Decides schema.now allow request.now) document.now.statements }
{
    document
        .statements
        .as_slice()
        .iter()
        .any(|statement| decides(schema, statement, allow, request))
}

// Whether some statement of the documents has this effect and applies.
pub(crate) fn some_decides(
    schema: &Schema,
    documents: &DocumentList,
    allow: bool,
    request: &Request,
) -> bool
    ensures { IsTrue result ↔ SomeDecides schema.now allow request.now documents.now }
{
    documents.as_slice().iter().any(|document| document_decides(schema, document, allow, request))
}

fn guards_allow(schema: &Schema, guards: &[DocumentList], request: &Request) -> bool
    ensures { IsTrue result ↔ All (SomeDecides schema.now true request.now) guards.now }
{
    for guard in guards {
        if !some_decides(schema, guard, true, request) {
            return false;
        }
    }
    true
}

fn guards_deny(schema: &Schema, guards: &GuardList, request: &Request) -> bool
    ensures { IsTrue result ↔ Any (SomeDecides schema.now false request.now) guards.now }
{
    guards
        .as_slice()
        .iter()
        .any(|guard| some_decides(schema, guard, false, request))
}

/// Whether the set allows the request: some Allow statement of the grants applies, each guard has an
/// Allow statement that applies, and no Deny statement of the grants or of a guard applies.
///
/// The schema fits the set, and the request is valid under it. It takes no memory.
pub fn allows(set: &PolicySet, schema: &Schema, request: &Request) -> bool
    requires fits { SchemaFits schema.now set.now }
    requires valid { IsValid schema.now request.now }
    ensures { IsTrue result ↔ Allows schema.now set.now request.now }
{
    if !some_decides(schema, &set.grants, true, request) {
        return false;
    }
    if !guards_allow(schema, set.guards.as_slice(), request) {
        return false;
    }
    if guards_deny(schema, &set.guards, request) {
        return false;
    }
    !some_decides(schema, &set.grants, false, request)
}
