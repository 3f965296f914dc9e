//! Which statement, or which lack of one, decides.
ghost use Rattle.std.specs.Prelude.{◌≤◌, ◌+◌, All, true, false, length, sum_by};
ghost use Rattle.policy_model.specs.Requests.{IsValid};
ghost use Rattle.policy_model.specs.Soundness.{DocumentIsSound, IsSound, SchemaFits};
ghost use Rattle.policy_model.specs.StatementNames.{named_documents, named_guards, named_set, named_statements};
ghost use Rattle.policy_eval.specs.Deciding.{FirstIs, FirstSilentIs, IsDecider};

use crate::eval::{decides, some_decides};
use crate::outcome::Decider;
use policy_model::{Document, DocumentList, PolicySet, Request, Schema, Statement, StatementName};

// The first statement of a document with this effect that applies.
fn first_of_statements(
    schema: &Schema,
    document: u32,
    statements: &[Statement],
    allow: bool,
    request: &Request,
) -> Option<StatementName>
    requires { length statements.now ≤ 4294967295 }
    ensures { FirstIs schema.now allow request.now
        (named_statements document 1 statements.now) result }
{
    for (i, statement) in statements.iter().enumerate() {
        if decides(schema, statement, allow, request) {
            return Some(StatementName {
                document,
                statement: i as u32 + 1,
            });
        }
    }
    None
}

// The first statement of documents with this effect that applies; the first document has this number.
fn first_of_documents(
    schema: &Schema,
    from: usize,
    documents: &[Document],
    allow: bool,
    request: &Request,
) -> Option<StatementName>
    requires room { from + length documents.now ≤ 4294967296 }
    requires sound { All DocumentIsSound documents.now }
    ensures { FirstIs schema.now allow request.now (named_documents from documents.now) result }
{
    for (i, document) in documents.iter().enumerate() {
        let number = (from + i) as u32;
        let first = first_of_statements(
            schema,
            number,
            document.statements.as_slice(),
            allow,
            request,
        );
        if first.is_some() {
            return first;
        }
    }
    None
}

// As above, for guards.
fn first_of_guards(
    schema: &Schema,
    from: usize,
    guards: &[DocumentList],
    allow: bool,
    request: &Request,
) -> Option<StatementName>
    requires room { from + sum_by (λ g. length g) guards.now ≤ 4294967296 }
    requires sound { All (λ g. All DocumentIsSound g) guards.now }
    ensures { FirstIs schema.now allow request.now (named_guards from guards.now) result }
{
    let mut next = from;
    for guard in guards {
        let first = first_of_documents(schema, next, guard.as_slice(), allow, request);
        if first.is_some() {
            return first;
        }
        next += guard.len();
    }
    None
}

// The first Deny statement that applies.
fn first_deny(schema: &Schema, set: &PolicySet, request: &Request) -> Option<StatementName>
    requires { IsSound set.now }
    ensures { FirstIs schema.now false request.now (named_set set.now) result }
{
    let first = first_of_documents(schema, 1, set.grants.as_slice(), false, request);
    if first.is_some() {
        return first;
    }
    first_of_guards(
        schema,
        1 + set.grants.len(),
        set.guards.as_slice(),
        false,
        request,
    )
}

// The first guard without an Allow statement that applies.
fn first_silent(schema: &Schema, guards: &[DocumentList], request: &Request) -> Option<u32>
    requires { length guards.now ≤ 4294967295 }
    ensures { FirstSilentIs schema.now request.now guards.now result }
{
    for (i, guard) in guards.iter().enumerate() {
        if !some_decides(schema, guard, true, request) {
            return Some(i as u32 + 1);
        }
    }
    None
}

/// What decides on the request, the first of these:
///
/// - the first Deny statement that applies;
/// - that no Allow statement of the grants applies;
/// - the first guard without an Allow statement that applies;
/// - the first Allow statement of the grants that applies.
///
/// The schema fits the set, and the request is valid under it. It takes no memory.
pub fn decider(set: &PolicySet, schema: &Schema, request: &Request) -> Decider
    requires fits { SchemaFits schema.now set.now }
    requires valid { IsValid schema.now request.now }
    ensures { IsDecider schema.now set.now request.now result }
{
    if let Some(name) = first_deny(schema, set, request) {
        return Decider::Statement(name);
    }
    let Some(name) = first_of_documents(schema, 1, set.grants.as_slice(), true, request) else {
        return Decider::NoGrant;
    };
    match first_silent(schema, set.guards.as_slice(), request) {
        Some(guard) => Decider::NoGuard(guard),
        None => Decider::Statement(name),
    }
}
