//! Sets as text: `=` stands before the items of an element, and `!=` before those of a Not element.
use crate::conditions::push_condition;
use policy_model::{Document, Entry, Matcher, PolicySet, PrincipalKind, Statement};
use std::alloc::{AllocError, Global};
use wildcard_lang::{Pattern, Text, write_pattern};

/// Adds the characters.
pub(crate) fn push_text(out: &mut String, text: &Text) -> Result<(), AllocError> {
    for c in text.as_slice() {
        out.push(*c)?;
    }
    Ok(())
}

fn kind_name(kind: PrincipalKind) -> &'static str {
    match kind {
        PrincipalKind::Aws => "AWS:",
        PrincipalKind::Service => "Service:",
        PrincipalKind::Federated => "Federated:",
        PrincipalKind::CanonicalUser => "CanonicalUser:",
    }
}

fn push_entry(out: &mut String, entry: &Entry) -> Result<(), AllocError> {
    match entry {
        Entry::All => out.push('*'),
        Entry::Kind(kind) => {
            out.push_str(kind_name(*kind))?;
            out.push('*')
        }
        Entry::Account(account) => {
            out.push_str("account:")?;
            push_text(out, account)
        }
        Entry::Exact(kind, id) => {
            out.push_str(kind_name(*kind))?;
            push_text(out, id)
        }
    }
}

fn push_pattern(alloc: Global, out: &mut String, pattern: &Pattern) -> Result<(), AllocError> {
    let written = write_pattern(alloc, pattern)?;
    push_text(out, &written)
}

fn push_not(out: &mut String, name: &str, not: bool) -> Result<(), AllocError> {
    out.push_str(name)?;
    out.push_str(if not { "!=" } else { "=" })
}

fn push_entries(out: &mut String, entries: &Matcher<Entry>) -> Result<(), AllocError> {
    push_not(out, " who", entries.not)?;
    for entry in entries.items.as_slice() {
        push_entry(out, entry)?;
        out.push(',')?;
    }
    Ok(())
}

fn push_patterns(
    alloc: Global,
    out: &mut String,
    name: &str,
    patterns: &Matcher<Pattern>,
) -> Result<(), AllocError> {
    push_not(out, name, patterns.not)?;
    for pattern in patterns.items.as_slice() {
        push_pattern(alloc, out, pattern)?;
        out.push(',')?;
    }
    Ok(())
}

fn push_statement(
    alloc: Global,
    out: &mut String,
    statement: &Statement,
) -> Result<(), AllocError> {
    out.push_str(if statement.allow { "Allow" } else { "Deny" })?;
    if let Some(entries) = &statement.principal {
        push_entries(out, entries)?;
    }
    push_patterns(alloc, out, " action", &statement.action)?;
    if let Some(patterns) = &statement.resource {
        push_patterns(alloc, out, " resource", patterns)?;
    }
    for condition in statement.conditions.as_slice() {
        push_condition(alloc, out, condition)?;
    }
    Ok(())
}

fn push_document(alloc: Global, out: &mut String, document: &Document) -> Result<(), AllocError> {
    out.push('[')?;
    for statement in document.statements.as_slice() {
        push_statement(alloc, out, statement)?;
        out.push(';')?;
    }
    out.push(']')
}

fn push_documents(
    alloc: Global,
    out: &mut String,
    documents: &[Document],
) -> Result<(), AllocError> {
    for document in documents {
        push_document(alloc, out, document)?;
    }
    Ok(())
}

/// Adds the documents of the grants, and behind a bar those of each guard.
pub(crate) fn push_set(alloc: Global, out: &mut String, set: &PolicySet) -> Result<(), AllocError> {
    out.push_str("grants ")?;
    push_documents(alloc, out, set.grants.as_slice())?;
    for guard in set.guards.as_slice() {
        out.push_str(" | ")?;
        push_documents(alloc, out, guard.as_slice())?;
    }
    Ok(())
}
