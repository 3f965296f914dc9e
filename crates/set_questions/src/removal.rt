//! A set without one of its statements.
ghost use Rattle.std.specs.Prelude.{◌≡◌, ◌++◌, ◌∷◌, [], IfOk, OnOk, if◌then◌else◌, nat_eq};
ghost use Rattle.set_questions.specs.Idle.{IsNameIn};
ghost use Rattle.set_questions.specs.Removal.{document_without, documents_without, guards_without, without_statement, without_item};

use plain_lists::{EqualClone, List, NoMemory};
use policy_model::{
    Document, DocumentList, GuardList, PolicySet, Statement, StatementList, StatementName,
};
use std::alloc::Global;

// Adds the statement, where it isn't the one.
fn add_other(kept: &mut StatementList, is_one: bool, statement: &Statement) -> Result<(), NoMemory>
    ensures { OnOk result (kept.new ≡ kept.old ++ (if is_one then [] else statement.now ∷ [])) }
{
    if is_one {
        return Ok(());
    }
    kept.push(statement.copy()?)?;
    Ok(())
}

// The statements without that of this number.
fn statements_without(
    alloc: Global,
    number: usize,
    statements: &[Statement],
) -> Result<StatementList, NoMemory>
    ensures { IfOk result (λ kept. kept ≡ without_item number statements.now) }
{
    let mut kept = List::new(alloc);
    let mut left = number;
    for statement in statements {
        add_other(&mut kept, left == 1, statement)?;
        left = left.saturating_sub(1);
    }
    Ok(kept)
}

// The document, without the statement of this number where it is the one.
fn document_kept(
    alloc: Global,
    is_one: bool,
    number: usize,
    document: &Document,
) -> Result<Document, NoMemory>
    ensures { IfOk result (λ kept. kept ≡
        (if is_one then document_without number document.now else document.now)) }
{
    if !is_one {
        let copy = document.copy()?;
        return Ok(copy);
    }
    let statements = statements_without(alloc, number, document.statements.as_slice())?;
    Ok(Document { statements })
}

// The documents, without the statement of this number in the document of this number.
fn documents_without(
    alloc: Global,
    document: usize,
    statement: usize,
    documents: &[Document],
) -> Result<DocumentList, NoMemory>
    ensures { IfOk result (λ kept. kept ≡ documents_without document statement documents.now) }
{
    let mut kept = List::new(alloc);
    let mut left = document;
    for one in documents {
        kept.push(document_kept(alloc, left == 1, statement, one)?)?;
        left = left.saturating_sub(1);
    }
    Ok(kept)
}

// As above, for guards.
fn guards_without(
    alloc: Global,
    document: usize,
    statement: usize,
    guards: &[DocumentList],
) -> Result<GuardList, NoMemory>
    ensures { IfOk result (λ kept. kept ≡ guards_without document statement guards.now) }
{
    let mut kept = List::new(alloc);
    let mut left = document;
    for guard in guards {
        kept.push(documents_without(alloc, left, statement, guard.as_slice())?)?;
        left = left.saturating_sub(guard.len());
    }
    Ok(kept)
}

/// The set without the statement of this name. Its documents and guards stay, also where they are empty:
/// an empty guard allows nothing. The only error is want of memory.
pub fn without(alloc: Global, set: &PolicySet, name: StatementName) -> Result<PolicySet, NoMemory>
    requires { IsNameIn set.now name }
    ensures { IfOk result (λ kept. kept ≡ without_statement set.now name) }
{
    let document = name.document as usize;
    let statement = name.statement as usize;
    let grants = documents_without(alloc, document, statement, set.grants.as_slice())?;
    let left = document.saturating_sub(set.grants.len());
    let guards = guards_without(alloc, left, statement, set.guards.as_slice())?;
    Ok(PolicySet { grants, guards })
}
