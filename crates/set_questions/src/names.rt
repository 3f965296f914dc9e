//! The names of a set's statements.
ghost use Rattle.std.specs.Prelude.{◌≡◌, ◌≤◌, ◌+◌, ◌++◌, ◌∷◌, [], All, IfOk, OnOk, Some, false, if◌then◌else◌, length, map, slice_get, sum_by, true};
ghost use Rattle.std.specs.Option.{option_copied};
ghost use Rattle.policy_model.specs.Soundness.{DocumentIsSound, IsSound};
ghost use Rattle.policy_model.specs.StatementNames.{named_documents, named_guards, named_set, named_statements};
ghost use Rattle.set_questions.specs.Idle.{IsNameIn, EachNamed};
ghost use Rattle.set_questions.specs.Requirements.{required_names, guard_names, has_effect, names_with};
ghost use Rattle.set_questions.specs.SetDocuments.{guard_documents, set_documents};

use plain_lists::{List, NoMemory};
use policy_model::{Document, DocumentList, PolicySet, Statement, StatementName};
use std::alloc::Global;

/// A list of names of statements.
pub type NameList = List<StatementName>;

// Whether the statement has the effect, where one is asked for.
fn has_effect(effect: Option<bool>, allow: bool) -> bool
    ensures { result ≡ has_effect effect allow }
{
    match effect {
        None => true,
        Some(true) => allow,
        Some(false) => !allow,
    }
}

fn add_if(names: &mut NameList, is_wanted: bool, name: StatementName) -> Result<(), NoMemory>
    ensures { OnOk result (names.new ≡ names.old ++ (if is_wanted then name ∷ [] else [])) }
{
    if !is_wanted {
        return Ok(());
    }
    names.push(name)?;
    Ok(())
}

// Adds the names of a document's statements that have the effect.
fn add_statements(
    names: &mut NameList,
    document: u32,
    effect: Option<bool>,
    statements: &[Statement],
) -> Result<(), NoMemory>
    requires { length statements.now ≤ 4294967295 }
    ensures { OnOk result (names.new ≡
        names.old ++ names_with effect (named_statements document 1 statements.now)) }
{
    for i in 0..statements.len() {
        let name = StatementName {
            document,
            statement: i as u32 + 1,
        };
        add_if(names, has_effect(effect, statements[i].allow), name)?;
    }
    Ok(())
}

// Adds the names of documents. The first document has this number.
fn add_documents(
    names: &mut NameList,
    from: usize,
    effect: Option<bool>,
    documents: &[Document],
) -> Result<(), NoMemory>
    requires room { from + length documents.now ≤ 4294967296 }
    requires sound { All DocumentIsSound documents.now }
    ensures { OnOk result (names.new ≡
        names.old ++ names_with effect (named_documents from documents.now)) }
{
    for (i, document) in documents.iter().enumerate() {
        add_statements(
            names,
            (from + i) as u32,
            effect,
            document.statements.as_slice(),
        )?;
    }
    Ok(())
}

// Adds the names of guards. The first document has this number.
fn add_guards(
    names: &mut NameList,
    from: usize,
    effect: Option<bool>,
    guards: &[DocumentList],
) -> Result<(), NoMemory>
    requires room { from + sum_by (λ g. length g) guards.now ≤ 4294967296 }
    requires sound { All (λ g. All DocumentIsSound g) guards.now }
    ensures { OnOk result (names.new ≡
        names.old ++ names_with effect (named_guards from guards.now)) }
{
    let mut next = from;
    for guard in guards {
        add_documents(names, next, effect, guard.as_slice())?;
        next += guard.len();
    }
    Ok(())
}

// The names of the set's statements that have the effect, in reading order.
fn names_with(alloc: Global, effect: Option<bool>, set: &PolicySet) -> Result<NameList, NoMemory>
    requires { IsSound set.now }
    ensures { IfOk result (λ names. names ≡ names_with effect (named_set set.now)) }
{
    let mut names = List::new(alloc);
    add_documents(&mut names, 1, effect, set.grants.as_slice())?;
    add_guards(
        &mut names,
        1 + set.grants.len(),
        effect,
        set.guards.as_slice(),
    )?;
    Ok(names)
}

/// The names of the set's statements, in reading order. The only error is want of memory.
pub fn names_of(alloc: Global, set: &PolicySet) -> Result<NameList, NoMemory>
    requires { IsSound set.now }
    ensures { IfOk result (λ names. names ≡ map (λ n. n.0) (named_set set.now)) }
{
    names_with(alloc, None, set)
}

// The names of the Allow statements of documents, of which the first has this number.
fn allow_names(alloc: Global, from: usize, documents: &[Document]) -> Result<NameList, NoMemory>
    requires room { from + length documents.now ≤ 4294967296 }
    requires sound { All DocumentIsSound documents.now }
    ensures { IfOk result (λ names. names ≡
        names_with (Some true) (named_documents from documents.now)) }
{
    let mut names = List::new(alloc);
    add_documents(&mut names, from, Some(true), documents)?;
    Ok(names)
}

// Adds the names of each guard's Allow statements.
fn add_allow_names(
    alloc: Global,
    found: &mut List<NameList>,
    from: usize,
    guards: &[DocumentList],
) -> Result<(), NoMemory>
    requires room { from + sum_by (λ g. length g) guards.now ≤ 4294967296 }
    requires sound { All (λ g. All DocumentIsSound g) guards.now }
    ensures { OnOk result (found.new ≡ found.old ++ guard_names from guards.now) }
{
    let mut next = from;
    for guard in guards {
        found.push(allow_names(alloc, next, guard.as_slice())?)?;
        next += guard.len();
    }
    Ok(())
}

/// The names of the statements of each of the things that the set asks. The only error is want of memory.
pub(crate) fn required_names(alloc: Global, set: &PolicySet) -> Result<List<NameList>, NoMemory>
    requires { IsSound set.now }
    ensures { IfOk result (λ names. names ≡ required_names set.now) }
{
    let mut found = List::new(alloc);
    found.push(allow_names(alloc, 1, set.grants.as_slice())?)?;
    add_allow_names(
        alloc,
        &mut found,
        1 + set.grants.len(),
        set.guards.as_slice(),
    )?;
    found.push(names_with(alloc, Some(false), set)?)?;
    Ok(found)
}

// The document of guards at this index, where they have so many.
fn guard_document(guards: &[DocumentList], index: usize) -> Option<&Document>
    ensures { option_copied result ≡ slice_get (guard_documents guards.now) index }
{
    let mut left = index;
    for guard in guards {
        if left < guard.len() {
            return guard.get(left);
        }
        left -= guard.len();
    }
    None
}

// The document of the set at this index, where it has so many.
fn document_at(set: &PolicySet, index: usize) -> Option<&Document>
    ensures { option_copied result ≡ slice_get (set_documents set.now) index }
{
    if index < set.grants.len() {
        return set.grants.get(index);
    }
    guard_document(set.guards.as_slice(), index - set.grants.len())
}

/// The statement of this name.
pub fn named_statement(set: &PolicySet, name: StatementName) -> &Statement
    requires { IsNameIn set.now name }
    ensures { EachNamed set.now name (λ s. result.now ≡ s) }
{
    let Some(document) = document_at(set, name.document as usize - 1) else {
        unreachable!()
    };
    match document.statements.get(name.statement as usize - 1) {
        Some(statement) => statement,
        None => unreachable!(),
    }
}

/// Whether the statement of this name is an Allow, and not a Deny.
pub fn is_allow(set: &PolicySet, name: StatementName) -> bool
    requires { IsNameIn set.now name }
    ensures { EachNamed set.now name (λ s. result ≡ s.allow) }
{
    named_statement(set, name).allow
}
