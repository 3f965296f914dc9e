//! Three tests of a slot with their answers.
ghost use Rattle.std.specs.Prelude.{◌≡◌, ◌+◌, ◌∷◌, [], length, All, IfOk, OnOk};
ghost use Rattle.policy_model.specs.Soundness.{EntryIsSound, TestSuits};
ghost use Rattle.policy_model.specs.declared.schema.Schema.{Schema};
ghost use Rattle.slot_theory.specs.Slots.{SlotIsIn};
ghost use Rattle.call_cases.specs.Cases.{AnswersBelow};

use crate::keys::key_test_of;
use formula_tree::Path;
use policy_model::{Entry, PrincipalKind, Schema, Slot, Test, TestList, is_account};
use std::alloc::Global;
use std::io;
use std::io::ErrorKind;
use wildcard_lang::{MOST_PIECES, Pattern, Text, read_glob};

pub(crate) fn slot_named(name: &str) -> io::Result<Slot>
    ensures { IfOk result (λ s. (schema : Schema) → SlotIsIn schema s) }
{
    match name {
        "action" => Ok(Slot::Action),
        "resource" => Ok(Slot::Resource),
        "principal" => Ok(Slot::Principal),
        _ => Err(ErrorKind::InvalidData.into()),
    }
}

fn kind_named(name: &str) -> Option<PrincipalKind> {
    match name {
        "AWS" => Some(PrincipalKind::Aws),
        "Service" => Some(PrincipalKind::Service),
        "Federated" => Some(PrincipalKind::Federated),
        "CanonicalUser" => Some(PrincipalKind::CanonicalUser),
        _ => None,
    }
}

fn exact(alloc: Global, kind: &str, id: &str) -> io::Result<Entry>
    ensures { IfOk result EntryIsSound }
{
    let id = Text::of(alloc, id)?;
    match kind_named(kind) {
        Some(kind) if id.len() <= MOST_PIECES => Ok(Entry::Exact(kind, id)),
        _ => Err(ErrorKind::InvalidData.into()),
    }
}

fn account(alloc: Global, digits: &str) -> io::Result<Entry>
    ensures { IfOk result EntryIsSound }
{
    let account = Text::of(alloc, digits)?;
    if !is_account(account.as_slice()) {
        return Err(ErrorKind::InvalidData.into());
    }
    Ok(Entry::Account(account))
}

fn entry_of(alloc: Global, word: &str) -> io::Result<Entry>
    ensures { IfOk result EntryIsSound }
{
    if word == "*" {
        return Ok(Entry::All);
    }
    if let Some((kind, id)) = word.split_once('=') {
        return exact(alloc, kind, id);
    }
    match kind_named(word) {
        Some(kind) => Ok(Entry::Kind(kind)),
        None => account(alloc, word),
    }
}

fn pattern_of(alloc: Global, word: &str) -> io::Result<Pattern> {
    match read_glob(alloc, word, false, false) {
        Ok(pattern) => Ok(pattern),
        Err(_) => Err(ErrorKind::InvalidData.into()),
    }
}

// The test of a word, of which the first character is its answer.
fn test_of(alloc: Global, slot: &Slot, word: &str) -> io::Result<Test>
    ensures { IfOk result (λ t. (schema : Schema) → TestSuits schema t) }
{
    let word = asked_in(word);
    match slot {
        Slot::Principal => Ok(Test::Principal(entry_of(alloc, word)?)),
        Slot::Action => Ok(Test::Action(pattern_of(alloc, word)?)),
        _ => Ok(Test::Resource(pattern_of(alloc, word)?)),
    }
}

// The list of three tests.
fn three(alloc: Global, first: Test, second: Test, third: Test) -> io::Result<TestList>
    ensures { IfOk result (λ v. v ≡ first ∷ second ∷ third ∷ []) }
{
    let mut tests = TestList::new(alloc);
    tests.push(first)?;
    tests.push(second)?;
    tests.push(third)?;
    Ok(tests)
}

/// The tests of three words.
pub(crate) fn tests_of(alloc: Global, slot: &Slot, words: [&str; 3]) -> io::Result<TestList>
    ensures suit { IfOk result (λ v. (schema : Schema) → All (TestSuits schema) v) }
    ensures count { IfOk result (λ v. length v ≡ 3) }
{
    let first = test_of(alloc, slot, words[0])?;
    let second = test_of(alloc, slot, words[1])?;
    let third = test_of(alloc, slot, words[2])?;
    let tests = three(alloc, first, second, third)?;
    Ok(tests)
}

/// The tests on keys of three words.
pub(crate) fn key_tests_of(alloc: Global, schema: &Schema, words: [&str; 3]) -> io::Result<TestList>
    ensures suit { IfOk result (All (TestSuits schema.now)) }
    ensures count { IfOk result (λ v. length v ≡ 3) }
{
    let first = key_test_of(alloc, schema, asked_in(words[0]))?;
    let second = key_test_of(alloc, schema, asked_in(words[1]))?;
    let third = key_test_of(alloc, schema, asked_in(words[2]))?;
    let tests = three(alloc, first, second, third)?;
    Ok(tests)
}

// The word behind its answer, which is one character.
fn asked_in(word: &str) -> &str {
    let mut rest = word.chars();
    rest.next();
    rest.as_str()
}

// The answer of the word, or its contrary.
fn answer_in(word: &str, contrary: bool) -> Option<bool> {
    if word.starts_with('.') {
        return None;
    }
    Some(word.starts_with('+') != contrary)
}

// Gives the test this answer, where there is one.
fn add_answer(path: &mut Path, n: u32, answer: Option<bool>) -> io::Result<()>
    requires { AnswersBelow path.old n }
    ensures { OnOk result (AnswersBelow path.new (n + 1)) }
{
    match answer {
        None => Ok(()),
        Some(answer) => {
            path.push(n, answer)?;
            Ok(())
        }
    }
}

/// The path that gives three tests the answers of three words, or the contrary ones.
pub(crate) fn path_of(alloc: Global, words: [&str; 3], contrary: bool) -> io::Result<Path>
    ensures { IfOk result (λ p. AnswersBelow p 3) }
{
    let mut path = Path::new(alloc);
    add_answer(&mut path, 0, answer_in(words[0], contrary))?;
    add_answer(&mut path, 1, answer_in(words[1], contrary))?;
    add_answer(&mut path, 2, answer_in(words[2], contrary))?;
    Ok(path)
}

/// Tests with their answers, under a schema.
#[derive(Clone, Copy)]
pub(crate) struct Case<'a> {
    pub(crate) schema: &'a Schema,
    pub(crate) tests: &'a TestList,
    pub(crate) path: &'a Path,
    /// The path of the other answers.
    pub(crate) other: &'a Path,
}
