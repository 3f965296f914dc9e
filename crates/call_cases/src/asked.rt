//! The answer to a question, and what is accepted of it.
ghost use Rattle.std.specs.Prelude.{◌≡◌, ◌≤◌, All, IfOk, length};
ghost use Rattle.policy_model.specs.Soundness.{SchemaIsSound, TestSuits};
ghost use Rattle.slot_theory.specs.Possible.{PathInRange};
ghost use Rattle.slot_theory.specs.Slots.{SlotIsIn};
ghost use Rattle.call_cases.specs.Cases.{IsCase};

use crate::cases::{Case, key_tests_of, path_of, slot_named, tests_of};
use crate::schemas::{key_schema_of, schema_of};
use formula_tree::Path;
use pattern_automata::LastClosed;
use policy_model::{Schema, Slot, TestList};
use slot_theory::{
    Core, KindProof, Possible, SlotProof, SlotValue, accepts, is_on, meets, possible,
};
use std::alloc::Global;
use std::io;
use std::io::ErrorKind;
use wildcard_lang::Text;

// Whether the value gives the test of the number its answer, where that is on the slot.
fn is_answered(case: &Case, slot: &Slot, value: &SlotValue, n: u32, answer: bool) -> bool {
    match case.tests.get(n as usize) {
        Some(test) => !is_on(slot, test) || meets(value, test) == answer,
        None => true,
    }
}

// Whether the value gives each test of the slot its answer.
fn answers(case: &Case, slot: &Slot, value: &SlotValue) -> bool {
    for (n, answer) in case.path.as_slice() {
        if !is_answered(case, slot, value, *n, *answer) {
            return false;
        }
    }
    true
}

fn word(holds: bool) -> &'static str {
    if holds { "yes" } else { "no" }
}

// The core without its last test.
fn shorter(alloc: Global, core: &Core) -> io::Result<Core> {
    let mut numbers = Vec::from_slice(alloc, core.as_slice())?;
    numbers.pop();
    Ok(Core::from_vec(numbers))
}

fn name_of(proof: &SlotProof) -> &'static str {
    match proof {
        SlotProof::Points => "points",
        SlotProof::Absent => "absent",
        SlotProof::Required => "required",
        SlotProof::Word(_) => "word",
        SlotProof::Kinds(_, _, _, _) => "kinds",
        SlotProof::Member(_, _) => "member",
        SlotProof::SomeMember(_) => "some",
    }
}

fn accepted(
    alloc: Global,
    case: &Case,
    path: &Path,
    core: &Core,
    proof: &SlotProof,
) -> io::Result<&'static str>
    requires case { IsCase case.now }
    requires range { PathInRange case.now.tests.now path.now }
{
    let accepted = accepts(alloc, case.schema, case.tests, path, core, proof)?;
    Ok(word(accepted))
}

// Whether the core is accepted without its last test.
fn accepted_shorter(
    alloc: Global,
    case: &Case,
    core: &Core,
    proof: &SlotProof,
) -> io::Result<&'static str>
    requires { IsCase case.now }
{
    let shorter = shorter(alloc, core)?;
    accepted(alloc, case, case.path, &shorter, proof)
}

// Whether the core is accepted by fixed answers alone.
fn accepted_by_nothing(alloc: Global, case: &Case, core: &Core) -> io::Result<&'static str>
    requires { IsCase case.now }
{
    let never = SlotProof::Kinds(
        KindProof::Never,
        KindProof::Never,
        KindProof::Never,
        KindProof::Never,
    );
    accepted(alloc, case, case.path, core, &never)
}

// Adds the kind of the proof, the numbers of the core's tests, and what is accepted.
fn push_core(
    text: &mut String,
    core: &Core,
    proof: &SlotProof,
    accepted: &[&str],
) -> io::Result<()> {
    text.push_str(name_of(proof))?;
    for n in core.as_slice() {
        write!(text, " {n}")?;
    }
    text.push(':')?;
    push_words(text, accepted)
}

// Adds words, each behind a blank.
fn push_words(text: &mut String, words: &[&str]) -> io::Result<()> {
    for word in words {
        write!(text, " {word}")?;
    }
    Ok(())
}

// The core, whether it is accepted, and whether what differs from it in one thing is.
fn judged(alloc: Global, case: &Case, core: &Core, proof: &SlotProof) -> io::Result<String>
    requires { IsCase case.now }
{
    let own = accepted(alloc, case, case.path, core, proof)?;
    let other = accepted(alloc, case, case.other, core, proof)?;
    let fewer = accepted_shorter(alloc, case, core, proof)?;
    let fixed = accepted_by_nothing(alloc, case, core)?;
    let mut text = String::new(alloc);
    push_core(&mut text, core, proof, &[own, other, fewer, fixed])?;
    Ok(text)
}

// Whether the value gives the path's answers.
fn found(alloc: Global, case: &Case, slot: &Slot, value: &SlotValue) -> io::Result<String> {
    let right = word(answers(case, slot, value));
    Ok(format!(in alloc; "found: {right}")?)
}

fn answer_of(alloc: Global, case: &Case, slot: &Slot, answer: &Possible) -> io::Result<String>
    requires { IsCase case.now }
{
    match answer {
        Possible::Found(value) => found(alloc, case, slot, value),
        Possible::Conflict(core, proof) => judged(alloc, case, core, proof),
        Possible::TooMany(texts) => {
            let count = texts.len();
            Ok(format!(in alloc; "{count} texts")?)
        }
    }
}

fn asked(alloc: Global, case: &Case, slot: &Slot, states: u32) -> io::Result<String>
    requires case { IsCase case.now }
    requires slot { SlotIsIn case.now.schema.now slot.now }
    requires positive { 1 ≤ states }
{
    let mut last_closed = LastClosed::new(alloc);
    let answer = possible(
        case.schema,
        case.tests,
        case.path,
        slot,
        states,
        &mut last_closed,
    )?;
    answer_of(alloc, case, slot, &answer)
}

fn asked_word(alloc: Global, case: &Case, slot: &Slot, states: &str) -> io::Result<String>
    requires case { IsCase case.now }
    requires slot { SlotIsIn case.now.schema.now slot.now }
{
    match states.parse::<u32>() {
        Ok(states) if states > 0 => asked(alloc, case, slot, states),
        _ => Err(ErrorKind::InvalidData.into()),
    }
}

// The answer to tests, of which three words have the answers.
fn asked_of_tests(
    alloc: Global,
    schema: &Schema,
    tests: &TestList,
    slot: &Slot,
    states: &str,
    words: [&str; 3],
) -> io::Result<String>
    requires sound { SchemaIsSound schema.now }
    requires suit { All (TestSuits schema.now) tests.now }
    requires count { length tests.now ≡ 3 }
    requires slot { SlotIsIn schema.now slot.now }
{
    let path = path_of(alloc, words, false)?;
    let other = path_of(alloc, words, true)?;
    let case = Case {
        schema,
        tests,
        path: &path,
        other: &other,
    };
    asked_word(alloc, &case, slot, states)
}

fn asked_of_slot(
    alloc: Global,
    schema: &Schema,
    slot: &Slot,
    states: &str,
    words: [&str; 3],
) -> io::Result<String>
    requires sound { SchemaIsSound schema.now }
    requires slot { SlotIsIn schema.now slot.now }
{
    let tests = tests_of(alloc, slot, words)?;
    asked_of_tests(alloc, schema, &tests, slot, states, words)
}

/// The answer to a question.
pub(crate) fn answer_to_question(
    alloc: Global,
    slot: &str,
    shape: &str,
    states: &str,
    words: [&str; 3],
) -> io::Result<String> {
    let slot = slot_named(slot)?;
    let schema = schema_of(alloc, shape)?;
    asked_of_slot(alloc, &schema, &slot, states, words)
}

/// The slot of the key `k`.
pub(crate) fn key_slot(alloc: Global, schema: &Schema) -> io::Result<Slot>
    ensures { IfOk result (SlotIsIn schema.now) }
{
    let key = Text::of(alloc, "k")?;
    if schema.get(&key).is_none() {
        return Err(ErrorKind::InvalidData.into());
    }
    Ok(Slot::Key(key))
}

fn asked_of_key(
    alloc: Global,
    schema: &Schema,
    slot: &Slot,
    states: &str,
    words: [&str; 3],
) -> io::Result<String>
    requires sound { SchemaIsSound schema.now }
    requires slot { SlotIsIn schema.now slot.now }
{
    let tests = key_tests_of(alloc, schema, words)?;
    asked_of_tests(alloc, schema, &tests, slot, states, words)
}

/// The answer to a question on the key `k`.
pub(crate) fn answer_on_key(
    alloc: Global,
    rule: [&str; 3],
    states: &str,
    words: [&str; 3],
) -> io::Result<String> {
    let schema = key_schema_of(alloc, rule)?;
    let slot = key_slot(alloc, &schema)?;
    asked_of_key(alloc, &schema, &slot, states, words)
}
