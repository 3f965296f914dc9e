//! Writes certificates.
ghost use Rattle.std.specs.Prelude.{◌≡◌, ◌++◌, ◌∷◌, [], if◌then◌else◌, IfOk, OnOk, decimal, map, string_bytes};
ghost use Rattle.std.specs.List.{flat_map, join_with_byte};
ghost use Rattle.refute_check.specs.Proofs.{proof_of};
ghost use Rattle.proof_text.specs.Laws.{AreListsSmall, ArePlacesSmall, AreSmall, HoldsSmallNumbers, IsKindSmall, IsSlotSmall};
ghost use Rattle.proof_text.specs.Lines.{answer_part, label_line, line_text, places_line, places_part};
ghost use Rattle.proof_text.specs.Spelling.{closed_lines, kind_lines, node_lines, slot_lines, certificate_text};

use itoa::Buffer;
use pattern_automata::{Closed, State};
use plain_lists::NoMemory;
use refute_check::Refutation;
use slot_theory::{KindProof, SlotProof};
use std::alloc::Global;

// A number in decimal digits.
fn put_number(text: &mut String, number: u64) -> Result<(), NoMemory>
    ensures { OnOk result (string_bytes text.new ≡ string_bytes text.old ++ decimal number) }
{
    let mut buffer = Buffer::new();
    text.push_str(buffer.format(number))
}

// A line of a word alone.
fn put_alone(text: &mut String, word: &str) -> Result<(), NoMemory>
    ensures { OnOk result (string_bytes text.new ≡ string_bytes text.old ++ (word.now ++ 10 ∷ [])) }
{
    text.push_str(word)?;
    text.push_str("\n")
}

// A line of a word and a number.
fn put_with_number(text: &mut String, word: &str, number: u64) -> Result<(), NoMemory>
    ensures { OnOk result (string_bytes text.new ≡
        string_bytes text.old ++ ((word.now ++ 32 ∷ decimal number) ++ 10 ∷ [])) }
{
    text.push_str(word)?;
    text.push_str(" ")?;
    put_number(text, number)?;
    text.push_str("\n")
}

// The numbers, each behind what divides them.
fn put_numbers(text: &mut String, between: &str, numbers: &[u32]) -> Result<(), NoMemory>
    ensures text { OnOk result (string_bytes text.new ≡
        string_bytes text.old ++ flat_map (λ n. between.now ++ decimal n) numbers.now) }
    ensures small { OnOk result (AreSmall numbers.now) }
{
    for number in numbers {
        text.push_str(between)?;
        put_number(text, u64::from(*number))?;
    }
    Ok(())
}

// A line of a word and numbers.
fn put_with_numbers(text: &mut String, word: &str, numbers: &[u32]) -> Result<(), NoMemory>
    ensures text { OnOk result (string_bytes text.new ≡ string_bytes text.old ++
        (join_with_byte 32 (word.now ∷ map decimal numbers.now) ++ 10 ∷ [])) }
    ensures small { OnOk result (AreSmall numbers.now) }
{
    text.push_str(word)?;
    put_numbers(text, " ", numbers)?;
    text.push_str("\n")?;
    Ok(())
}

// The places of one pattern.
fn put_places(text: &mut String, places: &[u32]) -> Result<(), NoMemory>
    ensures text { OnOk result
        (string_bytes text.new ≡ string_bytes text.old ++ places_part places.now) }
    ensures small { OnOk result (AreSmall places.now) }
{
    let Some((first, others)) = places.split_first() else {
        return text.push_str("-");
    };
    put_number(text, u64::from(*first))?;
    put_numbers(text, ",", others)?;
    Ok(())
}

// The places of each pattern, behind a space each.
fn put_parts(text: &mut String, state: &State<'_>) -> Result<(), NoMemory>
    ensures text { OnOk result (string_bytes text.new ≡
        string_bytes text.old ++ flat_map (λ places. 32 ∷ places_part places) state.now) }
    ensures small { OnOk result (AreListsSmall state.now) }
{
    for i in 0..state.len() {
        text.push_str(" ")?;
        put_places(text, state.get(i))?;
    }
    Ok(())
}

// A product state.
fn put_state(text: &mut String, state: &State<'_>) -> Result<(), NoMemory>
    ensures text { OnOk result (string_bytes text.new ≡
        string_bytes text.old ++ line_text (places_line state.now)) }
    ensures small { OnOk result (AreListsSmall state.now) }
{
    text.push_str("places")?;
    put_parts(text, state)?;
    text.push_str("\n")?;
    Ok(())
}

// The product states, a line each.
fn put_states(text: &mut String, closed: &Closed) -> Result<(), NoMemory>
    ensures text { OnOk result (string_bytes text.new ≡
        string_bytes text.old ++ flat_map (λ lists. line_text (places_line lists)) closed.now) }
    ensures small { OnOk result (ArePlacesSmall closed.now) }
{
    for i in 0..closed.len() {
        let state = closed.get(i);
        put_state(text, &state)?;
    }
    Ok(())
}

// A closed set.
fn put_closed(text: &mut String, closed: &Closed) -> Result<(), NoMemory>
    ensures text { OnOk result (string_bytes text.new ≡
        string_bytes text.old ++ flat_map line_text (closed_lines closed.now)) }
    ensures small { OnOk result (ArePlacesSmall closed.now) }
{
    put_with_number(text, "closed", closed.len() as u64)?;
    put_states(text, closed)?;
    Ok(())
}

// The proof for one kind of principals.
fn put_kind(text: &mut String, proof: &KindProof) -> Result<(), NoMemory>
    ensures text { OnOk result (string_bytes text.new ≡
        string_bytes text.old ++ flat_map line_text (kind_lines proof.now)) }
    ensures small { OnOk result (IsKindSmall proof.now) }
{
    match proof {
        KindProof::Never => put_alone(text, "never"),
        KindProof::Closed(closed) => put_closed(text, closed),
    }
}

// The proof for a slot.
fn put_slot_proof(text: &mut String, proof: &SlotProof) -> Result<(), NoMemory>
    ensures text { OnOk result (string_bytes text.new ≡
        string_bytes text.old ++ flat_map line_text (slot_lines proof.now)) }
    ensures small { OnOk result (IsSlotSmall proof.now) }
{
    match proof {
        SlotProof::Points => put_alone(text, "points"),
        SlotProof::Absent => put_alone(text, "absent"),
        SlotProof::Required => put_alone(text, "required"),
        SlotProof::Word(closed) => put_closed(text, closed),
        SlotProof::Kinds(aws, service, federated, canonical_user) => {
            put_alone(text, "kinds")?;
            put_kind(text, aws)?;
            put_kind(text, service)?;
            put_kind(text, federated)?;
            put_kind(text, canonical_user)
        }
        SlotProof::Member(test, closed) => {
            put_with_number(text, "member", u64::from(*test))?;
            put_closed(text, closed)
        }
        SlotProof::SomeMember(closed) => {
            put_alone(text, "some")?;
            put_closed(text, closed)
        }
    }
}

// What stands in front of a test that is answered so.
fn sign(yes: bool) -> &'static str
    ensures { result.now ≡ 32 ∷ (if yes then 43 else 45) ∷ [] }
{
    if yes { " +" } else { " -" }
}

// Answers to tests, each behind a space.
fn put_answers(text: &mut String, answers: &[(u32, bool)]) -> Result<(), NoMemory>
    ensures { OnOk result (string_bytes text.new ≡
        string_bytes text.old ++ flat_map (λ p. 32 ∷ answer_part p) answers.now) }
{
    for (test, yes) in answers {
        text.push_str(sign(*yes))?;
        put_number(text, u64::from(*test))?;
    }
    Ok(())
}

// A line of a label.
fn put_label(text: &mut String, number: u32, answers: &[(u32, bool)]) -> Result<(), NoMemory>
    ensures { OnOk result (string_bytes text.new ≡
        string_bytes text.old ++ line_text (label_line number answers.now)) }
{
    text.push_str("label ")?;
    put_number(text, u64::from(number))?;
    put_answers(text, answers)?;
    text.push_str("\n")?;
    Ok(())
}

// A node with all that is below it.
fn put_node(text: &mut String, node: &Refutation) -> Result<(), NoMemory>
    ensures text { OnOk result (string_bytes text.new ≡
        string_bytes text.old ++ flat_map line_text (node_lines (proof_of node.now))) }
    ensures small { OnOk result (HoldsSmallNumbers (proof_of node.now)) }
{
    match node {
        Refutation::Split { test, yes, no } => {
            put_with_number(text, "split", u64::from(*test))?;
            put_node(text, yes)?;
            put_node(text, no)
        }
        Refutation::ByValue => put_alone(text, "value"),
        Refutation::BySlot { core, proof } => {
            put_with_numbers(text, "slot", core.as_slice())?;
            put_slot_proof(text, proof)
        }
        Refutation::ByClauses { hints } => put_with_numbers(text, "clauses", hints.as_slice()),
        Refutation::Label {
            number,
            answers,
            inner,
        } => {
            put_label(text, *number, answers.as_slice())?;
            put_node(text, inner)
        }
        Refutation::Reuse { number } => put_with_number(text, "reuse", u64::from(*number)),
    }
}

/// The certificate of the refutation, in the format of this number: a line for each node, in reading
/// order, with what its proof needs behind it. The only error is want of memory.
///
/// `small`: no place, hint or number of a label in the refutation is above 4,294,967,295, as its type
/// has it. So the certificate of a refutation that closes a query has no fault
/// (`closing_proofs_have_no_fault`), up to 67,108,864 bytes.
pub fn write_proof(alloc: Global, refutation: &Refutation, version: u32) -> Result<String, NoMemory>
    ensures text { IfOk result
        (λ s. string_bytes s ≡ certificate_text version (proof_of refutation.now)) }
    ensures small { IfOk result (λ s. HoldsSmallNumbers (proof_of refutation.now)) }
{
    let mut text = String::new(alloc);
    put_with_number(&mut text, "certificate", u64::from(version))?;
    put_node(&mut text, refutation)?;
    Ok(text)
}
