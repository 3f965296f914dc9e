//! Proofs of slots that are kept once, however many refutations they stand in.
ghost use Rattle.std.specs.Prelude.{◌≡◌, [], IfOk, IfSome, IsTrue};

use indexmap::IndexMap;
use pattern_automata::{Closed, State};
use plain_lists::NoMemory;
use slot_theory::{KindProof, SlotProof};
use std::alloc::Global;
use std::marker::Model;
use std::rc::Rc;

/// The most words that kept proofs take.
pub const MOST_SHARED_WORDS: usize = 16_777_216;

/// Proofs of slots, each kept once, while there is room.
#[derive(Drop)]
pub struct SharedProofs {
    /// By a guess at which are equal.
    kept: IndexMap<u64, Rc<SlotProof>>,
    /// How many words more may be kept.
    room: usize,
}

impl Model for SharedProofs {
    ghost use Rattle.std.specs.Prelude.{List, map};
    ghost use Rattle.std.specs.Coded.{codes};
    ghost use Rattle.slot_theory.specs.contracts.outcome.SlotProof as proof_row;
    ghost use Rattle.slot_theory.specs.declared.outcome.SlotProof.{SlotProof};

    ghost Value = { List SlotProof };

    ghost coded = { Prim.hlevel (codes, proof_row.the_row.coded) };

    ghost view = { λ s. map (λ e. e.1.value) s.kept.entries };
}

/// A proof that may stand in several refutations, and whether it is among the kept ones.
#[derive(Drop)]
pub struct SharedProof {
    pub proof: Rc<SlotProof>,
    pub kept: bool,
}

// A guess at which proofs are equal, and how many words one takes.
#[derive(Clone, Copy)]
struct Print {
    hash: u64,
    words: usize,
}

impl SharedProofs {
    /// No proof. It takes no memory.
    pub fn new(alloc: Global) -> SharedProofs
        ensures { result ≡ [] }
    {
        SharedProofs {
            kept: IndexMap::new(alloc),
            room: MOST_SHARED_WORDS,
        }
    }

    /// The proof, shared with an equal one that was kept before.
    ///
    /// The only error is want of memory.
    pub fn share(&mut self, alloc: Global, proof: SlotProof) -> Result<SharedProof, NoMemory>
        ensures { IfOk result (λ shared. shared.proof.value ≡ proof) }
    {
        let print = print_of(&proof);
        if let Some(proof) = self.known(print.hash, &proof)? {
            return Ok(SharedProof { proof, kept: true });
        }
        let proof = Rc::new(alloc, proof)?;
        let kept = self.keep(print, &proof)?;
        Ok(SharedProof { proof, kept })
    }

    // The kept proof that is equal to this one, if the guess finds it.
    fn known(&self, hash: u64, proof: &SlotProof) -> Result<Option<Rc<SlotProof>>, NoMemory>
        ensures { IfOk result (λ known. IfSome known (λ r. r.value ≡ proof.now)) }
    {
        let Some(kept) = self.kept.get(&hash) else {
            return Ok(None);
        };
        if !are_equal(kept, proof) {
            return Ok(None);
        }
        Ok(Some(kept.clone()?))
    }

    // Keeps the proof, where there is room.
    fn keep(&mut self, print: Print, proof: &Rc<SlotProof>) -> Result<bool, NoMemory> {
        if print.words > self.room {
            return Ok(false);
        }
        self.kept.insert(print.hash, proof.clone()?)?;
        self.room -= print.words;
        Ok(true)
    }
}

/// A guess with one word more.
pub(crate) fn mixed(guess: u64, word: u32) -> u64 {
    (guess ^ u64::from(word)).wrapping_mul(1_099_511_628_211)
}

impl Print {
    // Takes in one word more.
    fn with(self, word: u32) -> Print {
        Print {
            hash: mixed(self.hash, word),
            words: self.words.saturating_add(1),
        }
    }
}

fn print_of_state(before: Print, state: &State<'_>) -> Print {
    let mut print = before;
    for i in 0..state.len() {
        print = print_of_places(print, state.get(i)).with(u32::MAX);
    }
    print
}

fn print_of_places(before: Print, places: &[u32]) -> Print {
    let mut print = before;
    for place in places {
        print = print.with(*place);
    }
    print
}

fn print_of_set(before: Print, closed: &Closed) -> Print {
    let mut print = before;
    for i in 0..closed.len() {
        print = print_of_state(print, &closed.get(i)).with(u32::MAX);
    }
    print
}

fn print_of_kind(before: Print, proof: &KindProof) -> Print {
    match proof {
        KindProof::Never => before.with(0),
        KindProof::Closed(closed) => print_of_set(before, closed),
    }
}

fn print_of(proof: &SlotProof) -> Print {
    let none = Print { hash: 0, words: 0 };
    match proof {
        SlotProof::Points => none.with(1),
        SlotProof::Absent => none.with(2),
        SlotProof::Required => none.with(3),
        SlotProof::Word(closed) => print_of_set(none.with(4), closed),
        SlotProof::Kinds(aws, service, federated, canonical_user) => {
            let two = print_of_kind(print_of_kind(none.with(5), aws), service);
            print_of_kind(print_of_kind(two, federated), canonical_user)
        }
        SlotProof::Member(test, closed) => print_of_set(none.with(6).with(*test), closed),
        SlotProof::SomeMember(closed) => print_of_set(none.with(7), closed),
    }
}

fn are_states_equal(one: &State<'_>, other: &State<'_>) -> bool
    ensures { IsTrue result → one.now ≡ other.now }
{
    if one.len() != other.len() {
        return false;
    }
    'lists: for i in 0..one.len() {
        if one.get(i) != other.get(i) {
            return false;
        }
    }
    true
}

fn are_sets_equal(one: &Closed, other: &Closed) -> bool
    ensures { IsTrue result → one.now ≡ other.now }
{
    if one.len() != other.len() {
        return false;
    }
    'states: for i in 0..one.len() {
        if !are_states_equal(&one.get(i), &other.get(i)) {
            return false;
        }
    }
    true
}

fn are_kinds_equal(one: &KindProof, other: &KindProof) -> bool
    ensures { IsTrue result → one.now ≡ other.now }
{
    match (one, other) {
        (KindProof::Never, KindProof::Never) => true,
        (KindProof::Closed(one), KindProof::Closed(other)) => are_sets_equal(one, other),
        _ => false,
    }
}

pub(crate) fn are_equal(one: &SlotProof, other: &SlotProof) -> bool
    ensures { IsTrue result → one.now ≡ other.now }
{
    match (one, other) {
        (SlotProof::Points, SlotProof::Points) => true,
        (SlotProof::Absent, SlotProof::Absent) => true,
        (SlotProof::Required, SlotProof::Required) => true,
        (SlotProof::Word(one), SlotProof::Word(other)) => are_sets_equal(one, other),
        (SlotProof::Kinds(a, b, c, d), SlotProof::Kinds(e, f, g, h)) => {
            are_kinds_equal(a, e)
                && are_kinds_equal(b, f)
                && are_kinds_equal(c, g)
                && are_kinds_equal(d, h)
        }
        (SlotProof::Member(a, one), SlotProof::Member(b, other)) => a == b
            && are_sets_equal(one, other),
        (SlotProof::SomeMember(one), SlotProof::SomeMember(other)) => are_sets_equal(one, other),
        _ => false,
    }
}
