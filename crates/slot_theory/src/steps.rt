//! What the steps of a search come to.
use crate::outcome::{Core, KindProof, SlotProof, SlotValue};
use policy_model::Value;
use wildcard_lang::TextList;

/// What a value for a core comes to.
#[derive(Drop)]
pub enum Attempt {
    /// There is none.
    Empty(SlotProof),
    /// There are too many product states.
    Full(TextList),
    /// It answers all tests of the slot as the path does.
    Right(SlotValue),
    /// It answers this test otherwise.
    Wrong(u32),
}

/// What a principal of one kind for a core comes to.
#[derive(Drop)]
pub enum KindAttempt {
    /// There is none of the kind.
    Empty(KindProof),
    /// What the whole attempt comes to.
    Whole(Attempt),
}

/// A core with its proof.
#[derive(Drop)]
pub struct Kept {
    pub core: Core,
    pub proof: SlotProof,
}

/// A guess: the one value of a key that answers its tests, or tests that no value answers.
#[derive(Drop)]
pub enum Proposal {
    Value(Value),
    Tests(Core),
}
