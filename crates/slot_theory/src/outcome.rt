//! Values of slots, cores, and what a search for a value answers.
ghost use Rattle.std.specs.Prelude.{◌≡◌, IfOk};

use pattern_automata::Closed;
use plain_lists::{EqualClone, List, NoMemory};
use policy_model::{PrincipalKind, ValueList};
use wildcard_lang::{Text, TextList};

/// A value of a slot.
#[derive(Drop)]
pub enum SlotValue {
    /// The kind and the id of a principal.
    Principal(PrincipalKind, Text),
    /// An action or a resource.
    Word(Text),
    /// The values of a key. The empty list stands for an absent key.
    Values(ValueList),
}

impl SlotValue {
    /// An equal value.
    pub fn copy(&self) -> Result<SlotValue, NoMemory>
        ensures { IfOk result (λ v. v ≡ self.now) }
    {
        match self {
            SlotValue::Principal(kind, id) => Ok(SlotValue::Principal(*kind, id.copy()?)),
            SlotValue::Word(text) => Ok(SlotValue::Word(text.copy()?)),
            SlotValue::Values(values) => Ok(SlotValue::Values(values.copy()?)),
        }
    }
}

/// Why no principal of one kind answers the tests of a core as a path does.
#[derive(Drop)]
pub enum KindProof {
    /// Some test of the core has one answer for all principals of the kind, and the path has the other
    /// one.
    Never,
    /// No id does: a closed set of product states for the patterns of the core's tests on which the
    /// answer depends on the id.
    Closed(Closed),
}

/// Why the tests of a core can't be answered as a path answers them.
#[derive(Drop)]
pub enum SlotProof {
    /// No values of a key do, which aren't texts. The check decides that itself.
    Points,
    /// The key is to be absent, and another test of the core is answered yes.
    Absent,
    /// The key is to be absent, and it is required.
    Required,
    /// No word does, or no text of a key that has at most one value: a closed set of product states
    /// for the core's patterns.
    Word(Closed),
    /// No principal does: of the kinds `Aws`, `Service`, `Federated` and `CanonicalUser`, in this
    /// order.
    Kinds(KindProof, KindProof, KindProof, KindProof),
    /// No text of a key with several values can be the member for this test of the core, which is
    /// answered yes: a closed set for its patterns and those of the tests that are answered no.
    Member(u32, Closed),
    /// No text can be a member of a required key with several values: a closed set for the patterns
    /// of the tests that are answered no.
    SomeMember(Closed),
}

/// Test numbers, in strictly rising order.
pub type Core = List<u32>;

/// What a search for a value of a slot answers.
#[derive(Drop)]
pub enum Possible {
    /// A value that answers the slot's tests as the path does.
    Found(SlotValue),
    /// Tests of the slot that no value answers as the path does.
    Conflict(Core, SlotProof),
    /// One more text than the number of states, with pairwise different product states.
    TooMany(TextList),
}
