//! The question which value a slot has at a path.
ghost use Rattle.std.specs.Prelude.{◌≤◌};
ghost use Rattle.slot_theory.specs.Askable.{IsAskable, IsAskable-prop};

use formula_tree::Path;
use policy_model::{Schema, Slot, Test};

/// The question which value that the schema permits in the slot answers the slot's tests as the path
/// does.
#[derive(Clone, Copy)]
pub struct Question<'a> {
    pub schema: &'a Schema,
    pub tests: &'a [Test],
    pub path: &'a Path,
    pub slot: &'a Slot,
    /// The most product states that are looked at for some of the tests.
    pub states: u32,
    ghost askable: { IsAskable schema.now tests.now path.now } by { IsAskable-prop schema.now tests.now path.now },
    ghost positive: { 1 ≤ states },
}
