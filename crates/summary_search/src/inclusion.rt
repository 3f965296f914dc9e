//! Which predicates some valid request meets, and which lie below which: by the relation of their tests, by a
//! sample, or by a product.
ghost use Rattle.std.specs.Prelude.{◌≡◌, ◌≤◌, IfOk, IfSome, IsTrue, MatchOption};
ghost use Rattle.policy_model.specs.Soundness.{SchemaIsSound};
ghost use Rattle.slot_theory.specs.Slots.{SlotIsIn};
ghost use Rattle.test_relations.specs.Relations.{TestLeads};
ghost use Rattle.summary_search.specs.Questions.{IsTestOnSlot, DecidesEscape, opposite_answer};

use crate::questions::{ask_escape, ask_missed, ask_passed};
use plain_lists::NoMemory;
use policy_model::{Schema, Slot, Test};
use request_build::sound_schemas_have_requests;
use std::alloc::Global;
use strata::{Inclusion, Predicate, Within, test_of};
use test_relations::leads;

/// Answers questions on predicates: by products of patterns with at most so many states, where nothing else
/// decides.
#[derive(Drop)]
pub struct ByProducts<'a> {
    schema: &'a Schema,
    states: u32,
    ghost positive: { 1 ≤ states },
}

impl<'a> ByProducts<'a> {
    /// Answers for the schema by products of at most so many states.
    pub fn new(schema: &'a Schema, states: u32) -> ByProducts<'a>
        requires { 1 ≤ states }
        ensures schema { result.schema.now ≡ schema.now }
        ensures states { result.states ≡ states }
    {
        ByProducts { schema, states }
    }
}

// The answer to the contrary question.
fn opposite_answer(answer: Within) -> Within
    ensures { result ≡ opposite_answer answer }
{
    match answer {
        Within::Yes => Within::No,
        Within::No => Within::Yes,
        Within::TooMany(texts) => Within::TooMany(texts),
    }
}

// Whether each valid request that passes the one test, where one is given, passes the other by their relation.
fn is_led_to(schema: &Schema, one: &Option<Test>, other: &Test) -> bool
    ensures { IsTrue result → MatchOption one.now ⊥ (λ t. TestLeads schema.now t other.now) }
{
    match one {
        Some(test) => leads(schema, test, other),
        None => false,
    }
}

// Whether some valid request passes the one test, where one is given, and not the other.
fn escapes(
    alloc: Global,
    schema: &Schema,
    slot: &Slot,
    one: Option<Test>,
    other: Test,
    states: u32,
) -> Result<Within, NoMemory>
    requires sound { SchemaIsSound schema.now }
    requires slot { SlotIsIn schema.now slot.now }
    requires one_suits { IfSome one (IsTestOnSlot schema.now slot.now) }
    requires other_suits { IsTestOnSlot schema.now slot.now other }
    requires positive { 1 ≤ states }
    ensures { IfOk result (DecidesEscape schema.now slot.now states one other) }
{
    match one {
        Some(test) => ask_escape(alloc, schema, slot, test, other, states),
        None => ask_missed(alloc, schema, slot, other, states),
    }
}

impl<'a> Inclusion for ByProducts<'a> {
    ghost schema = { λ by. by.schema.now };

    ghost states = { λ by. by.states };

    fn met(&mut self, alloc: Global, slot: &Slot, one: &Predicate) -> Result<Within, NoMemory> {
        sound_schemas_have_requests();
        match test_of(slot, one)? {
            Some(test) => ask_passed(alloc, self.schema, slot, test, self.states),
            None => Ok(Within::Yes),
        }
    }

    fn within(
        &mut self,
        alloc: Global,
        slot: &Slot,
        one: &Predicate,
        other: &Predicate,
    ) -> Result<Within, NoMemory> {
        let Some(test) = test_of(slot, other)? else {
            return Ok(Within::Yes);
        };
        let first = test_of(slot, one)?;
        if is_led_to(self.schema, &first, &test) {
            return Ok(Within::Yes);
        }
        let escaped = escapes(alloc, self.schema, slot, first, test, self.states)?;
        Ok(opposite_answer(escaped))
    }
}
