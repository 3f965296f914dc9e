//! Who answers which predicates are met and which lie below which.
ghost use Rattle.std.specs.Prelude.{◌≡◌, ℕ, IfOk};
ghost use Rattle.policy_model.specs.declared.schema.Schema.{Schema};
ghost use Rattle.strata.specs.Asking.{AnswersMet, AnswersWithin, IsAskedIn};
ghost use Rattle.strata.specs.Predicates.{SuitsSlot};

use crate::predicate::Predicate;
use plain_lists::NoMemory;
use policy_model::Slot;
use std::alloc::Global;
use wildcard_lang::TextList;

/// The answer to a question on predicates.
#[derive(Drop)]
pub enum Within {
    Yes,
    No,
    /// It takes too many product states: one more text than the number of states, no two of which have
    /// the same product state of the patterns that are asked.
    TooMany(TextList),
}

/// Answers questions on the valid requests that meet predicates of a slot.
pub trait Inclusion {
    /// The schema that it answers for. It never changes.
    ghost schema: { Self → Schema };

    /// The most product states that it looks at. The number never changes.
    ghost states: { Self → ℕ };

    /// Whether some valid request meets the predicate. The only error is want of memory.
    fn met(&mut self, alloc: Global, slot: &Slot, one: &Predicate) -> Result<Within, NoMemory>
        requires slot { IsAskedIn (schema self.old) slot.now }
        requires one { SuitsSlot (schema self.old) slot.now one.now }
        ensures answer { IfOk result
            (AnswersMet (schema self.old) (states self.old) slot.now one.now) }
        ensures schema { schema self.new ≡ schema self.old }
        ensures states { states self.new ≡ states self.old };

    /// Whether every valid request that meets the one meets the other. The only error is want of memory.
    fn within(
        &mut self,
        alloc: Global,
        slot: &Slot,
        one: &Predicate,
        other: &Predicate,
    ) -> Result<Within, NoMemory>
        requires slot { IsAskedIn (schema self.old) slot.now }
        requires one { SuitsSlot (schema self.old) slot.now one.now }
        requires other { SuitsSlot (schema self.old) slot.now other.now }
        ensures answer { IfOk result
            (AnswersWithin (schema self.old) (states self.old) slot.now one.now other.now) }
        ensures schema { schema self.new ≡ schema self.old }
        ensures states { states self.new ≡ states self.old };
}
