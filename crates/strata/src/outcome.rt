//! Why there are no strata.
use policy_model::Slot;
use std::alloc::AllocError;
use wildcard_lang::TextList;

/// Why there are no strata.
#[derive(Drop)]
pub enum StrataFault {
    /// In the dimension of this index, the first such one, more predicates are named than there may be,
    /// `Every` among them.
    TooManyPredicates(u32),
    /// Two predicates of the slot take too many product states: one more text than the number of
    /// states, no two of which have the same product state of the patterns of these two.
    Wide(Slot, TextList),
    /// There was no memory.
    NoMemory,
}

impl From<AllocError> for StrataFault {
    ghost use Rattle.std.specs.Prelude.{◌≡◌};
    ghost use Rattle.strata.specs.declared.outcome.StrataFault.TheVariants.{NoMemory};

    ghost from_gives = { λ _ e. e ≡ NoMemory };

    fn from(_: AllocError) -> Self {
        StrataFault::NoMemory
    }
}
