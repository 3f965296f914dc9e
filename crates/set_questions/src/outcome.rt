//! What is answered on statements.
use findings::Wide;
use plain_lists::List;
use policy_model::Request;
use refute_check::Refutation;
use std::alloc::AllocError;
use std::rc::Rc;

/// What a statement does to what its set allows.
#[derive(Drop)]
pub enum Use {
    /// A valid request that the set allows with the statement or without it, and not both.
    Used(Request),
    /// Without the statement, all others left as they are, the set allows the same valid requests; with a refutation
    /// of the change query.
    Idle(Rc<Refutation>),
    /// The change query needs more splits.
    OutOfSplits,
    /// A slot of the change query needs more states.
    OutOfStates(Wide),
}

/// The uses of a set's statements, in reading order.
pub type UseList = List<Use>;

/// Why there are none.
#[derive(Clone, Copy)]
pub enum UseFault {
    /// The set's query has more than 1,000 different tests.
    TooManyTests,
    /// The patterns of its tests have more than 65,536 pieces together.
    TooManyPieces,
    /// There was no memory.
    NoMemory,
}

impl From<AllocError> for UseFault {
    ghost use Rattle.std.specs.Prelude.{◌≡◌};
    ghost use Rattle.set_questions.specs.declared.outcome.UseFault.TheVariants.{NoMemory};

    ghost from_gives = { λ _ e. e ≡ NoMemory };

    fn from(_: AllocError) -> Self {
        UseFault::NoMemory
    }
}
