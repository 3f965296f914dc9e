//! Queries, and why there is none.
use formula_tree::Formula;
use policy_model::TestList;
use std::alloc::AllocError;
use std::rc::Rc;

/// A tree over numbered tests, with the tests in the order of their numbers.
#[derive(Drop)]
pub struct Query {
    pub formula: Rc<Formula>,
    pub tests: TestList,
}

/// Why there is no query.
#[derive(Clone, Copy)]
pub enum QueryFault {
    /// There are more than 1,000 different tests.
    TooManyTests,
    /// The patterns of the tests have more than 65,536 pieces together.
    TooManyPieces,
    /// There was no memory.
    NoMemory,
}

impl From<AllocError> for QueryFault {
    ghost use Rattle.std.specs.Prelude.{◌≡◌};
    ghost use Rattle.policy_compile.specs.declared.outcome.QueryFault.TheVariants.{NoMemory};

    ghost from_gives = { λ _ e. e ≡ NoMemory };

    fn from(_: AllocError) -> Self {
        QueryFault::NoMemory
    }
}
