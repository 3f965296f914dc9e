//! Budgets of a search, and what it decides.
use formula_tree::Path;
use policy_model::{Request, Slot};
use refute_check::Refutation;
use std::rc::Rc;
use wildcard_lang::TextList;

/// How much a search may do.
#[derive(Clone, Copy)]
pub struct Budgets {
    /// The most splits on a test.
    pub splits: u32,
    /// The most product states of a slot's patterns.
    pub states: u32,
}

/// A slot whose patterns have more product states than there may be.
#[derive(Drop)]
pub struct Wide {
    /// The path of answered tests at which they do.
    pub path: Path,
    pub slot: Slot,
    /// One more text than the number of states, with pairwise different product states.
    pub texts: TextList,
}

/// What a search decides of a query.
#[derive(Drop)]
pub enum Decided {
    /// No valid request makes the query yes.
    Refuted(Rc<Refutation>),
    /// A valid request that makes the query yes.
    Met(Request),
    /// The plain run needs more splits, and so does the propagated run.
    OutOfSplits,
    /// A slot needs more states.
    OutOfStates(Wide),
}
