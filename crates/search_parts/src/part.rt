//! Refuted parts of a search.
use formula_tree::Path;
use refute_check::Refutation;
use std::rc::Rc;

/// What a refuted part needs of its path.
#[derive(Drop)]
pub enum Needs {
    /// It closes under exactly those answers of the path that have these.
    Just(Path),
    /// The tree's value closes it. Several least lists of answers may do.
    Open,
    /// It is a split that came after the last one that was learned.
    Unknown,
}

/// A part of a refutation, whose labels have the numbers of their answers in the order of learning.
#[derive(Drop)]
pub struct Part {
    pub refutation: Rc<Refutation>,
    pub needs: Needs,
}

/// The two sides of a split.
#[derive(Drop)]
pub struct Halves {
    pub test: u32,
    pub yes: Part,
    pub no: Part,
}
