//! Formulas over numbered tests. Contracts see a formula as the plain tree that it stands for, so two
//! formulas that share their parts in different ways and stand for one tree are equal for them.
ghost use Rattle.std.specs.Prelude.{◌≡◌, ◌++◌, ◌∷◌, [], length, map, OnOk, OnErr, option_map, slice_get};
ghost use Rattle.formula_tree.specs.Trees.{branch_tree, tree_of, trees_of};

use plain_lists::NoMemory;
use std::alloc::Global;
use std::rc::Rc;

/// A formula over tests that are numbered from 0.
#[cycle(formula)]
#[derive(Drop)]
pub enum Formula {
    /// Always holds.
    Yes,
    /// Never holds.
    No,
    /// Holds where the test of this number is answered yes.
    Test(u32),
    /// Holds where the inner formula doesn't.
    Not(Rc<Formula>),
    /// Holds where each branch does, so also where there is none.
    All(Branches),
    /// Holds where some branch does.
    OneOf(Branches),
}

/// A list of shared formulas, which grows at its end. It keeps its allocator.
#[cycle(formula)]
#[derive(Drop)]
pub struct Branches {
    pub(crate) items: Vec<Branch>,
}

#[cycle(formula)]
#[derive(Drop)]
pub(crate) struct Branch {
    pub(crate) formula: Rc<Formula>,
}

impl Branches {
    /// The empty list. It takes no memory.
    pub fn new(alloc: Global) -> Branches
        ensures { trees_of result ≡ [] }
    {
        Branches {
            items: Vec::new(alloc),
        }
    }

    /// How many branches there are.
    pub fn len(&self) -> usize
        ensures { result ≡ length (trees_of self.now) }
    {
        self.items.len()
    }

    fn as_slice(&self) -> &[Branch]
        ensures { map branch_tree result.now ≡ trees_of self.now }
    {
        self.items.as_slice()
    }

    /// The branch at an index, counted from 0, or none where the list has no such index.
    pub fn get(&self, i: usize) -> Option<&Rc<Formula>>
        ensures { option_map (λ r. tree_of r.now.value) result ≡ slice_get (trees_of self.now) i }
    {
        let branches = self.as_slice();
        if i < branches.len() {
            Some(&branches[i].formula)
        } else {
            None
        }
    }

    /// Adds a branch at the end. Where there is no memory the list stays as it was, and the branch
    /// is dropped.
    pub fn push(&mut self, one: Rc<Formula>) -> Result<(), NoMemory>
        ensures ok { OnOk result (trees_of self.new ≡ trees_of self.old ++ tree_of one.value ∷ []) }
        ensures err { OnErr result (trees_of self.new ≡ trees_of self.old) }
    {
        self.items.push(Branch { formula: one })?;
        Ok(())
    }
}
