//! Nodes in the order of their numbers.
ghost use Rattle.std.specs.Prelude.{◌≡◌, [], length};
ghost use Rattle.formula_nodes.specs.Standing.{node_trees};

use crate::claim::ClaimList;
use indexmap::IndexSet;
use std::alloc::Global;
use std::marker::Model;

/// A test or a conjunction.
#[derive(Drop, PartialEq, Eq, Hash)]
pub(crate) enum Node {
    /// The test of this number.
    Test(u32),
    /// Holds where each claim does, so also where there is none.
    All(ClaimList),
}

/// Formulas by their numbers, from 0; equal ones have one number. What contracts say of them rests on
/// `node_trees` alone: the trees that they stand for, in the order of their numbers.
#[derive(Drop)]
pub struct Nodes {
    pub(crate) alloc: Global,
    pub(crate) nodes: IndexSet<Node>,
}

impl Model for Nodes {
    ghost use Rattle.std.specs.Prelude.{List};
    ghost use Rattle.formula_nodes.specs.declared.nodes.Node.{Node};
    ghost use Rattle.formula_nodes.specs.Standing.{AreOverEarlier};

    ghost Value = { List Node };

    ghost view = { λ n. n.nodes.keys };

    ghost invariant = { λ n. AreOverEarlier n.nodes.keys };
}

impl Nodes {
    /// No nodes. It takes no memory.
    pub fn new(alloc: Global) -> Nodes
        ensures { node_trees result ≡ [] }
    {
        Nodes {
            alloc,
            nodes: IndexSet::new(alloc),
        }
    }

    /// How many nodes there are.
    pub fn len(&self) -> usize
        ensures { result ≡ length (node_trees self.now) }
    {
        self.nodes.len()
    }
}
