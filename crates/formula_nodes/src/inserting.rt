//! New nodes.
ghost use Rattle.std.specs.Prelude.{◌≡◌, ◌<◌, All, IfOk, Some, length, slice_get, true};
ghost use Rattle.formula_tree.specs.Trees as tree;
ghost use Rattle.formula_nodes.specs.Claims.{AddsNoTest, AddsTestsOf, AreClaimsOf, Grows, IsClaimFor, IsClaimOfEach};
ghost use Rattle.formula_nodes.specs.Standing.{inner_claims, node_trees};
ghost use Rattle.formula_nodes.specs.Steps.{IsNodeClaim, IsWithNode};

use crate::claim::{Claim, ClaimList};
use crate::nodes::{Node, Nodes};
use plain_lists::NoMemory;
use std::alloc::AllocError;

// The claim that the node at the index holds.
fn claim_at(index: usize) -> Result<Claim, NoMemory>
    ensures { IfOk result (λ c. (c.node ≡ index) × (c.holds ≡ true)) }
{
    match u32::try_from(index) {
        Ok(node) => Ok(Claim { node, holds: true }),
        Err(_) => Err(AllocError),
    }
}

impl Nodes {
    // The index of the node. One that is new stands behind the others.
    fn put(&mut self, node: Node) -> Result<usize, NoMemory>
        requires { All (λ c. c.node < length self.old) (inner_claims node) }
        ensures with { IsWithNode self.old self.new node }
        ensures at { IfOk result (λ i. slice_get self.new i ≡ Some node) }
        ensures earlier { IfOk result (λ i. All (λ c. c.node < i) (inner_claims node)) }
    {
        let (index, _) = self.nodes.insert_full(node)?;
        Ok(index)
    }

    fn insert(&mut self, node: Node) -> Result<Claim, NoMemory>
        requires { All (λ c. c.node < length self.old) (inner_claims node) }
        ensures with { IsWithNode self.old self.new node }
        ensures at { IfOk result (IsNodeClaim self.new node) }
    {
        let index = self.put(node)?;
        claim_at(index)
    }

    // The claim that the test is answered yes.
    pub(crate) fn insert_test(&mut self, test: u32) -> Result<Claim, NoMemory>
        ensures grows { Grows (node_trees self.old) (node_trees self.new) }
        ensures tests { AddsTestsOf (tree.test test) (node_trees self.old) (node_trees self.new) }
        ensures same { IfOk result (IsClaimFor (tree.test test) (node_trees self.new)) }
    {
        self.insert(Node::Test(test))
    }

    // The claim that each of these holds.
    pub(crate) fn insert_all(&mut self, claims: ClaimList) -> Result<Claim, NoMemory>
        requires { AreClaimsOf (node_trees self.old) claims }
        ensures grows { Grows (node_trees self.old) (node_trees self.new) }
        ensures tests { AddsNoTest (node_trees self.old) (node_trees self.new) }
        ensures each { IfOk result (IsClaimOfEach claims (node_trees self.new)) }
    {
        self.insert(Node::All(claims))
    }
}
