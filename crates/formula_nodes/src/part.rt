//! What is inside of a claim.
ghost use Rattle.std.specs.Prelude.{◌≡◌};
ghost use Rattle.formula_nodes.specs.Claims.{IsClaimOf};
ghost use Rattle.formula_nodes.specs.Parts.{IsPartOfClaim, joint_part};
ghost use Rattle.formula_nodes.specs.Standing.{AreOverEarlier, node_trees};

use crate::claim::Claim;
use crate::nodes::{Node, Nodes};

/// What a claim comes to, one level down.
#[derive(Clone, Copy)]
pub enum Part<'a> {
    /// The test of this number: the claim is its answer.
    Test(u32),
    /// The claim is that each of these holds.
    All(&'a [Claim]),
    /// The claim is that some of these doesn't hold.
    OneOf(&'a [Claim]),
}

// A conjunction as the claim has it.
fn joint(inner: &[Claim], holds: bool) -> Part<'_>
    ensures { result ≡ joint_part holds inner.entry }
{
    if holds {
        Part::All(inner)
    } else {
        Part::OneOf(inner)
    }
}

pub(crate) fn part_in(nodes: &[Node], claim: Claim) -> Part<'_>
    requires earlier { AreOverEarlier nodes.now }
    requires there { IsClaimOf (node_trees nodes.now) claim }
    ensures { IsPartOfClaim (node_trees nodes.now) claim result }
{
    match &nodes[claim.node as usize] {
        Node::Test(test) => Part::Test(*test),
        Node::All(inner) => joint(inner.as_slice(), claim.holds),
    }
}

impl Nodes {
    /// What the claim comes to. The nodes inside have smaller numbers.
    pub fn part(&self, claim: Claim) -> Part<'_>
        requires { IsClaimOf (node_trees self.now) claim }
        ensures { IsPartOfClaim (node_trees self.now) claim result }
    {
        part_in(self.nodes.as_slice(), claim)
    }
}
