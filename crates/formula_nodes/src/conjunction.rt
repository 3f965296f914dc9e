//! Conjunctions of claims.
ghost use Rattle.std.specs.Prelude.{IfOk, OnOk};
ghost use Rattle.formula_nodes.specs.Claims.{AddsNoTest, AreClaimsOf, Grows, IsClaimOf, IsClaimOfEach};
ghost use Rattle.formula_nodes.specs.Standing.{AreOverEarlier, node_trees};
ghost use Rattle.formula_nodes.specs.Steps.{HasSameClaims, SaysAlso, AreEquivalentClaims};

use crate::claim::{Claim, ClaimList};
use crate::nodes::{Node, Nodes};
use crate::part::{Part, part_in};
use plain_lists::{List, NoMemory};
use std::alloc::Global;

// Adds the claim or, where it is that several hold, these.
fn add_claim(nodes: &[Node], claim: Claim, flat: &mut Vec<Claim>) -> Result<(), NoMemory>
    requires earlier { AreOverEarlier nodes.now }
    requires there { IsClaimOf (node_trees nodes.now) claim }
    ensures { OnOk result (SaysAlso (node_trees nodes.now) claim flat.old.items flat.new.items) }
{
    if let Part::All(inner) = part_in(nodes, claim) {
        flat.extend_from_slice(inner)?;
        return Ok(());
    }
    flat.push(claim)?;
    Ok(())
}

// The claims, with the conjunctions among them taken apart. Those of a node hold none themselves.
fn flat_claims(alloc: Global, nodes: &[Node], claims: &[Claim]) -> Result<Vec<Claim>, NoMemory>
    requires earlier { AreOverEarlier nodes.now }
    requires there { AreClaimsOf (node_trees nodes.now) claims.now }
    ensures { IfOk result (λ flat. AreEquivalentClaims (node_trees nodes.now) claims.now flat.items) }
{
    let mut flat = Vec::new(alloc);
    for claim in claims {
        add_claim(nodes, *claim, &mut flat)?;
    }
    Ok(flat)
}

// Puts the claims in order, each once.
fn sort_out(claims: &mut Vec<Claim>)
    ensures { HasSameClaims claims.old.items claims.new.items }
{
    claims.sort_unstable();
    claims.dedup();
}

impl Nodes {
    /// The claim that all of these hold. Conjunctions among them are taken apart, equal claims stand once and
    /// in the order of the numbers, and one alone is itself, so the order of the claims changes nothing. Where
    /// there is no memory, or more nodes than `u32` numbers, there may be nodes more, but no such claim.
    pub fn all(&mut self, claims: ClaimList) -> Result<Claim, NoMemory>
        requires { AreClaimsOf (node_trees self.old) claims }
        ensures grows { Grows (node_trees self.old) (node_trees self.new) }
        ensures tests { AddsNoTest (node_trees self.old) (node_trees self.new) }
        ensures each { IfOk result (IsClaimOfEach claims (node_trees self.new)) }
    {
        let mut flat = flat_claims(self.alloc, self.nodes.as_slice(), claims.as_slice())?;
        sort_out(&mut flat);
        let sorted = flat.as_slice();
        if sorted.len() == 1 {
            return Ok(sorted[0]);
        }
        self.insert_all(List::from_vec(flat))
    }
}
