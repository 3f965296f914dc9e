//! What is left of claims where the tests that a claim denies fail.
ghost use Rattle.std.specs.Prelude.{◌≡◌, ◌≤◌, ◌<◌, All, IfOk, IfSome, length};
ghost use Rattle.formula_nodes.specs.Claims.{AddsNoTest, AreClaimsOf, Grows, IsClaimOf, turned_claim};
ghost use Rattle.formula_nodes.specs.Standing.{node_trees};
ghost use Rattle.set_questions.specs.Cutting.{AreLeftOf, IsConjunctionAt, IsLeftOf};

use crate::excluding::is_known;
use formula_nodes::{Claim, ClaimList, Nodes, Part};
use plain_lists::{List, NoMemory};
use std::alloc::Global;

/// The claim or, where `holds` is false, its opposite.
pub(crate) fn turned(claim: Claim, holds: bool) -> Claim
    ensures { result ≡ turned_claim holds claim }
{
    if holds { claim } else { claim.opposite() }
}

fn listed(alloc: Global, claims: &[Claim]) -> Result<ClaimList, NoMemory>
    ensures { IfOk result (λ list. list ≡ claims.now) }
{
    let items = Vec::from_slice(alloc, claims)?;
    Ok(List::from_vec(items))
}

// The claims that all hold where the node does, if it is a conjunction.
fn conjuncts_at(alloc: Global, nodes: &Nodes, node: u32) -> Result<Option<ClaimList>, NoMemory>
    requires { node < length (node_trees nodes.now) }
    ensures { IfOk result (λ found.
        IfSome found (IsConjunctionAt (node_trees nodes.now) node)) }
{
    match nodes.part(Claim { node, holds: true }) {
        Part::All(inner) => {
            let list = listed(alloc, inner)?;
            Ok(Some(list))
        }
        Part::OneOf(_) => Ok(None),
        Part::Test(_) => Ok(None),
    }
}

// A claim of the same value where these nodes are denied, without those inside of it that are known there.
#[cycle(cut)]
fn cut(alloc: Global, nodes: &mut Nodes, denied: &[bool], claim: Claim) -> Result<Claim, NoMemory>
    requires there { IsClaimOf (node_trees nodes.old) claim }
    requires count { length denied.now ≤ length (node_trees nodes.old) }
    ensures grows { Grows (node_trees nodes.old) (node_trees nodes.new) }
    ensures tests { AddsNoTest (node_trees nodes.old) (node_trees nodes.new) }
    ensures left { IfOk result (IsLeftOf (node_trees nodes.new) denied.now claim) }
{
    let Some(inner) = conjuncts_at(alloc, nodes, claim.node)? else {
        return Ok(claim);
    };
    let left = left_of(alloc, nodes, denied, inner.as_slice(), claim.node as usize)?;
    let all = nodes.all(left)?;
    Ok(turned(all, claim.holds))
}

/// Claims that hold where these do, wherever these nodes are denied: each without what is known there. The claims are on
/// nodes before that number.
#[cycle(cut)]
pub(crate) fn left_of(
    alloc: Global,
    nodes: &mut Nodes,
    denied: &[bool],
    claims: &[Claim],
    end: usize,
) -> Result<ClaimList, NoMemory>
    requires there { AreClaimsOf (node_trees nodes.old) claims.now }
    requires earlier { All (λ c. c.node < end) claims.now }
    requires count { length denied.now ≤ length (node_trees nodes.old) }
    ensures grows { Grows (node_trees nodes.old) (node_trees nodes.new) }
    ensures tests { AddsNoTest (node_trees nodes.old) (node_trees nodes.new) }
    ensures left { IfOk result (AreLeftOf (node_trees nodes.new) denied.now claims.now) }
{
    let mut left = List::new(alloc);
    'claims: for claim in claims {
        if is_known(nodes, denied, *claim) {
            continue;
        }
        left.push(cut(alloc, nodes, denied, *claim)?)?;
    }
    Ok(left)
}
