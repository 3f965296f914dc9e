//! Which tests a claim denies, and which claims are known to hold where these fail.
ghost use Rattle.std.specs.Prelude.{◌≡◌, ◌≤◌, ◌<◌, All, IfOk, IsTrue, length};
ghost use Rattle.formula_nodes.specs.Claims.{AreClaimsOf, IsClaimOf};
ghost use Rattle.formula_nodes.specs.Standing.{node_trees};
ghost use Rattle.set_questions.specs.Excluding.{AreDenied, AreTrueThere, HasFalseClaim, IsDeniedClaim, IsDeniedNode, IsTrueThere};

use formula_nodes::{Claim, Nodes, Part};
use plain_lists::NoMemory;
use query_reduction::Reducer;
use std::alloc::Global;

// Whether the one is known to deny the node, which is a test.
fn denies(nodes: &Nodes, reducer: &mut Reducer<'_>, one: Claim, node: usize) -> bool
    requires { node < length (node_trees nodes.now) }
    ensures same { reducer.new ≡ reducer.old }
    ensures denied { IsDeniedNode reducer.old (node_trees nodes.now) one node result }
{
    let Ok(number) = u32::try_from(node) else {
        return false;
    };
    let claim = Claim {
        node: number,
        holds: false,
    };
    match nodes.part(claim) {
        Part::Test(_) => reducer.implies(nodes, one, claim),
        Part::All(_) => false,
        Part::OneOf(_) => false,
    }
}

/// By node, of so many, whether the one is known to deny it. None is known that isn't a test.
pub(crate) fn denied_tests(
    alloc: Global,
    nodes: &Nodes,
    reducer: &mut Reducer<'_>,
    one: Claim,
    count: usize,
) -> Result<Vec<bool>, NoMemory>
    ensures same { reducer.new ≡ reducer.old }
    ensures denied { IfOk result (λ denied.
        AreDenied reducer.old (node_trees nodes.now) one denied.items) }
    ensures count { IfOk result (λ denied.
        length denied.items ≤ length (node_trees nodes.now)) }
{
    let mut denied = Vec::new(alloc);
    let end = count.min(nodes.len());
    'nodes: for node in 0..end {
        denied.push(denies(nodes, reducer, one, node))?;
    }
    Ok(denied)
}

// Whether the claim is that a denied node doesn't hold.
fn is_denied(denied: &[bool], claim: Claim) -> bool
    ensures { IsTrue result → IsDeniedClaim denied.now claim }
{
    if claim.holds {
        return false;
    }
    match denied.get(claim.node as usize) {
        Some(is) => *is,
        None => false,
    }
}

/// Whether the claim is known to hold where these nodes are denied.
#[cycle(is_known)]
pub(crate) fn is_known(nodes: &Nodes, denied: &[bool], claim: Claim) -> bool
    requires { IsClaimOf (node_trees nodes.now) claim }
    ensures { IsTrue result → IsTrueThere (node_trees nodes.now) denied.now claim }
{
    if is_denied(denied, claim) {
        return true;
    }
    match nodes.part(claim) {
        Part::Test(_) => false,
        Part::All(inner) => are_known(nodes, denied, inner, claim.node as usize),
        Part::OneOf(inner) => some_fails(nodes, denied, inner, claim.node as usize),
    }
}

// Whether each of the claims, on nodes before that number, is known to hold there.
#[cycle(is_known)]
fn are_known(nodes: &Nodes, denied: &[bool], claims: &[Claim], end: usize) -> bool
    requires there { AreClaimsOf (node_trees nodes.now) claims.now }
    requires earlier { All (λ c. c.node < end) claims.now }
    ensures { IsTrue result → AreTrueThere (node_trees nodes.now) denied.now claims.now }
{
    'claims: for claim in claims {
        if !is_known(nodes, denied, *claim) {
            return false;
        }
    }
    true
}

// Whether one of the claims, on nodes before that number, is known to fail there.
#[cycle(is_known)]
fn some_fails(nodes: &Nodes, denied: &[bool], claims: &[Claim], end: usize) -> bool
    requires there { AreClaimsOf (node_trees nodes.now) claims.now }
    requires earlier { All (λ c. c.node < end) claims.now }
    ensures { IsTrue result → HasFalseClaim (node_trees nodes.now) denied.now claims.now }
{
    'claims: for claim in claims {
        if is_known(nodes, denied, claim.opposite()) {
            return true;
        }
    }
    false
}
