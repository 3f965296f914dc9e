//! What a claim comes to on valid requests.
ghost use Rattle.std.specs.Prelude.{◌≡◌, ◌<◌, IfOk, IfSome, length};
ghost use Rattle.formula_nodes.specs.Claims.{AreClaimsOf, AddsNoTest, Grows, IsClaimOf};
ghost use Rattle.formula_nodes.specs.Standing.{node_trees};
ghost use Rattle.query_reduction.specs.Claims.{IsAnswerTo, IsConjunctionOf};

use formula_nodes::{Claim, ClaimList, Nodes, Part};
use plain_lists::NoMemory;
use test_relations::Relations;

/// The claims that all hold where this one does, if it is a conjunction.
pub(crate) fn conjuncts(nodes: &Nodes, claim: Claim) -> Option<&[Claim]>
    ensures same { IfSome result (λ parts. IsConjunctionOf (node_trees nodes.now) claim parts.now) }
    ensures there { IfSome result (λ parts. AreClaimsOf (node_trees nodes.now) parts.now) }
{
    if claim.node as usize >= nodes.len() {
        return None;
    }
    match nodes.part(claim) {
        Part::All(parts) => Some(parts),
        Part::OneOf(_) => None,
        Part::Test(_) => None,
    }
}

/// The test that the claim is an answer to, if it is one.
pub(crate) fn test_in(relations: &Relations<'_>, nodes: &Nodes, claim: Claim) -> Option<u32>
    ensures { IfSome result (IsAnswerTo relations.now (node_trees nodes.now) claim) }
{
    if claim.node as usize >= nodes.len() {
        return None;
    }
    match nodes.part(claim) {
        Part::Test(test) => known_test(relations, test),
        Part::All(_) => None,
        Part::OneOf(_) => None,
    }
}

// The number, if a test has it.
fn known_test(relations: &Relations<'_>, test: u32) -> Option<u32>
    ensures { IfSome result (λ n. (n ≡ test) × (n < length relations.now.tests)) }
{
    if (test as usize) < relations.len() {
        Some(test)
    } else {
        None
    }
}

/// The claim that all of these hold.
pub(crate) fn conjunction(nodes: &mut Nodes, parts: ClaimList) -> Result<Claim, NoMemory>
    requires { AreClaimsOf (node_trees nodes.old) parts }
    ensures grows { Grows (node_trees nodes.old) (node_trees nodes.new) }
    ensures asks { AddsNoTest (node_trees nodes.old) (node_trees nodes.new) }
    ensures there { IfOk result (λ claim. IsClaimOf (node_trees nodes.new) claim) }
    ensures same { IfOk result (λ claim. IsConjunctionOf (node_trees nodes.new) claim parts) }
{
    nodes.all(parts)
}
