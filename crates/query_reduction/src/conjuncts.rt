//! Conjuncts without what the others make needless.
ghost use Rattle.std.specs.Prelude.{◌≡◌, ◌<◌, IfOk, IsTrue, length, slice_set};
ghost use Rattle.formula_nodes.specs.Claims.{AreClaimsOf, AddsNoTest, Grows, IsClaimOf};
ghost use Rattle.formula_nodes.specs.Standing.{node_trees};
ghost use Rattle.query_reduction.specs.Claims.{IsSameClaim, MayReplace, OthersImply, SayAsMuch};

use crate::candidates::Candidates;
use crate::claims::{conjunction, conjuncts};
use crate::implies::{DEPTH, Implications};
use formula_nodes::{Claim, ClaimList, Nodes};
use plain_lists::{List, NoMemory};
use std::alloc::Global;

// How often the conjuncts are gone over.
const MOST_ROUNDS: u32 = 8;

impl Implications<'_> {
    // Whether a conjunct besides that at the index implies the claim. Where there is no memory none is found.
    fn is_implied(&mut self, nodes: &Nodes, parts: &[Claim], index: usize, claim: Claim) -> bool
        ensures same { self.new.relations ≡ self.old.relations }
        ensures implied { IsTrue result →
            OthersImply self.old.relations (node_trees nodes.now) parts.now index claim }
    {
        if self.is_always(nodes, claim) {
            return true;
        }
        if self.is_tired() {
            return false;
        }
        let Ok(found) = self
            .candidates
            .proposed(&mut self.relations, nodes, index, claim)
        else {
            return false;
        };
        self.one_implies(nodes, parts, index, claim, found.as_slice())
    }

    // Whether one of the conjuncts with these indices, besides that at the index, implies the claim.
    fn one_implies(
        &mut self,
        nodes: &Nodes,
        parts: &[Claim],
        index: usize,
        claim: Claim,
        found: &[usize],
    ) -> bool
        ensures same { self.new.relations ≡ self.old.relations }
        ensures implied { IsTrue result →
            OthersImply self.old.relations (node_trees nodes.now) parts.now index claim }
    {
        'found: for place in found {
            let k = *place;
            if k == index {
                continue;
            }
            if k >= parts.len() {
                continue;
            }
            if self.implies(nodes, parts[k], claim, DEPTH) {
                return true;
            }
        }
        false
    }

    // Whether the claim at the index may go since another conjunct implies it, where this is to be asked.
    fn is_needless(
        &mut self,
        nodes: &Nodes,
        parts: &[Claim],
        index: usize,
        claim: Claim,
        fully: bool,
    ) -> bool
        ensures same { self.new.relations ≡ self.old.relations }
        ensures implied { IsTrue result →
            OthersImply self.old.relations (node_trees nodes.now) parts.now index claim }
    {
        if !fully {
            return false;
        }
        self.is_implied(nodes, parts, index, claim)
    }

    // Those of the claims that the other conjuncts don't imply.
    fn unimplied(
        &mut self,
        nodes: &Nodes,
        parts: &[Claim],
        index: usize,
        claims: &[Claim],
    ) -> Result<ClaimList, NoMemory>
        requires { AreClaimsOf (node_trees nodes.now) claims.now }
        ensures same { self.new.relations ≡ self.old.relations }
        ensures there { IfOk result (λ left. AreClaimsOf (node_trees nodes.now) left) }
        ensures say { IfOk result (
            SayAsMuch self.old.relations (node_trees nodes.now) parts.now index claims.now) }
    {
        let mut left = List::new(self.alloc);
        'claims: for claim in claims {
            if self.is_implied(nodes, parts, index, *claim) {
                continue;
            }
            left.push(*claim)?;
        }
        Ok(left)
    }

    // What may stand in place of the conjunct at the index: a disjunction without the branches that contradict another
    // conjunct and, where it is to be `fully` reduced, what always holds where another conjunct implies it.
    fn replacement(
        &mut self,
        nodes: &mut Nodes,
        parts: &[Claim],
        index: usize,
        fully: bool,
    ) -> Result<Claim, NoMemory>
        requires there { AreClaimsOf (node_trees nodes.old) parts.now }
        requires within { index < length parts.now }
        ensures same { self.new.relations ≡ self.old.relations }
        ensures grows { Grows (node_trees nodes.old) (node_trees nodes.new) }
        ensures asks { AddsNoTest (node_trees nodes.old) (node_trees nodes.new) }
        ensures may { IfOk result (MayReplace self.old.relations (node_trees nodes.new) parts.now index) }
    {
        let claim = parts[index];
        if self.is_needless(nodes, parts, index, claim, fully) {
            return conjunction(nodes, List::new(self.alloc));
        }
        let Some(opposites) = conjuncts(nodes, claim.opposite()) else {
            return Ok(claim);
        };
        let left = self.unimplied(nodes, parts, index, opposites)?;
        let both = conjunction(nodes, left)?;
        Ok(both.opposite())
    }

    // Whether the conjunct is to be held against the others: those that stand under tests only where all are.
    fn is_due(&self, index: usize, fully: bool) -> bool {
        fully || self.candidates.stands_alone(index)
    }

    // The conjunction with each conjunct replaced in turn, the last one first, until one becomes several.
    fn round(&mut self, nodes: &mut Nodes, whole: Claim, fully: bool) -> Result<Claim, NoMemory>
        requires { IsClaimOf (node_trees nodes.old) whole }
        ensures same { self.new.relations ≡ self.old.relations }
        ensures grows { Grows (node_trees nodes.old) (node_trees nodes.new) }
        ensures asks { AddsNoTest (node_trees nodes.old) (node_trees nodes.new) }
        ensures there { IfOk result (IsClaimOf (node_trees nodes.new)) }
        ensures value { IfOk result (IsSameClaim self.old.relations (node_trees nodes.new) whole) }
    {
        let Some(inner) = conjuncts(nodes, whole) else {
            return Ok(whole);
        };
        let mut parts = listed(self.alloc, inner)?;
        self.candidates = Candidates::of(self.alloc, &self.relations, nodes, parts.as_slice())?;
        let count = parts.len();
        let mut several = false;
        'each: for k in 0..count {
            if several {
                break;
            }
            let i = count - 1 - k;
            if !self.is_due(i, fully) {
                continue;
            }
            let claim = self.replacement(nodes, parts.as_slice(), i, fully)?;
            put(&mut parts, i, claim);
            several = is_several(nodes, claim);
        }
        conjunction(nodes, List::from_vec(parts))
    }

    // The claim after rounds until nothing changes.
    fn settled(&mut self, nodes: &mut Nodes, whole: Claim, fully: bool) -> Result<Claim, NoMemory>
        requires { IsClaimOf (node_trees nodes.old) whole }
        ensures same { self.new.relations ≡ self.old.relations }
        ensures grows { Grows (node_trees nodes.old) (node_trees nodes.new) }
        ensures asks { AddsNoTest (node_trees nodes.old) (node_trees nodes.new) }
        ensures there { IfOk result (IsClaimOf (node_trees nodes.new)) }
        ensures value { IfOk result (IsSameClaim self.old.relations (node_trees nodes.new) whole) }
    {
        let mut last = whole;
        'rounds: for _ in 0..MOST_ROUNDS {
            let next = self.round(nodes, last, fully)?;
            if is_settled(nodes, last, next) {
                return Ok(next);
            }
            last = next;
        }
        Ok(last)
    }

    /// A claim that is equivalent on valid requests, with fewer conjuncts and branches where some are needless.
    /// What the others imply goes last, when few branches are left to ask.
    pub(crate) fn reduced_claim(
        &mut self,
        nodes: &mut Nodes,
        whole: Claim,
    ) -> Result<Claim, NoMemory>
        requires { IsClaimOf (node_trees nodes.old) whole }
        ensures same { self.new.relations ≡ self.old.relations }
        ensures grows { Grows (node_trees nodes.old) (node_trees nodes.new) }
        ensures asks { AddsNoTest (node_trees nodes.old) (node_trees nodes.new) }
        ensures there { IfOk result (IsClaimOf (node_trees nodes.new)) }
        ensures value { IfOk result (IsSameClaim self.old.relations (node_trees nodes.new) whole) }
    {
        let less = self.settled(nodes, whole, false)?;
        let least = self.settled(nodes, less, true)?;
        Ok(least)
    }
}

// Whether a round from the one claim to the next changed nothing, or left conjuncts out alone: then the others still
// imply no more of those that are left.
fn is_settled(nodes: &Nodes, last: Claim, next: Claim) -> bool {
    if next == last {
        return true;
    }
    let Some(old) = conjuncts(nodes, last) else {
        return false;
    };
    let Some(new) = conjuncts(nodes, next) else {
        return false;
    };
    'new: for claim in new {
        if old.binary_search(claim).is_err() {
            return false;
        }
    }
    true
}

fn is_several(nodes: &Nodes, claim: Claim) -> bool {
    match conjuncts(nodes, claim) {
        Some(parts) => !parts.is_empty(),
        None => false,
    }
}

fn listed(alloc: Global, claims: &[Claim]) -> Result<Vec<Claim>, NoMemory>
    ensures { IfOk result (λ list. list.items ≡ claims.now) }
{
    Vec::from_slice(alloc, claims)
}

fn put(claims: &mut Vec<Claim>, index: usize, claim: Claim)
    requires { index < length claims.old.items }
    ensures { claims.new.items ≡ slice_set claims.old.items index claim }
{
    claims[index] = claim;
}
