//! Whether one claim implies another.
ghost use Rattle.std.specs.Prelude.{◌≡◌, All, Contains, IfOk, IfSome, IsTrue, true};
ghost use Rattle.formula_nodes.specs.Standing.{node_trees};
ghost use Rattle.formula_nodes.specs.declared.claim.Claim.{Claim};
ghost use Rattle.query_reduction.specs.Claims.{AnswerImplies, ClaimImplies};
ghost use Rattle.test_relations.specs.Relations.{AlwaysAt};

use crate::candidates::Candidates;
use crate::claims::{conjuncts, test_in};
use formula_nodes::{Claim, Nodes};
use plain_lists::NoMemory;
use policy_model::{Schema, TestList};
use std::alloc::Global;
use test_relations::Relations;

/// How many conjunctions and disjunctions inside one another are looked into.
pub(crate) const DEPTH: u32 = 12;

// How many questions are answered at most, and how many more for each further claim.
const MOST_STEPS: u32 = 2_000_000;

const MORE_STEPS: u32 = 100_000;

/// What implies what on the tests of a query. Yes is certain, no says nothing.
#[derive(Drop)]
pub(crate) struct Implications<'a> {
    pub(crate) alloc: Global,
    pub(crate) relations: Relations<'a>,
    // By test whether it always holds: where it doesn't, this isn't asked again.
    always: Vec<bool>,
    pub(crate) candidates: Candidates,
    steps: u32,
}

impl<'a> Implications<'a> {
    /// Nothing asked yet of the tests.
    pub(crate) fn new(
        alloc: Global,
        schema: &'a Schema,
        tests: &'a TestList,
    ) -> Result<Implications<'a>, NoMemory>
        ensures schema { IfOk result (λ i. i.relations.schema ≡ schema.now) }
        ensures tests { IfOk result (λ i. i.relations.tests ≡ tests.now) }
    {
        let relations = Relations::of(alloc, schema, tests)?;
        let always = always_in(alloc, &relations, tests.len())?;
        Ok(Implications {
            alloc,
            relations,
            always,
            candidates: Candidates::none(alloc),
            steps: MOST_STEPS,
        })
    }

    /// Whether the one claim is known to imply the other, looking so deep.
    #[cycle(implies)]
    pub(crate) fn implies(&mut self, nodes: &Nodes, one: Claim, other: Claim, depth: u32) -> bool
        ensures same { self.new.relations ≡ self.old.relations }
        ensures implied { IsTrue result →
            ClaimImplies self.old.relations (node_trees nodes.now) one other }
    {
        if one == other {
            return true;
        }
        if let Some(known) = self.test_implies(nodes, one, other) {
            return known;
        }
        if self.is_always(nodes, other) {
            return true;
        }
        if self.is_always(nodes, one.opposite()) {
            return true;
        }
        if depth == 0 || self.steps == 0 {
            return false;
        }
        self.steps -= 1;
        self.part_implies(nodes, one, other, depth - 1)
    }

    // Whether the one claim is known to imply the other, if both are answers to tests.
    fn test_implies(&mut self, nodes: &Nodes, one: Claim, other: Claim) -> Option<bool>
        ensures same { self.new.relations ≡ self.old.relations }
        ensures implied { IfSome result (λ known. IsTrue known →
            ClaimImplies self.old.relations (node_trees nodes.now) one other) }
    {
        let Some(first) = test_in(&self.relations, nodes, one) else {
            return None;
        };
        let Some(second) = test_in(&self.relations, nodes, other) else {
            return None;
        };
        Some(self.answer_implies(first, one.holds, second, other.holds))
    }

    /// Answers more questions, about another claim.
    pub(crate) fn go_on(&mut self)
        ensures { self.new.relations ≡ self.old.relations }
    {
        self.steps = self.steps.saturating_add(MORE_STEPS).min(MOST_STEPS);
    }

    // Whether no more questions are answered.
    pub(crate) fn is_tired(&self) -> bool {
        self.steps == 0
    }

    // Whether every valid request makes the claim true, since it is one test.
    pub(crate) fn is_always(&self, nodes: &Nodes, claim: Claim) -> bool
        ensures { IsTrue result → (other : Claim) →
            ClaimImplies self.now.relations (node_trees nodes.now) other claim }
    {
        let Some(test) = test_in(&self.relations, nodes, claim) else {
            return false;
        };
        self.is_certain(test, claim.holds)
    }

    // Whether every valid request answers the test so, since it always holds.
    fn is_certain(&self, test: u32, holds: bool) -> bool
        ensures { IsTrue result → (holds ≡ true) × AlwaysAt self.now.relations test }
    {
        if !holds {
            return false;
        }
        match self.always.as_slice().get(test as usize) {
            Some(true) => self.relations.always(test),
            _ => false,
        }
    }

    // Whether the one test being answered so implies that the other is.
    fn answer_implies(&mut self, one: u32, said: bool, other: u32, also_said: bool) -> bool
        ensures same { self.new.relations ≡ self.old.relations }
        ensures implied { IsTrue result → AnswerImplies self.old.relations one said other also_said }
    {
        if self.is_certain(other, also_said) {
            return true;
        }
        if self.is_certain(one, !said) {
            return true;
        }
        match (said, also_said) {
            (true, true) => self.relations.leads(one, other),
            (false, false) => self.relations.leads(other, one),
            (true, false) => self.relations.excludes(one, other),
            (false, true) => false,
        }
    }

    // Whether it follows from a part of one of the claims.
    #[cycle(implies)]
    fn part_implies(&mut self, nodes: &Nodes, one: Claim, other: Claim, depth: u32) -> bool
        ensures same { self.new.relations ≡ self.old.relations }
        ensures implied { IsTrue result →
            ClaimImplies self.old.relations (node_trees nodes.now) one other }
    {
        if let Some(parts) = conjuncts(nodes, other) {
            return self.implies_each(nodes, one, parts, depth);
        }
        // A disjunction implies what each of its branches does, so what is denied denies each.
        if let Some(parts) = conjuncts(nodes, one.opposite()) {
            return self.implies_each(nodes, other.opposite(), parts, depth);
        }
        if self.some_implies(nodes, one, other, depth) {
            return true;
        }
        self.some_implies(nodes, other.opposite(), one.opposite(), depth)
    }

    // Whether the claim implies each of these.
    #[cycle(implies)]
    fn implies_each(&mut self, nodes: &Nodes, one: Claim, others: &[Claim], depth: u32) -> bool
        ensures same { self.new.relations ≡ self.old.relations }
        ensures implied { IsTrue result →
            All (ClaimImplies self.old.relations (node_trees nodes.now) one) others.now }
    {
        'others: for other in others {
            if !self.implies(nodes, one, *other, depth) {
                return false;
            }
        }
        true
    }

    // Whether a part of the one claim implies the other.
    #[cycle(implies)]
    fn some_implies(&mut self, nodes: &Nodes, one: Claim, other: Claim, depth: u32) -> bool
        ensures same { self.new.relations ≡ self.old.relations }
        ensures implied { IsTrue result →
            ClaimImplies self.old.relations (node_trees nodes.now) one other }
    {
        let Some(parts) = conjuncts(nodes, one) else {
            return false;
        };
        if stands_in(parts, other) {
            return true;
        }
        'parts: for part in parts {
            if self.implies(nodes, *part, other, depth) {
                return true;
            }
        }
        false
    }
}

// Whether the claim is one of these, which are in order.
fn stands_in(claims: &[Claim], claim: Claim) -> bool
    ensures { IsTrue result → Contains claims.now claim }
{
    let Ok(place) = claims.binary_search(&claim) else {
        return false;
    };
    claims[place] == claim
}

fn always_in(
    alloc: Global,
    relations: &Relations<'_>,
    tests: usize,
) -> Result<Vec<bool>, NoMemory> {
    let mut always = Vec::new(alloc);
    'tests: for test in 0..tests {
        let Ok(number) = u32::try_from(test) else {
            break;
        };
        always.push(relations.always(number))?;
    }
    Ok(always)
}
