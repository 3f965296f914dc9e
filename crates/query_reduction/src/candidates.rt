//! Which conjuncts may imply a claim. Nothing rests on it: each one that is proposed is asked.
ghost use Rattle.std.specs.Prelude.{◌≡◌};

use crate::claims::{conjuncts, test_in};
use formula_nodes::{Claim, Nodes};
use indexmap::IndexSet;
use plain_lists::NoMemory;
use std::alloc::Global;
use test_relations::Relations;

/// Where conjuncts stand. One that denies a conjunction, as that a statement of the second set doesn't apply, stands
/// under the tests of one of its disjunctions: what it denies is implied only where one of these is.
#[derive(Drop)]
pub(crate) struct Candidates {
    alloc: Global,
    // Each conjunct once, so its number here is its index.
    claims: IndexSet<Claim>,
    // By a test's number, the indices of the conjuncts that stand under it.
    under: Vec<Vec<usize>>,
    // The tests under which some stand.
    tests: Vec<u32>,
    // The indices of those that stand under none.
    others: Vec<usize>,
}

impl Candidates {
    /// Of no conjuncts.
    pub(crate) fn none(alloc: Global) -> Candidates {
        Candidates {
            alloc,
            claims: IndexSet::new(alloc),
            under: Vec::new(alloc),
            tests: Vec::new(alloc),
            others: Vec::new(alloc),
        }
    }

    /// Those of these conjuncts.
    pub(crate) fn of(
        alloc: Global,
        relations: &Relations<'_>,
        nodes: &Nodes,
        parts: &[Claim],
    ) -> Result<Candidates, NoMemory> {
        let mut candidates = Candidates::none(alloc);
        'tests: for _ in 0..relations.len() {
            candidates.under.push(Vec::new(alloc))?;
        }
        'parts: for i in 0..parts.len() {
            candidates.claims.insert(parts[i])?;
            candidates.add(relations, nodes, parts[i], i)?;
        }
        Ok(candidates)
    }

    /// Whether the conjunct at the index stands under no test.
    pub(crate) fn stands_alone(&self, index: usize) -> bool {
        self.others.as_slice().binary_search(&index).is_ok()
    }

    // Puts the conjunct under the tests of the disjunction that fewest stand under so far.
    fn add(
        &mut self,
        relations: &Relations<'_>,
        nodes: &Nodes,
        claim: Claim,
        index: usize,
    ) -> Result<(), NoMemory> {
        let denied = claim.opposite();
        let mut least = tests_of(self.alloc, relations, nodes, denied)?;
        if let Some(parts) = conjuncts(nodes, denied) {
            'parts: for part in parts {
                let tests = tests_of(self.alloc, relations, nodes, *part)?;
                if self.price(tests.as_slice()) < self.price(least.as_slice()) {
                    least = tests;
                }
            }
        }
        if least.is_empty() {
            self.others.push(index)?;
        }
        'least: for test in &least {
            if let Some(list) = self.under.get_mut(*test as usize) {
                if list.is_empty() {
                    self.tests.push(*test)?;
                }
                list.push(index)?;
            }
        }
        Ok(())
    }

    // How many conjuncts stand under the tests, one more for each.
    fn price(&self, tests: &[u32]) -> usize {
        if tests.is_empty() {
            return usize::MAX;
        }
        let mut price = 0usize;
        'tests: for test in tests {
            if let Some(list) = self.under.as_slice().get(*test as usize) {
                price = price.saturating_add(list.len()).saturating_add(1);
            }
        }
        price
    }

    /// The indices of the conjuncts, besides that at the index, that may imply the claim: an equal one alone, or those
    /// that stand where the tests of what it denies lead.
    pub(crate) fn proposed(
        &self,
        relations: &mut Relations<'_>,
        nodes: &Nodes,
        index: usize,
        claim: Claim,
    ) -> Result<Vec<usize>, NoMemory>
        ensures { relations.new ≡ relations.old }
    {
        let mut found = Vec::new(self.alloc);
        if let Some(equal) = self.claims.get_index_of(&claim) {
            if equal != index {
                found.push(equal)?;
                return Ok(found);
            }
        }
        found.extend_from_slice(self.others.as_slice())?;
        let denied = claim.opposite();
        let Some(parts) = conjuncts(nodes, denied) else {
            self.add_led(relations, nodes, denied, &mut found)?;
            return Ok(found);
        };
        'parts: for part in parts {
            self.add_led(relations, nodes, *part, &mut found)?;
        }
        Ok(found)
    }

    // Adds those that stand under a test to which the first of the disjunction's leads.
    fn add_led(
        &self,
        relations: &mut Relations<'_>,
        nodes: &Nodes,
        claim: Claim,
        found: &mut Vec<usize>,
    ) -> Result<(), NoMemory>
        ensures { relations.new ≡ relations.old }
    {
        let tests = tests_of(self.alloc, relations, nodes, claim)?;
        let Some(first) = tests.first() else {
            return Ok(());
        };
        let test = *first;
        'tests: for other in &self.tests {
            if relations.leads(test, *other) || *other == test {
                if let Some(list) = self.under.get(*other as usize) {
                    found.extend_from_slice(list.as_slice())?;
                }
            }
        }
        Ok(())
    }
}

// The tests of a claim that one of them holds; none where it is another claim.
fn tests_of(
    alloc: Global,
    relations: &Relations<'_>,
    nodes: &Nodes,
    claim: Claim,
) -> Result<Vec<u32>, NoMemory> {
    let mut tests = Vec::new(alloc);
    if claim.holds {
        if let Some(test) = test_in(relations, nodes, claim) {
            tests.push(test)?;
        }
        return Ok(tests);
    }
    let Some(parts) = conjuncts(nodes, claim.opposite()) else {
        return Ok(tests);
    };
    'parts: for part in parts {
        let Some(test) = test_in(relations, nodes, *part) else {
            return Ok(Vec::new(alloc));
        };
        if part.holds {
            return Ok(Vec::new(alloc));
        }
        tests.push(test)?;
    }
    Ok(tests)
}
