//! Claims as formulas.
ghost use Rattle.std.specs.Prelude.{◌<◌, ◌≡◌, All, IfOk};
ghost use Rattle.formula_tree.specs.Trees.{tree_of, trees_of};
ghost use Rattle.formula_nodes.specs.Claims.{AreClaimsOf, IsClaimOf, IsTreeFor};
ghost use Rattle.formula_nodes.specs.Standing.{node_trees, turned_tree};
ghost use Rattle.formula_nodes.specs.Steps.{AreTreesFor};
ghost use Rattle.formula_tree.specs.Trees as tree;

use crate::claim::Claim;
use crate::nodes::Nodes;
use crate::part::Part;
use formula_tree::{Branches, Formula};
use plain_lists::NoMemory;
use std::alloc::Global;
use std::rc::Rc;

// That the test is answered so.
fn test_formula(alloc: Global, test: u32, holds: bool) -> Result<Formula, NoMemory>
    ensures { IfOk result (λ f. tree_of f ≡ turned_tree holds (tree.test test)) }
{
    if holds {
        return Ok(Formula::Test(test));
    }
    let inner = Rc::new(alloc, Formula::Test(test))?;
    Ok(Formula::Not(inner))
}

impl Nodes {
    /// A formula that has the claim's value and asks no other tests.
    #[cycle(formula)]
    pub fn formula(&self, claim: Claim) -> Result<Rc<Formula>, NoMemory>
        requires { IsClaimOf (node_trees self.now) claim }
        ensures { IfOk result (λ f. IsTreeFor claim (node_trees self.now) (tree_of f.value)) }
    {
        let formula = self.formula_of(claim)?;
        Ok(Rc::new(self.alloc, formula)?)
    }

    #[cycle(formula)]
    fn formula_of(&self, claim: Claim) -> Result<Formula, NoMemory>
        requires { IsClaimOf (node_trees self.now) claim }
        ensures { IfOk result (λ f. IsTreeFor claim (node_trees self.now) (tree_of f)) }
    {
        match self.part(claim) {
            Part::Test(test) => test_formula(self.alloc, test, claim.holds),
            Part::All(inner) => {
                let branches = self.branches(inner, true, claim.node)?;
                Ok(Formula::All(branches))
            }
            Part::OneOf(inner) => {
                let branches = self.branches(inner, false, claim.node)?;
                Ok(Formula::OneOf(branches))
            }
        }
    }

    // The formulas of these claims, or of their opposites, on nodes before that one.
    #[cycle(formula)]
    fn branches(&self, claims: &[Claim], every: bool, end: u32) -> Result<Branches, NoMemory>
        requires there { AreClaimsOf (node_trees self.now) claims.now }
        requires earlier { All (λ c. c.node < end) claims.now }
        ensures { IfOk result
            (λ b. AreTreesFor every claims.now (node_trees self.now) (trees_of b)) }
    {
        let mut branches = Branches::new(self.alloc);
        'claims: for claim in claims {
            branches.push(self.formula(claim.turned(every))?)?;
        }
        Ok(branches)
    }
}
