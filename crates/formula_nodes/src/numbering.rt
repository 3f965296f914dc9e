//! The numbers of formulas.
ghost use Rattle.std.specs.Prelude.{IfOk};
ghost use Rattle.formula_tree.specs.Trees.{all, children_of, tree_of, trees_of};
ghost use Rattle.formula_nodes.specs.Claims.{AddsNoTest, AddsTestsOf, AreClaimsOf, Grows, IsClaimFor};
ghost use Rattle.formula_nodes.specs.Standing.{node_trees};
ghost use Rattle.formula_nodes.specs.Steps.{AreClaimsFor, IsClaimForJoined};

use crate::claim::{Claim, ClaimList};
use crate::nodes::Nodes;
use formula_tree::{Branches, Formula};
use plain_lists::{List, NoMemory};

impl Nodes {
    // The claim that each of these holds or, where they are opposites, that not each does.
    fn joined(&mut self, claims: ClaimList, every: bool) -> Result<Claim, NoMemory>
        requires { AreClaimsOf (node_trees self.old) claims }
        ensures grows { Grows (node_trees self.old) (node_trees self.new) }
        ensures tests { AddsNoTest (node_trees self.old) (node_trees self.new) }
        ensures each { IfOk result
            (IsClaimForJoined every (node_trees self.old) (node_trees self.new) claims) }
    {
        let claim = self.all(claims)?;
        Ok(claim.turned(every))
    }

    /// The claim that has the formula's value. Where there is no memory, or more nodes than `u32` numbers,
    /// there may be nodes more, but no such claim.
    #[cycle(number)]
    pub fn number(&mut self, formula: &Formula) -> Result<Claim, NoMemory>
        ensures grows { Grows (node_trees self.old) (node_trees self.new) }
        ensures tests { AddsTestsOf (tree_of formula.now) (node_trees self.old) (node_trees self.new) }
        ensures same { IfOk result (IsClaimFor (tree_of formula.now) (node_trees self.new)) }
    {
        match formula {
            Formula::Yes => self.joined(List::new(self.alloc), true),
            Formula::No => self.joined(List::new(self.alloc), false),
            Formula::Test(test) => self.insert_test(*test),
            Formula::Not(inner) => {
                let claim = self.number(inner)?;
                Ok(claim.turned(false))
            }
            Formula::All(branches) => {
                let claims = self.number_each(branches, true)?;
                self.joined(claims, true)
            }
            Formula::OneOf(branches) => {
                let claims = self.number_each(branches, false)?;
                self.joined(claims, false)
            }
        }
    }

    // The claim for each branch or, where `every` is false, its opposite.
    #[cycle(number)]
    fn number_each(&mut self, branches: &Branches, every: bool) -> Result<ClaimList, NoMemory>
        ensures grows { Grows (node_trees self.old) (node_trees self.new) }
        ensures tests { AddsTestsOf (all (children_of branches.now))
            (node_trees self.old) (node_trees self.new) }
        ensures each { IfOk result
            (AreClaimsFor every (trees_of branches.now) (node_trees self.new)) }
    {
        let mut claims = List::new(self.alloc);
        'branches: for i in 0..branches.len() {
            let Some(branch) = branches.get(i) else {
                break;
            };
            let claim = self.number(branch)?;
            claims.push(claim.turned(every))?;
        }
        Ok(claims)
    }
}
