//! The claims of the statements of a set's query.
ghost use Rattle.std.specs.Prelude.{◌≡◌, IfOk, IfSome};
ghost use Rattle.formula_tree.specs.Trees.{all, children_of, tree_of, trees_of};
ghost use Rattle.formula_nodes.specs.Claims.{AddsTestsOf, Grows};
ghost use Rattle.formula_nodes.specs.Standing.{node_trees};
ghost use Rattle.set_questions.specs.Numbering.{AreInnerClaims, AreTreeClaims, ConjunctsOf, inner_branches, inner_trees, some_trees};

use formula_nodes::{ClaimList, Nodes};
use formula_tree::{Branches, Formula};
use plain_lists::{List, NoMemory};
use std::alloc::Global;

// The branches of a disjunction.
fn some_branches(formula: &Formula) -> Option<&Branches>
    ensures { inner_branches result ≡ some_trees (tree_of formula.now) }
{
    match formula {
        Formula::OneOf(branches) => Some(branches),
        Formula::Yes => None,
        Formula::No => None,
        Formula::Test(_) => None,
        Formula::Not(_) => None,
        Formula::All(_) => None,
    }
}

// The branches of a disjunction, or of one that is denied.
fn branches_in(formula: &Formula) -> Option<&Branches>
    ensures { inner_branches result ≡ inner_trees (tree_of formula.now) }
{
    match formula {
        Formula::Not(inner) => some_branches(inner),
        Formula::OneOf(branches) => Some(branches),
        Formula::Yes => None,
        Formula::No => None,
        Formula::Test(_) => None,
        Formula::All(_) => None,
    }
}

/// A claim for each branch.
pub(crate) fn numbered(
    alloc: Global,
    nodes: &mut Nodes,
    branches: &Branches,
) -> Result<ClaimList, NoMemory>
    ensures grows { Grows (node_trees nodes.old) (node_trees nodes.new) }
    ensures tests { AddsTestsOf (all (children_of branches.now))
        (node_trees nodes.old) (node_trees nodes.new) }
    ensures claims { IfOk result (AreTreeClaims (node_trees nodes.new) (trees_of branches.now)) }
{
    let mut claims = List::new(alloc);
    'branches: for i in 0..branches.len() {
        let Some(branch) = branches.get(i) else {
            break;
        };
        claims.push(nodes.number(branch)?)?;
    }
    Ok(claims)
}

// A claim for each branch of a disjunction, or of one that is denied.
fn inner_claims(alloc: Global, nodes: &mut Nodes, formula: &Formula) -> Result<ClaimList, NoMemory>
    ensures grows { Grows (node_trees nodes.old) (node_trees nodes.new) }
    ensures tests { AddsTestsOf (tree_of formula.now) (node_trees nodes.old) (node_trees nodes.new) }
    ensures claims { IfOk result
        (AreTreeClaims (node_trees nodes.new) (inner_trees (tree_of formula.now))) }
{
    match branches_in(formula) {
        Some(branches) => numbered(alloc, nodes, branches),
        None => Ok(List::new(alloc)),
    }
}

/// The same of each of the formulas.
pub(crate) fn numbered_inside(
    alloc: Global,
    nodes: &mut Nodes,
    branches: &Branches,
) -> Result<List<ClaimList>, NoMemory>
    ensures grows { Grows (node_trees nodes.old) (node_trees nodes.new) }
    ensures tests { AddsTestsOf (all (children_of branches.now))
        (node_trees nodes.old) (node_trees nodes.new) }
    ensures claims { IfOk result (AreInnerClaims (node_trees nodes.new) (trees_of branches.now)) }
{
    let mut claims = List::new(alloc);
    'branches: for i in 0..branches.len() {
        let Some(branch) = branches.get(i) else {
            break;
        };
        claims.push(inner_claims(alloc, nodes, branch)?)?;
    }
    Ok(claims)
}

/// The branches of a conjunction.
pub(crate) fn conjuncts(formula: &Formula) -> Option<&Branches>
    ensures { ConjunctsOf (tree_of formula.now) result }
{
    match formula {
        Formula::All(branches) => Some(branches),
        Formula::Yes => None,
        Formula::No => None,
        Formula::Test(_) => None,
        Formula::Not(_) => None,
        Formula::OneOf(_) => None,
    }
}
