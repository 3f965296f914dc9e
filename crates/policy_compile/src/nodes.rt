//! Formulas as nodes. A node names the formulas inside by the indices of earlier nodes, so equal formulas
//! are one node wherever they are asked for.
ghost use Rattle.std.specs.Prelude.{◌≡◌, ◌<◌, All, IfOk, length, map};
ghost use Rattle.formula_tree.specs.Trees.{not, tree_of, trees_of};
ghost use Rattle.policy_compile.specs.Nodes.{AreEarlier, StandFor, children, node_tree, tree_at, tree_in};

use formula_tree::{Branches, Formula};
use plain_lists::{List, NoMemory};
use std::alloc::Global;
use std::rc::Rc;

/// A formula of one level: its connective, and the indices of the nodes inside.
#[derive(Drop, PartialEq, Eq, Hash)]
pub(crate) enum Node {
    Yes,
    /// The test of this number.
    Test(u32),
    Not(usize),
    All(List<usize>),
    OneOf(List<usize>),
}

fn branches_of(
    alloc: Global,
    formulas: &[Rc<Formula>],
    indices: &[usize],
) -> Result<Branches, NoMemory>
    requires { All (λ i. i < length formulas.now) indices.now }
    ensures { IfOk result (λ b. trees_of b ≡ map (tree_in formulas.now) indices.now) }
{
    let mut branches = Branches::new(alloc);
    for i in indices {
        branches.push(formulas[*i].clone()?)?;
    }
    Ok(branches)
}

fn not_of(inner: Rc<Formula>) -> Formula
    ensures { tree_of result ≡ not (tree_of inner.value) }
{
    Formula::Not(inner)
}

// The formula of a node, with those of the nodes before it.
fn formula_of(alloc: Global, formulas: &[Rc<Formula>], node: &Node) -> Result<Formula, NoMemory>
    requires { All (λ i. i < length formulas.now) (children node.now) }
    ensures { IfOk result (λ f. tree_of f ≡ node_tree (tree_in formulas.now) node.now) }
{
    match node {
        Node::Yes => Ok(Formula::Yes),
        Node::Test(number) => Ok(Formula::Test(*number)),
        Node::Not(i) => Ok(not_of(formulas[*i].clone()?)),
        Node::All(indices) => {
            let branches = branches_of(alloc, formulas, indices.as_slice())?;
            Ok(Formula::All(branches))
        }
        Node::OneOf(indices) => {
            let branches = branches_of(alloc, formulas, indices.as_slice())?;
            Ok(Formula::OneOf(branches))
        }
    }
}

/// The formulas of the nodes, in their order. Each node has one, which those that name it share.
pub(crate) fn formulas_of(alloc: Global, nodes: &[Node]) -> Result<Vec<Rc<Formula>>, NoMemory>
    requires { AreEarlier nodes.now }
    ensures count { IfOk result (λ formulas. length formulas.items ≡ length nodes.now) }
    ensures trees { IfOk result (λ formulas. StandFor nodes.now (map tree_at formulas.items)) }
{
    let mut formulas = Vec::new(alloc);
    for node in nodes {
        let formula = formula_of(alloc, formulas.as_slice(), node)?;
        formulas.push(Rc::new(alloc, formula)?)?;
    }
    Ok(formulas)
}
