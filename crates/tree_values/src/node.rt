//! The nodes of a formula in one list, each behind its children. Equal nodes stand there once. More
//! than two branches are joined by nodes of two, so that the change of one looks at few others.
ghost use Rattle.std.specs.Prelude.{◌≡◌, ◌<◌, ◌++◌, ℕ, List, [], length, slice_get, All, Some, IfOk, OnOk, true, false};
ghost use Rattle.formula_tree.specs.Trees.{not, tree_of, trees_of, Tree};
ghost use Rattle.tree_values.specs.Nodes.{AreAt, AreChildrenIn, AreOrdered, IsAt, IsJointNode, IsPrefix, empty_node, has_child, joint_node, joint_tree, leaf_tree};

use formula_tree::{Branches, Formula};
use indexmap::IndexSet;
use plain_lists::NoMemory;
use std::alloc::Global;
use std::marker::Model;

// A formula of one level. It names those inside by their indices.
#[derive(Clone, Copy, PartialEq, Eq, Hash)]
pub(crate) enum Node {
    Yes,
    No,
    Test(u32),
    Not(usize),
    Both(usize, usize),
    Either(usize, usize),
}

// Nodes, each with children of smaller indices.
#[derive(Drop)]
pub(crate) struct Nodes {
    set: IndexSet<Node>,
}

impl Model for Nodes {
    ghost use Rattle.std.specs.Prelude.{List};
    ghost use Rattle.tree_values.specs.declared.node.Node.{Node};
    ghost use Rattle.tree_values.specs.Nodes.{AreOrdered};

    ghost Value = { List Node };

    ghost view = { λ n. n.set.keys };

    ghost invariant = { λ n. AreOrdered n.set.keys };
}

impl Nodes {
    pub(crate) fn new(alloc: Global) -> Nodes
        ensures { result ≡ [] }
    {
        Nodes {
            set: IndexSet::new(alloc),
        }
    }

    // The index of the node. One that wasn't there yet is put behind the others.
    fn add(&mut self, node: Node) -> Result<usize, NoMemory>
        requires { AreChildrenIn self.old node }
        ensures at { IfOk result (λ i. slice_get self.new i ≡ Some node) }
        ensures grows { OnOk result (IsPrefix self.old self.new) }
    {
        let (index, _) = self.set.insert_full(node)?;
        Ok(index)
    }

    // The nodes, in order.
    pub(crate) fn into_vec(self, alloc: Global) -> Result<Vec<Node>, NoMemory>
        ensures nodes { IfOk result (λ nodes. nodes.items ≡ self) }
        ensures ordered { AreOrdered self }
    {
        let nodes: Vec<Node> = self.set.into_iter().collect(alloc)?;
        Ok(nodes)
    }
}

fn empty_node(every: bool) -> Node
    ensures { result ≡ empty_node every }
{
    if every { Node::Yes } else { Node::No }
}

fn joint_node(every: bool, first: usize, second: usize) -> Node
    ensures { result ≡ joint_node every first second }
{
    if every {
        Node::Both(first, second)
    } else {
        Node::Either(first, second)
    }
}

// The index of the node of no branches.
fn add_empty(nodes: &mut Nodes, every: bool) -> Result<usize, NoMemory>
    ensures at { IfOk result (IsJointNode nodes.new every []) }
    ensures grows { OnOk result (IsPrefix nodes.old nodes.new) }
{
    nodes.add(empty_node(every))
}

// The index of the node of two that are there.
fn add_joint(nodes: &mut Nodes, every: bool, first: usize, second: usize) -> Result<usize, NoMemory>
    requires first { first < length nodes.old }
    requires second { second < length nodes.old }
    ensures at { IfOk result (λ i. (front rest : List ℕ) → IsJointNode nodes.old every front first →
        IsJointNode nodes.old every rest second → IsJointNode nodes.new every (front ++ rest) i) }
    ensures grows { OnOk result (IsPrefix nodes.old nodes.new) }
{
    nodes.add(joint_node(every, first, second))
}

// The index of a node that stands for all of these together: where `every` is true all of them must
// hold, else one of them.
fn join(nodes: &mut Nodes, every: bool, children: &[usize]) -> Result<usize, NoMemory>
    requires { All (λ c. c < length nodes.old) children.now }
    ensures at { IfOk result (IsJointNode nodes.new every children.now) }
    ensures grows { OnOk result (IsPrefix nodes.old nodes.new) }
{
    if children.is_empty() {
        return add_empty(nodes, every);
    }
    if children.len() == 1 {
        return Ok(children[0]);
    }
    let (front, rest) = children.split_at(children.len() / 2);
    let first = join(nodes, every, front)?;
    let second = join(nodes, every, rest)?;
    add_joint(nodes, every, first, second)
}

// The index of the node without branches: of a test, or of what always or never holds.
fn add_leaf(nodes: &mut Nodes, leaf: Node) -> Result<usize, NoMemory>
    requires { (c : ℕ) → has_child leaf c ≡ false }
    ensures at { IfOk result (IsAt nodes.new (leaf_tree leaf)) }
    ensures grows { OnOk result (IsPrefix nodes.old nodes.new) }
{
    nodes.add(leaf)
}

// The index of the node that holds where the child doesn't.
fn add_not(nodes: &mut Nodes, child: usize) -> Result<usize, NoMemory>
    requires { child < length nodes.old }
    ensures at { IfOk result (λ i. (t : Tree) → IsAt nodes.old t child → IsAt nodes.new (not t) i) }
    ensures grows { OnOk result (IsPrefix nodes.old nodes.new) }
{
    nodes.add(Node::Not(child))
}

// The index of the node of these branches.
fn add_joined(nodes: &mut Nodes, every: bool, children: &[usize]) -> Result<usize, NoMemory>
    requires { All (λ c. c < length nodes.old) children.now }
    ensures at { IfOk result (λ i. (ts : List Tree) → AreAt nodes.old ts children.now →
        IsAt nodes.new (joint_tree every ts) i) }
    ensures grows { OnOk result (IsPrefix nodes.old nodes.new) }
{
    join(nodes, every, children)
}

// The index of the formula's node, behind those of its branches.
#[cycle(add_formula)]
pub(crate) fn add_formula(
    alloc: Global,
    nodes: &mut Nodes,
    formula: &Formula,
) -> Result<usize, NoMemory>
    ensures at { IfOk result (IsAt nodes.new (tree_of formula.now)) }
    ensures grows { OnOk result (IsPrefix nodes.old nodes.new) }
{
    match formula {
        Formula::Yes => add_leaf(nodes, Node::Yes),
        Formula::No => add_leaf(nodes, Node::No),
        Formula::Test(test) => add_leaf(nodes, Node::Test(*test)),
        Formula::Not(inner) => {
            let child = add_formula(alloc, nodes, inner)?;
            add_not(nodes, child)
        }
        Formula::All(branches) => {
            let children = add_branches(alloc, nodes, branches)?;
            add_joined(nodes, true, children.as_slice())
        }
        Formula::OneOf(branches) => {
            let children = add_branches(alloc, nodes, branches)?;
            add_joined(nodes, false, children.as_slice())
        }
    }
}

#[cycle(add_formula)]
fn add_branches(
    alloc: Global,
    nodes: &mut Nodes,
    branches: &Branches,
) -> Result<Vec<usize>, NoMemory>
    ensures at { IfOk result (λ cs. AreAt nodes.new (trees_of branches.now) cs.items) }
    ensures grows { OnOk result (IsPrefix nodes.old nodes.new) }
{
    let mut children = Vec::new(alloc);
    'branches: for i in 0..branches.len() {
        let Some(branch) = branches.get(i) else {
            break;
        };
        let child = add_formula(alloc, nodes, branch)?;
        children.push(child)?;
    }
    Ok(children)
}
