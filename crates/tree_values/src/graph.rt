//! Nodes with the way up: each node's parents, and the nodes that ask a test.
ghost use Rattle.std.specs.Prelude.{◌≡◌, ◌<◌, ◌^◌, ◌==◌, ◌||◌, ℕ, [], length, true, IfOk, OnOk};
ghost use Rattle.formula_tree.specs.Trees.{tree_of};
ghost use Rattle.tree_values.specs.Nodes.{AreOrdered, Enters, IsAt, HasEntered, IsGraph, PutsAt, has_child, has_test, list_at};

use crate::node::{Node, Nodes, add_formula};
use formula_tree::Formula;
use plain_lists::{List, NoMemory, fill_to};
use std::alloc::Global;

// The graph of a formula. Parents have greater indices than their children.
#[derive(Drop)]
pub(crate) struct Graph {
    pub(crate) nodes: Vec<Node>,
    pub(crate) parents: Vec<List<usize>>,
    pub(crate) leaves: Vec<List<usize>>,
    pub(crate) root: usize,
}

impl Graph {
    // The graph of the formula: its root stands for it.
    pub(crate) fn of(alloc: Global, formula: &Formula) -> Result<Graph, NoMemory>
        ensures graph { IfOk result IsGraph }
        ensures root { IfOk result (λ g. IsAt g.nodes.items (tree_of formula.now) g.root) }
    {
        let mut set = Nodes::new(alloc);
        let root = add_formula(alloc, &mut set, formula)?;
        let nodes = set.into_vec(alloc)?;
        let mut parents = empty_lists(alloc, nodes.len())?;
        let mut leaves = Vec::new(alloc);
        enter_all(nodes.as_slice(), &mut parents, &mut leaves)?;
        Ok(Graph {
            nodes,
            parents,
            leaves,
            root,
        })
    }
}

// So many empty lists.
fn empty_lists(alloc: Global, count: usize) -> Result<Vec<List<usize>>, NoMemory>
    ensures long { IfOk result (λ lists. length lists.items ≡ count) }
    ensures empty { IfOk result (λ lists. (i : ℕ) → list_at lists.items i ≡ []) }
{
    let mut lists = Vec::new(alloc);
    'lists: for _ in 0..count {
        lists.push(List::new(alloc))?;
    }
    Ok(lists)
}

// Puts the number into the list at the index.
fn put_at(lists: &mut Vec<List<usize>>, at: usize, number: usize) -> Result<(), NoMemory>
    requires { at < length lists.old.items }
    ensures long { length lists.new.items ≡ length lists.old.items }
    ensures put { OnOk result (PutsAt lists.old.items lists.new.items at number) }
{
    lists[at].push(number)?;
    Ok(())
}

// Enters a node as a parent of its children.
fn enter_parent(parents: &mut Vec<List<usize>>, node: Node, index: usize) -> Result<(), NoMemory>
    requires { (c : ℕ) → has_child node c ≡ true → c < length parents.old.items }
    ensures long { length parents.new.items ≡ length parents.old.items }
    ensures put { OnOk result (Enters (has_child node) parents.old.items parents.new.items index) }
{
    match node {
        Node::Yes => Ok(()),
        Node::No => Ok(()),
        Node::Test(_) => Ok(()),
        Node::Not(child) => put_at(parents, child, index),
        Node::Both(first, second) => put_at_both(parents, first, second, index),
        Node::Either(first, second) => put_at_both(parents, first, second, index),
    }
}

// Puts the number into two lists.
fn put_at_both(
    lists: &mut Vec<List<usize>>,
    first: usize,
    second: usize,
    number: usize,
) -> Result<(), NoMemory>
    requires first { first < length lists.old.items }
    requires second { second < length lists.old.items }
    ensures long { length lists.new.items ≡ length lists.old.items }
    ensures put { OnOk result
        (Enters (λ c. (first == c) || (second == c)) lists.old.items lists.new.items number) }
{
    put_at(lists, first, number)?;
    put_at(lists, second, number)
}

// Puts the number into the list at an index. That list needn't be there yet.
fn put_with_room(lists: &mut Vec<List<usize>>, at: usize, number: usize) -> Result<(), NoMemory>
    requires { at < 2 ^ 40 }
    ensures { OnOk result (PutsAt lists.old.items lists.new.items at number) }
{
    let nothing = List::new(*lists.allocator());
    fill_to(lists, at, nothing)?;
    put_at(lists, at, number)
}

// Enters a node that asks a test.
fn enter_leaf(leaves: &mut Vec<List<usize>>, node: Node, index: usize) -> Result<(), NoMemory>
    ensures { OnOk result (Enters (has_test node) leaves.old.items leaves.new.items index) }
{
    match node {
        Node::Test(test) => put_with_room(leaves, test as usize, index),
        Node::Yes => Ok(()),
        Node::No => Ok(()),
        Node::Not(_) => Ok(()),
        Node::Both(_, _) => Ok(()),
        Node::Either(_, _) => Ok(()),
    }
}

// Enters all nodes, where none is entered yet.
fn enter_all(
    nodes: &[Node],
    parents: &mut Vec<List<usize>>,
    leaves: &mut Vec<List<usize>>,
) -> Result<(), NoMemory>
    requires { HasEntered nodes.now parents.old.items leaves.old.items 0 }
    ensures { OnOk result
        (HasEntered nodes.now parents.new.items leaves.new.items (length nodes.now)) }
{
    'nodes: for i in 0..nodes.len() {
        enter_parent(parents, nodes[i], i)?;
        enter_leaf(leaves, nodes[i], i)?;
    }
    Ok(())
}
