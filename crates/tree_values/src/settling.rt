//! What is seen of all nodes, kept while answers change.
ghost use Rattle.std.specs.Prelude.{◌≡◌, ◌↔◌, ◌∷◌, ◌<◌, IsTrue, ℕ, List, length, All, IfOk};
ghost use Rattle.tree_values.specs.Models.{IsChanged, answer_at};
ghost use Rattle.tree_values.specs.Nodes.{AreOrdered, AreSettled, IsGraph, IsSettled, IsSettledBut, list_at, node_seen, seen_at};

use crate::graph::Graph;
use crate::node::Node;
use crate::seen::is_same;
use formula_tree::{Look, look_of_both, look_of_either, look_of_not, look_of_test};
use plain_lists::{List, NoMemory};
use std::alloc::Global;

fn seen_at(marks: &[Look], index: usize) -> Look
    ensures { result ≡ seen_at marks.now index }
{
    match marks.get(index) {
        Some(seen) => *seen,
        None => Look::Yes,
    }
}

fn answer_at(answers: &[Option<bool>], test: u32) -> Option<bool>
    ensures { result ≡ answer_at answers.now test }
{
    match answers.get(test as usize) {
        Some(answer) => *answer,
        None => None,
    }
}

// What is seen of a node by what was seen of its children.
fn node_seen(node: Node, answers: &[Option<bool>], marks: &[Look]) -> Look
    ensures { result ≡ node_seen (answer_at answers.now) marks.now node }
{
    match node {
        Node::Yes => Look::Yes,
        Node::No => Look::No,
        Node::Test(test) => look_of_test(answer_at(answers, test), test),
        Node::Not(child) => look_of_not(seen_at(marks, child)),
        Node::Both(first, second) => look_of_both(seen_at(marks, first), seen_at(marks, second)),
        Node::Either(first, second) => look_of_either(
            seen_at(marks, first),
            seen_at(marks, second),
        ),
    }
}

// The numbers in the list at the index; none past the end.
fn list_at(lists: &[List<usize>], index: usize) -> &[usize]
    ensures { result.now ≡ list_at lists.now index }
{
    match lists.get(index) {
        Some(list) => list.as_slice(),
        None => &[],
    }
}

// What is seen of all nodes under the answers.
pub(crate) fn first_marks(
    alloc: Global,
    nodes: &[Node],
    answers: &[Option<bool>],
) -> Result<Vec<Look>, NoMemory>
    requires { AreOrdered nodes.now }
    ensures long { IfOk result (λ marks. length marks.items ≡ length nodes.now) }
    ensures settled { IfOk result
        (λ marks. AreSettled nodes.now (answer_at answers.now) marks.items) }
{
    let mut marks = Vec::new(alloc);
    'nodes: for i in 0..nodes.len() {
        let seen = node_seen(nodes[i], answers, marks.as_slice());
        marks.push(seen)?;
    }
    Ok(marks)
}

// Looks at a node anew, and where something else is seen of it at its parents. Where it and the
// pending nodes were all that might not agree with their children, the pending ones are all.
#[cycle(settle)]
fn settle(graph: &Graph, answers: &[Option<bool>], marks: &mut Vec<Look>, index: usize)
    requires graph { IsGraph graph.now }
    requires within { index < length graph.now.nodes.items }
    requires long { length marks.old.items ≡ length graph.now.nodes.items }
    ensures long { length marks.new.items ≡ length graph.now.nodes.items }
    ensures settled { (pending : List ℕ) →
        IsSettledBut graph.now answers.now marks.old.items (index ∷ pending) →
        IsSettledBut graph.now answers.now marks.new.items pending }
{
    let seen = node_seen(graph.nodes[index], answers, marks.as_slice());
    if is_same(seen, marks[index]) {
        return;
    }
    marks[index] = seen;
    'parents: for parent in list_at(graph.parents.as_slice(), index) {
        settle(graph, answers, marks, *parent);
    }
}

// Looks at these nodes anew. Where they were all that might not agree with their children, all
// nodes agree.
fn settle_all(graph: &Graph, answers: &[Option<bool>], marks: &mut Vec<Look>, indices: &[usize])
    requires graph { IsGraph graph.now }
    requires within { All (λ i. i < length graph.now.nodes.items) indices.now }
    requires long { length marks.old.items ≡ length graph.now.nodes.items }
    ensures long { length marks.new.items ≡ length graph.now.nodes.items }
    ensures settled { IsSettledBut graph.now answers.now marks.old.items indices.now →
        IsSettled graph.now answers.now marks.new.items }
{
    'indices: for index in indices {
        settle(graph, answers, marks, *index);
    }
}

// Changes the answer to one test.
fn change(
    graph: &Graph,
    answers: &mut Vec<Option<bool>>,
    marks: &mut Vec<Look>,
    test: u32,
    answer: Option<bool>,
)
    requires graph { IsGraph graph.now }
    requires long { length marks.old.items ≡ length graph.now.nodes.items }
    requires room { test < length answers.old.items }
    requires settled { IsSettled graph.now answers.old.items marks.old.items }
    ensures long { length marks.new.items ≡ length graph.now.nodes.items }
    ensures changed { IsChanged answers.old.items answers.new.items test answer }
    ensures settled { IsSettled graph.now answers.new.items marks.new.items }
{
    let leaves = list_at(graph.leaves.as_slice(), test as usize);
    answers[test as usize] = answer;
    settle_all(graph, answers.as_slice(), marks, leaves);
}

fn is_same_answer(first: Option<bool>, second: Option<bool>) -> bool
    ensures { IsTrue result ↔ (first ≡ second) }
{
    first == second
}

// Changes the answer of a test. It does nothing where the test has that answer, and goes by way of no answer where it
// has the other: so what is seen of a node goes one way at a time, from unknown or towards it.
pub(crate) fn change_to(
    graph: &Graph,
    answers: &mut Vec<Option<bool>>,
    marks: &mut Vec<Look>,
    test: u32,
    answer: Option<bool>,
)
    requires graph { IsGraph graph.now }
    requires long { length marks.old.items ≡ length graph.now.nodes.items }
    requires room { test < length answers.old.items }
    requires settled { IsSettled graph.now answers.old.items marks.old.items }
    ensures long { length marks.new.items ≡ length graph.now.nodes.items }
    ensures changed { IsChanged answers.old.items answers.new.items test answer }
    ensures settled { IsSettled graph.now answers.new.items marks.new.items }
{
    if is_same_answer(answer_at(answers.as_slice(), test), answer) {
        return;
    }
    change(graph, answers, marks, test, None);
    change(graph, answers, marks, test, answer);
}
