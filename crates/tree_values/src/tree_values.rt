//! The value of a formula under answers that are given and taken back.
ghost use Rattle.std.specs.Prelude.{◌≡◌, ◌<◌, ◌↔◌, None, IfOk, IfSome, IsSome, length};
ghost use Rattle.formula_tree.specs.Answers.{Answers};
ghost use Rattle.formula_tree.specs.Looks.{look_of_tree};
ghost use Rattle.formula_tree.specs.Values.{IsWithin, pick, value};
ghost use Rattle.tree_values.specs.Models.{IsAnsweredBy, IsSet, IsStart, IsUnanswered, answer_at, answer_in, answered_tree};

use crate::graph::Graph;
use crate::settling::{change_to, first_marks};
use formula_tree::{Formula, Look, Three, pick_in, value_in};
use plain_lists::NoMemory;
use std::alloc::Global;
use std::marker::Model;
use std::rc::Rc;

/// A formula with an answer or none for each of its tests, and its value under them. A change of
/// one answer costs what it changes. It shares the formula, and takes memory by the formula's
/// different parts.
#[derive(Drop)]
pub struct TreeValues {
    formula: Rc<Formula>,
    graph: Graph,
    pub(crate) answers: Vec<Option<bool>>,
    marks: Vec<Look>,
}

impl Model for TreeValues {
    ghost use Rattle.formula_tree.specs.Trees.{tree_of};
    ghost use Rattle.tree_values.specs.Models.{Answered};
    ghost use Rattle.tree_values.specs.Nodes.{AreKept};
    ghost use Rattle.formula_tree.specs.contracts.formula.Formula as formula_row;
    ghost use Rattle.std.specs.Coded.{codes};

    ghost Value = { Answered };

    ghost coded = { Prim.hlevel (codes, formula_row.the_row.coded) };

    ghost view = { λ v. record { formula = v.formula.value; answers = v.answers.items } };

    ghost invariant = { λ v.
        AreKept (tree_of v.formula.value) v.answers.items v.graph v.marks.items };
}

impl TreeValues {
    /// The formula with no test answered, and with room for the answers of so many tests.
    pub fn of(alloc: Global, formula: &Rc<Formula>, tests: u32) -> Result<TreeValues, NoMemory>
        ensures { IfOk result (IsStart formula.now.value tests) }
    {
        let graph = Graph::of(alloc, &**formula)?;
        let answers = empty_answers(alloc, tests)?;
        let marks = first_marks(alloc, graph.nodes.as_slice(), answers.as_slice())?;
        Ok(TreeValues {
            formula: formula.clone()?,
            graph,
            answers,
            marks,
        })
    }

    /// Gives a test an answer, or takes its answer back. It takes no memory.
    pub fn set(&mut self, test: u32, answer: Option<bool>)
        requires { test < length self.old.answers }
        ensures { IsSet self.old self.new test answer }
    {
        change_to(
            &self.graph,
            &mut self.answers,
            &mut self.marks,
            test,
            answer,
        );
    }

    /// The formula's value under the answers, and the test that it waits for.
    pub(crate) fn seen(&self) -> Look
        ensures { result ≡ look_of_tree (answer_at self.now.answers) (answered_tree self.now) }
    {
        self.marks[self.graph.root]
    }

    /// The answer to a test.
    pub(crate) fn answer(&self, test: u32) -> Option<bool>
        ensures { result ≡ answer_in self.now test }
    {
        match self.answers.get(test as usize) {
            Some(answer) => *answer,
            None => None,
        }
    }

    /// The formula's value under each list of these answers.
    pub fn value(&self) -> Three
        ensures { (path : Answers) → IsAnsweredBy self.now path →
            result ≡ value path (answered_tree self.now) }
    {
        value_in(self.seen())
    }

    /// The test that the formula waits for under each list of these answers: none exactly where its
    /// value isn't unknown. It takes no memory.
    pub fn pick(&self) -> Option<u32>
        ensures value { (path : Answers) → IsAnsweredBy self.now path →
            result ≡ pick path (answered_tree self.now) }
        ensures unknown { (path : Answers) → IsAnsweredBy self.now path →
            (IsSome result ↔ (value path (answered_tree self.now) ≡ Three.Unknown)) }
        ensures unanswered { IfSome result (λ test. answer_in self.now test ≡ None) }
        ensures within { IfSome result (IsWithin (answered_tree self.now)) }
    {
        pick_in(self.seen())
    }
}

// So many tests without an answer.
fn empty_answers(alloc: Global, tests: u32) -> Result<Vec<Option<bool>>, NoMemory>
    ensures { IfOk result (λ answers. IsUnanswered tests answers.items) }
{
    let mut answers = Vec::new(alloc);
    'tests: for _ in 0..tests {
        answers.push(None)?;
    }
    Ok(answers)
}
