//! The labels that stand before a node in reading order.
ghost use Rattle.std.specs.Prelude.{◌≡◌, ◌<◌, ◌↔◌, [], All, IfOk, IsTrue, None, OnOk, length, map, slice_index_or};
ghost use Rattle.pattern_automata.specs.Closed.{rises_from};
ghost use Rattle.refute_check.specs.Closing.{IsLabel, IsReuse, Rise, at_first, inside_label};
ghost use Rattle.refute_check.specs.Labels.{HasNotEnded, IsAnswered, with_ended};

use crate::refutation::AnswerList;
use formula_tree::Path;
use plain_lists::{List, NoMemory};
use std::alloc::Global;
use std::marker::Model;

/// How many labels stand before, and the answers of those whose nodes have ended.
#[derive(Drop)]
pub(crate) struct Labels {
    ended: List<(u32, AnswerList)>,
    // For each label that began, by its number, its index in `ended`: so a reuse costs one look.
    indices: Vec<Option<usize>>,
}

impl Model for Labels {
    ghost use Rattle.std.specs.Prelude.{length};
    ghost use Rattle.refute_check.specs.Closing.{Before};
    ghost use Rattle.refute_check.specs.Labels.{HaveIndices};

    ghost Value = { Before };

    ghost view = { λ l. record { begun = length l.indices.items; ended = l.ended } };

    ghost invariant = { λ l. HaveIndices l.ended l.indices.items };
}

impl Labels {
    /// No label stands before. It takes no memory.
    pub(crate) fn new(alloc: Global) -> Labels
        ensures { result ≡ at_first }
    {
        Labels {
            ended: List::new(alloc),
            indices: Vec::new(alloc),
        }
    }

    /// Whether a label of this number and these answers may stand next, under the path.
    pub(crate) fn may_begin(&self, number: u32, answers: &AnswerList, path: &Path) -> bool
        ensures { IsTrue result ↔ IsLabel self.now number answers.now path.now }
    {
        if number as usize != self.indices.len() {
            return false;
        }
        let answers = answers.as_slice();
        rise(answers) && are_answered(answers, path)
    }

    /// One more label stands before.
    pub(crate) fn begin(&mut self) -> Result<(), NoMemory>
        ensures begun { OnOk result (self.new ≡ inside_label self.old) }
        ensures below { All (λ l. l.0 < self.old.begun) self.old.ended }
    {
        self.indices.push(None)?;
        Ok(())
    }

    /// The node of a label ends.
    pub(crate) fn end(&mut self, number: u32, answers: AnswerList) -> Result<(), NoMemory>
        requires within { number < self.old.begun }
        requires new { HasNotEnded self.old number }
        requires rise { Rise answers }
        ensures { OnOk result (self.new ≡ with_ended self.old number answers) }
    {
        let index = self.ended.len();
        self.ended.push((number, answers))?;
        self.indices[number as usize] = Some(index);
        Ok(())
    }

    /// Whether a label of the number has ended whose answers the path has.
    pub(crate) fn may_reuse(&self, number: u32, path: &Path) -> bool
        ensures { IsTrue result ↔ IsReuse self.now number path.now }
    {
        let Some(index) = index_of(self.indices.as_slice(), number) else {
            return false;
        };
        match self.ended.get(index) {
            Some(label) => are_answered(label.1.as_slice(), path),
            None => false,
        }
    }
}

// The index of an ended label in the list of these, or none where the label hasn't ended.
fn index_of(indices: &[Option<usize>], number: u32) -> Option<usize>
    ensures { result ≡ slice_index_or indices.now number None }
{
    match indices.get(number as usize) {
        Some(index) => *index,
        None => None,
    }
}

// Whether the tests of the answers strictly rise.
fn rise(answers: &[(u32, bool)]) -> bool
    ensures { result ≡ rises_from 0 (map (λ a. a.0) answers.now) }
{
    let mut next: u64 = 0;
    'pairs: for pair in answers {
        let test = u64::from(pair.0);
        if test < next {
            return false;
        }
        next = test + 1;
    }
    true
}

// Whether the path has the answer.
fn is_answered(pair: (u32, bool), path: &Path) -> bool
    ensures { IsTrue result ↔ IsAnswered path.now pair }
{
    path.answer(pair.0) == Some(pair.1)
}

// Whether the path has each of the answers.
pub(crate) fn are_answered(answers: &[(u32, bool)], path: &Path) -> bool
    ensures { IsTrue result ↔ All (IsAnswered path.now) answers.now }
{
    'pairs: for pair in answers {
        if !is_answered(*pair, path) {
            return false;
        }
    }
    true
}

// The path of the answers, in place of the one without answers.
pub(crate) fn path_of(empty: Path, answers: &[(u32, bool)]) -> Result<Path, NoMemory>
    requires rise { Rise answers.now }
    requires empty { empty ≡ [] }
    ensures { IfOk result (λ path. path ≡ answers.now) }
{
    let mut path = empty;
    'pairs: for pair in answers {
        path.push(pair.0, pair.1)?;
    }
    Ok(path)
}

/// A path without answers: one of those that are spare, since a new one takes time by the greatest test in it.
pub(crate) fn empty_path(alloc: Global, spare: &mut Vec<Path>) -> Path
    ensures { result ≡ [] }
{
    match spare.pop() {
        Some(path) => if_empty(alloc, path),
        None => Path::new(alloc),
    }
}

// The path, where it has no answers, or a new one.
fn if_empty(alloc: Global, path: Path) -> Path
    ensures { result ≡ [] }
{
    if path.len() == 0 {
        path
    } else {
        Path::new(alloc)
    }
}

/// Keeps the path for later, without its answers.
pub(crate) fn set_aside(spare: &mut Vec<Path>, path: Path) -> Result<(), NoMemory> {
    let mut empty = path;
    'answers: while empty.len() > 0 {
        empty.pop();
    }
    spare.push(empty)?;
    Ok(())
}
