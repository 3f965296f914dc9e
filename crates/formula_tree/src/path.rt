//! Paths: lists of answered tests. Beside the list a path keeps its answers by test numbers, so that an
//! answer is read at once.
ghost use Rattle.std.specs.Prelude.{◌≡◌, ◌++◌, ◌∷◌, [], ℕ, None, Option, Bool, List, length, slice_get, slice_index_or, option_to_list, OnOk, OnErr, IfOk, ◌<◌, ◌↔◌, IsSome};
ghost use Rattle.formula_tree.specs.Answers.{IsDistinct, answer_of};

use plain_lists::{NoMemory, fill_to};
use std::alloc::Global;
use std::marker::Model;

/// A list of answered tests, in the order in which they were answered; no test stands twice. It
/// takes memory by the greatest test number in it, and keeps its allocator.
#[derive(Drop)]
pub struct Path {
    pairs: Vec<(u32, bool)>,
    by_test: Vec<Option<bool>>,
}

impl Model for Path {
    ghost use Rattle.std.specs.Prelude.{ℕ, Bool, List};

    ghost Value = { List (ℕ × Bool) };

    ghost use Rattle.formula_tree.specs.Answers.{IsByTest};

    ghost view = { λ p. p.pairs.items };

    ghost invariant = { λ p. IsByTest p.pairs.items p.by_test.items };
}

impl Path {
    /// The path without answers. It takes no memory.
    pub fn new(alloc: Global) -> Path
        ensures { result ≡ [] }
    {
        Path {
            pairs: Vec::new(alloc),
            by_test: Vec::new(alloc),
        }
    }

    /// The answers, in order. No test stands twice.
    pub fn as_slice(&self) -> &[(u32, bool)]
        ensures value { result.now ≡ self.now }
        ensures distinct { IsDistinct self.now }
    {
        // Brings in what the index says of the pairs: no test stands twice.
        let _by_test = &self.by_test;
        self.pairs.as_slice()
    }

    /// How many tests are answered.
    pub fn len(&self) -> usize
        ensures value { result ≡ length self.now }
        ensures distinct { IsDistinct self.now }
    {
        // As in `as_slice`.
        let _by_test = &self.by_test;
        self.pairs.len()
    }

    /// The answered test at an index, counted from 0, with its answer, or none where the path has
    /// no such index.
    pub fn get(&self, i: usize) -> Option<(u32, bool)>
        ensures { result ≡ slice_get self.now i }
    {
        self.pairs.as_slice().get(i).copied()
    }

    /// The answer to a test, or none where the path doesn't answer it.
    pub fn answer(&self, test: u32) -> Option<bool>
        ensures { result ≡ answer_of self.now test }
    {
        match self.by_test.as_slice().get(test as usize) {
            Some(answer) => *answer,
            None => None,
        }
    }

    /// Answers one more test, at the end. Where there is no memory the path stays as it was.
    pub fn push(&mut self, test: u32, answer: bool) -> Result<(), NoMemory>
        requires { answer_of self.old test ≡ None }
        ensures ok { OnOk result (self.new ≡ self.old ++ (test, answer) ∷ []) }
        ensures err { OnErr result (self.new ≡ self.old) }
    {
        fill_to(&mut self.by_test, test as usize, None)?;
        self.pairs.push((test, answer))?;
        self.by_test[test as usize] = Some(answer);
        Ok(())
    }

    /// Takes the last answer away, and gives it; none where the path is empty.
    pub fn pop(&mut self) -> Option<(u32, bool)>
        ensures last { self.old ≡ self.new ++ option_to_list result }
        ensures nonempty { IsSome result ↔ (0 < length self.old) }
    {
        let last = self.pairs.pop();
        if let Some((test, _)) = last {
            self.by_test[test as usize] = None;
        }
        last
    }

    /// A path of the same answers.
    pub fn copy(&self) -> Result<Path, NoMemory>
        ensures { IfOk result (λ p. p ≡ self.now) }
    {
        Ok(Path {
            pairs: self.pairs.clone()?,
            by_test: self.by_test.clone()?,
        })
    }
}
