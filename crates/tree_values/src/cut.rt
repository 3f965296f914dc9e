//! The answers that a value needs.
ghost use Rattle.std.specs.Prelude.{◌≡◌, ◌<◌, ◌↔◌, ◌++◌, ◌∷◌, [], None, Some, IfOk, OnOk, IsTrue, length};
ghost use Rattle.formula_tree.specs.Answers.{Contained, answer_of};
ghost use Rattle.tree_values.specs.Cuts.{IsLeastCut, IsNoOn};
ghost use Rattle.tree_values.specs.Leaving.{AreKeptFor, IsKeptFor, IsLeftOut, IsNoGiven, seen_given, still_answered};
ghost use Rattle.tree_values.specs.Models.{IsAnsweredBy, answer_at, answer_in, answered_tree};
ghost use Rattle.tree_values.specs.Giving.{AreGiven, IsGivenSome};
ghost use Rattle.formula_tree.specs.declared.looks.Look.TheVariants as seen;

use crate::seen::is_no;
use crate::tree_values::TreeValues;
use formula_tree::Path;
use plain_lists::NoMemory;
use std::alloc::Global;

/// The sides of a split on which a formula is to stay no.
#[derive(Clone, Copy)]
pub struct Sides {
    pub yes: bool,
    pub no: bool,
}

impl TreeValues {
    /// Answers of the path, the needed ones among them, under which the formula is still no with
    /// either wanted answer to the test, and no more of them than that takes: without one that
    /// isn't needed anyway it isn't. Newest answers are left out first. What is kept is answered by the
    /// path, before and after.
    pub fn cut(
        &mut self,
        alloc: Global,
        path: &Path,
        needed: &Path,
        test: u32,
        sides: Sides,
    ) -> Result<Path, NoMemory>
        requires answered { IsAnsweredBy self.old path.now }
        requires there { Contained needed.now path.now }
        requires test { (answer_of path.now test ≡ None) × (test < length self.old.answers) }
        requires no { IsNoOn (answered_tree self.old) path.now test sides }
        ensures cut { IfOk result
            (IsLeastCut (answered_tree self.old) path.now needed.now test sides) }
        ensures restored { self.new ≡ self.old }
    {
        self.leave_out(path, needed, test, sides);
        let answers = self.answers_left(alloc, path);
        self.give(path);
        answers
    }

    // Gives the test the answer that the path has, or none, if there is room for the test.
    fn give_one(&mut self, path: &Path, test: u32)
        ensures given { IsGivenSome self.old self.new path.now }
        ensures at { test < length self.old.answers →
            answer_in self.new test ≡ answer_of path.now test }
    {
        if test as usize >= self.answers.len() {
            return;
        }
        self.set(test, path.answer(test));
    }

    // Gives each of the tests of the path the answer that the path has.
    fn give(&mut self, path: &Path)
        ensures given { IsGivenSome self.old self.new path.now }
        ensures each { AreGiven self.new path.now path.now }
    {
        'answers: for (test, _) in path.as_slice() {
            self.give_one(path, *test);
        }
    }

    // Whether the formula is no where the test is answered so.
    fn is_no_at(&mut self, test: u32, answer: bool) -> bool
        requires { (answer_in self.old test ≡ None) × (test < length self.old.answers) }
        ensures no { IsTrue result ↔ (seen_given (answered_tree self.old)
            (answer_at self.old.answers) test answer ≡ seen.No) }
        ensures same { self.new ≡ self.old }
    {
        self.set(test, Some(answer));
        let no = is_no(self.seen());
        self.set(test, None);
        no
    }

    // Whether the formula is no on the wanted sides.
    fn is_no_on(&mut self, test: u32, sides: Sides) -> bool
        requires { (answer_in self.old test ≡ None) × (test < length self.old.answers) }
        ensures no { IsTrue result ↔
            IsNoGiven (answered_tree self.old) (answer_at self.old.answers) test sides }
        ensures same { self.new ≡ self.old }
    {
        if sides.yes && !self.is_no_at(test, true) {
            return false;
        }
        if sides.no && !self.is_no_at(test, false) {
            return false;
        }
        true
    }

    // Leaves out the answer to one test, if it isn't needed.
    fn try_without(&mut self, needed: &Path, tried: u32, test: u32, sides: Sides)
        requires test { (answer_in self.old test ≡ None) × (test < length self.old.answers) }
        requires no { IsNoGiven (answered_tree self.old) (answer_at self.old.answers) test sides }
        ensures out { IsLeftOut self.old self.new needed.now test sides }
        ensures tried { IsKeptFor self.new needed.now test sides tried }
    {
        let Some(answer) = self.answer(tried) else {
            return;
        };
        if needed.answer(tried).is_some() {
            return;
        }
        self.set(tried, None);
        if !self.is_no_on(test, sides) {
            self.set(tried, Some(answer));
        }
    }

    // Leaves out all answers of the path that aren't needed, the newest first.
    fn leave_out(&mut self, path: &Path, needed: &Path, test: u32, sides: Sides)
        requires test { (answer_in self.old test ≡ None) × (test < length self.old.answers) }
        requires no { IsNoGiven (answered_tree self.old) (answer_at self.old.answers) test sides }
        ensures out { IsLeftOut self.old self.new needed.now test sides }
        ensures tried { AreKeptFor self.new needed.now test sides path.now }
    {
        let mut left = path.len();
        'answers: while left > 0 {
            left -= 1;
            let (tried, _) = path.as_slice()[left];
            self.try_without(needed, tried, test, sides);
        }
    }

    // Adds an answer, if it is still there.
    fn add_left(&self, left: &mut Path, test: u32, answer: bool) -> Result<(), NoMemory>
        requires { answer_of left.old test ≡ None }
        ensures { OnOk result
            (left.new ≡ left.old ++ still_answered self.now.answers ((test, answer) ∷ [])) }
    {
        match self.answer(test) {
            Some(_) => left.push(test, answer),
            None => Ok(()),
        }
    }

    // The answers of the path that are still there.
    fn answers_left(&self, alloc: Global, path: &Path) -> Result<Path, NoMemory>
        ensures { IfOk result (λ answers. answers ≡ still_answered self.now.answers path.now) }
    {
        let mut left = Path::new(alloc);
        'answers: for (test, answer) in path.as_slice() {
            self.add_left(&mut left, *test, *answer)?;
        }
        Ok(left)
    }
}
