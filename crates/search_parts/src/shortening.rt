//! Parts under shorter paths.
ghost use Rattle.std.specs.Prelude.{◌≡◌, ◌↔◌, All, IfOk, IsSome, IsTrue, OnOk};
ghost use Rattle.formula_tree.specs.Answers.{answer_of};
ghost use Rattle.formula_tree.specs.Runs.{path_with};
ghost use Rattle.refute_check.specs.Labels.{IsAnswered};
ghost use Rattle.refute_check.specs.Proofs.{proof_of, split};
ghost use Rattle.search_parts.specs.Parts.{IsStoredIn};
ghost use Rattle.search_parts.specs.Shortening.{HasClauses, IsStillClosed};

use cnf_clauses::{Clauses, replay};
use formula_tree::{Path, Three, value3};
use nogoods::Tracking;
use plain_lists::NoMemory;
use policy_compile::Query;
use refute_check::Refutation;
use std::alloc::Global;

/// What parts are looked at with: the query, the clauses of its formula, and the stored lists.
#[derive(Drop)]
pub struct Shortening<'a> {
    pub alloc: Global,
    pub query: &'a Query,
    pub clauses: &'a Clauses,
    pub learned: &'a Tracking,
}

impl<'a> Shortening<'a> {
    /// Whether a part that closes under a longer path by what is stored closes under this one, which is as
    /// before. What is inside its labels isn't looked at, since it closes under the labels' answers.
    ///
    /// The only error is want of memory. The path, a copy of the caller's own, isn't used then.
    #[cycle(still_closes)]
    pub(crate) fn still_closes(&self, part: &Refutation, path: &mut Path) -> Result<bool, NoMemory>
        requires { HasClauses self.now }
        ensures still { IfOk result (IsStillClosed self.now (proof_of part.now) path.old) }
        ensures path { OnOk result (path.new ≡ path.old) }
    {
        match part {
            Refutation::Split { test, yes, no } => self.sides(*test, yes, no, path),
            Refutation::ByValue => Ok(value3(&self.query.formula, path) == Three::No),
            Refutation::BySlot { core, .. } => Ok(are_answered(core.as_slice(), path)),
            Refutation::ByClauses { hints } => replay(self.alloc, self.clauses, path, hints),
            Refutation::Label { number, .. } => Ok(self.has_stored(*number, path)),
            Refutation::Reuse { number } => Ok(self.has_stored(*number, path)),
        }
    }

    /// Whether both sides of a split do.
    #[cycle(still_closes)]
    fn sides(
        &self,
        test: u32,
        yes: &Refutation,
        no: &Refutation,
        path: &mut Path,
    ) -> Result<bool, NoMemory>
        requires { HasClauses self.now }
        ensures still { IfOk result (IsStillClosed self.now
            (split test (proof_of yes.now) (proof_of no.now)) path.old) }
        ensures path { OnOk result (path.new ≡ path.old) }
    {
        if is_answered(test, path) {
            return Ok(false);
        }
        if !self.side(test, true, yes, path)? {
            return Ok(false);
        }
        self.side(test, false, no, path)
    }

    /// Whether the side of a split for one answer does.
    #[cycle(still_closes)]
    fn side(
        &self,
        test: u32,
        answer: bool,
        side: &Refutation,
        path: &mut Path,
    ) -> Result<bool, NoMemory>
        requires clauses { HasClauses self.now }
        requires new { answer_of path.old test ≡ None }
        ensures still { IfOk result (IsStillClosed self.now
            (proof_of side.now) (path_with path.old test answer)) }
        ensures path { OnOk result (path.new ≡ path.old) }
    {
        path.push(test, answer)?;
        let still = self.still_closes(side, path)?;
        path.pop();
        Ok(still)
    }

    // Whether there is a stored list of the number that the path contains.
    fn has_stored(&self, number: u32, path: &Path) -> bool
        ensures { IsTrue result ↔ IsStoredIn self.now.learned.now.lists number path.now }
    {
        let number = number as usize;
        if number >= self.learned.len() {
            return false;
        }
        has_answers(self.learned.at(number).as_slice(), path)
    }
}

// Whether the path answers the test.
pub(crate) fn is_answered(test: u32, path: &Path) -> bool
    ensures { IsTrue result ↔ IsSome (answer_of path.now test) }
{
    path.answer(test).is_some()
}

// Whether the path answers each of the tests.
fn are_answered(tests: &[u32], path: &Path) -> bool
    ensures { IsTrue result ↔ All (λ n. IsSome (answer_of path.now n)) tests.now }
{
    'tests: for test in tests {
        if !is_answered(*test, path) {
            return false;
        }
    }
    true
}

// Whether the path has the answer.
fn has_answer(pair: (u32, bool), path: &Path) -> bool
    ensures { IsTrue result ↔ IsAnswered path.now pair }
{
    path.answer(pair.0) == Some(pair.1)
}

// Whether the path has each of the answers.
fn has_answers(answers: &[(u32, bool)], path: &Path) -> bool
    ensures { IsTrue result ↔ All (IsAnswered path.now) answers.now }
{
    'pairs: for pair in answers {
        if !has_answer(*pair, path) {
            return false;
        }
    }
    true
}
