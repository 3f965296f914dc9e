//! The value of a formula under a path, and the test that it waits for where the value is unknown.
//! One walk finds both; it takes no memory, and its depth is that of the formula alone.
ghost use Rattle.std.specs.Prelude.{◌≡◌, ◌↔◌, None, IsSome, IfSome, true, false};
ghost use Rattle.formula_tree.specs.Answers.{answer_of};
ghost use Rattle.formula_tree.specs.Laws.{IsTruth, StaysAlong};
ghost use Rattle.formula_tree.specs.Looks.{look_of_all, look_of_some, look_of_tree};
ghost use Rattle.formula_tree.specs.Trees.{children_of, tree_of};
ghost use Rattle.formula_tree.specs.Values.{IsWithin, pick, value};

use crate::formula::{Branches, Formula};
use crate::looks::{
    Look, look_of_both, look_of_either, look_of_not, look_of_test, pick_in, value_in,
};
use crate::path::Path;

/// A truth value, or that it isn't known yet.
#[derive(Clone, Copy, Debug)]
pub enum Three {
    Yes,
    No,
    Unknown,
}

#[cycle(look)]
fn look_at(formula: &Formula, path: &Path) -> Look
    ensures { result ≡ look_of_tree (answer_of path.now) (tree_of formula.now) }
{
    match formula {
        Formula::Yes => Look::Yes,
        Formula::No => Look::No,
        Formula::Test(test) => look_of_test(path.answer(*test), *test),
        Formula::Not(inner) => look_of_not(look_at(inner, path)),
        Formula::All(branches) => look_at_all(branches, path),
        Formula::OneOf(branches) => look_at_some(branches, path),
    }
}

#[cycle(look)]
fn look_at_all(branches: &Branches, path: &Path) -> Look
    ensures { result ≡ look_of_all (answer_of path.now) (children_of branches.now) }
{
    let mut all = Look::Yes;
    'all: for branch in &branches.items {
        let next = look_at(&branch.formula, path);
        if let Look::No = next {
            return Look::No;
        }
        all = look_of_both(all, next);
    }
    all
}

#[cycle(look)]
fn look_at_some(branches: &Branches, path: &Path) -> Look
    ensures { result ≡ look_of_some (answer_of path.now) (children_of branches.now) }
{
    let mut some = Look::No;
    'some: for branch in &branches.items {
        let next = look_at(&branch.formula, path);
        if let Look::Yes = next {
            return Look::Yes;
        }
        some = look_of_either(some, next);
    }
    some
}

/// The value of the formula under the path's answers, in the three-valued logic of Kleene. `All` is no where a
/// branch is no, and yes where all are yes, also where there is none. `OneOf` is the other way round. It takes
/// no memory.
pub fn value3(formula: &Formula, path: &Path) -> Three
    ensures { result ≡ value path.now (tree_of formula.now) }
{
    value_in(look_at(formula, path))
}

/// The test that the formula waits for under the path's answers: an unanswered test is picked
/// itself, and of other formulas what is picked in the first branch of unknown value. None exactly
/// where the value isn't unknown. It takes no memory.
pub fn pick(formula: &Formula, path: &Path) -> Option<u32>
    ensures value { result ≡ pick path.now (tree_of formula.now) }
    ensures unknown { IsSome result ↔ (value path.now (tree_of formula.now) ≡ Three.Unknown) }
    ensures unanswered { IfSome result (λ test. answer_of path.now test ≡ None) }
    ensures within { IfSome result (IsWithin (tree_of formula.now)) }
{
    pick_in(look_at(formula, path))
}

/// A value that is yes or no is the tree's truth under each completion of the path, which answers
/// every test, and those of the path as the path does.
pub fn values_hold_for_completions()
    ensures yes { IsTruth Three.Yes true }
    ensures no { IsTruth Three.No false }
{}

/// A path that contains the answers of another keeps each value that is yes or no.
pub fn longer_paths_keep_values()
    ensures yes { StaysAlong Three.Yes }
    ensures no { StaysAlong Three.No }
{}
