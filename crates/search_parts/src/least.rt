//! The answers that a split needs of its path.
ghost use Rattle.std.specs.Prelude.{◌≡◌, ◌<◌, ◌≤◌, ◌^◌, ◌+◌, ◌↔◌, ◌||◌, [], All, IfOk, IsTrue, None, OnOk, false, length, true};
ghost use Rattle.std.specs.Option.{is_some};
ghost use Rattle.formula_tree.specs.Answers.{Contained, answer_of};
ghost use Rattle.formula_tree.specs.Runs.{path_with};
ghost use Rattle.tree_values.specs.Cuts.{IsNoOn};
ghost use Rattle.tree_values.specs.Models.{IsAnsweredBy, answered_tree};
ghost use Rattle.refute_check.specs.Closing.{Rise};
ghost use Rattle.search_parts.specs.declared.part.Needs.TheVariants.{Open};
ghost use Rattle.search_parts.specs.Least.{AreChosen, AreChosenBelow, AreKnownNeeds, IsCutDown, chosen_at};
ghost use Rattle.search_parts.specs.Needs.{AreLeast, needs_list};

use crate::part::Needs;
use formula_tree::Path;
use plain_lists::NoMemory;
use std::alloc::Global;
use tree_values::{Sides, TreeValues};

/// Answers of the path under which both sides of a split on the test close, in the order of their tests.
/// None of them can be left out. Where what a side needs is open, answers are left out as long as the
/// formula stays no on that side.
///
/// The values follow the path, before and after. The only error is want of memory.
pub fn least_answers(
    alloc: Global,
    path: &Path,
    test: u32,
    yes: &Needs,
    no: &Needs,
    values: &mut TreeValues,
) -> Result<Path, NoMemory>
    requires within { test < length values.old.answers }
    requires free { answer_of path.now test ≡ None }
    requires answered { IsAnsweredBy values.old path.now }
    requires yes_needs { AreKnownNeeds (answered_tree values.old)
        (path_with path.now test true) yes.now }
    requires no_needs { AreKnownNeeds (answered_tree values.old)
        (path_with path.now test false) no.now }
    ensures least { IfOk result (AreLeast (answered_tree values.old) path.now test yes.now no.now) }
    ensures rise { IfOk result (λ answers. Rise answers) }
    ensures values { values.new ≡ values.old }
{
    let needed = needed_by(alloc, path, yes, no)?;
    let sides = Sides {
        yes: is_open(yes),
        no: is_open(no),
    };
    if is_any(sides) {
        return cut_down(alloc, path, &needed, test, sides, values);
    }
    Ok(needed)
}

fn is_any(sides: Sides) -> bool
    ensures { result ≡ (sides.yes || sides.no) }
{
    sides.yes || sides.no
}

// What both parts need, as far as it is known.
fn needed_by(alloc: Global, path: &Path, yes: &Needs, no: &Needs) -> Result<Path, NoMemory>
    ensures chosen { IfOk result (AreChosen path.now (needs_list yes.now) (needs_list no.now)) }
    ensures rise { IfOk result (λ answers. Rise answers) }
{
    let none = Path::new(alloc);
    chosen(alloc, path, listed(yes, &none), listed(no, &none))
}

// As few answers of the path as keep the formula no on these sides, in the order of tests.
fn cut_down(
    alloc: Global,
    path: &Path,
    needed: &Path,
    test: u32,
    sides: Sides,
    values: &mut TreeValues,
) -> Result<Path, NoMemory>
    requires answered { IsAnsweredBy values.old path.now }
    requires there { Contained needed.now path.now }
    requires free { answer_of path.now test ≡ None }
    requires within { test < length values.old.answers }
    requires no { IsNoOn (answered_tree values.old) path.now test sides }
    ensures cut { IfOk result
        (IsCutDown (answered_tree values.old) path.now needed.now test sides) }
    ensures rise { IfOk result (λ answers. Rise answers) }
    ensures values { values.new ≡ values.old }
{
    let cut = values.cut(alloc, path, needed, test, sides)?;
    let none = Path::new(alloc);
    chosen(alloc, path, &cut, &none)
}

// The answers that a part needs, where they are known, or none.
fn listed<'a>(needs: &'a Needs, none: &'a Path) -> &'a Path
    requires { none.now ≡ [] }
    ensures { result.now ≡ needs_list needs.now }
{
    match needs {
        Needs::Just(answers) => answers,
        Needs::Open => none,
        Needs::Unknown => none,
    }
}

fn is_open(needs: &Needs) -> bool
    ensures { IsTrue result ↔ (needs.now ≡ Open) }
{
    match needs {
        Needs::Just(_) => false,
        Needs::Open => true,
        Needs::Unknown => false,
    }
}

// The path's answers to the tests that one of two lists answers, in the order of tests.
fn chosen(alloc: Global, path: &Path, first: &Path, second: &Path) -> Result<Path, NoMemory>
    ensures chosen { IfOk result (AreChosen path.now first.now second.now) }
    ensures rise { IfOk result (λ answers. Rise answers) }
{
    let mut answers = Path::new(alloc);
    let end = end_of(path.as_slice());
    'tests: for test in 0..end {
        add_chosen(&mut answers, test as u32, path, first, second)?;
    }
    Ok(answers)
}

// Adds the path's answer to the test, if it has one and either list answers it.
fn add_chosen(
    answers: &mut Path,
    test: u32,
    path: &Path,
    first: &Path,
    second: &Path,
) -> Result<(), NoMemory>
    requires { AreChosenBelow path.now first.now second.now test answers.old }
    ensures { OnOk result (AreChosenBelow path.now first.now second.now (test + 1) answers.new) }
{
    match chosen_answer(test, path, first, second) {
        Some(answer) => answers.push(test, answer),
        None => Ok(()),
    }
}

fn chosen_answer(test: u32, path: &Path, first: &Path, second: &Path) -> Option<bool>
    ensures { result ≡ chosen_at path.now first.now second.now test }
{
    // Most tests are open, and then neither list is looked at.
    let Some(answer) = path.answer(test) else {
        return None;
    };
    if has_either(test, first, second) {
        Some(answer)
    } else {
        None
    }
}

fn has_either(test: u32, first: &Path, second: &Path) -> bool
    ensures { result ≡ (is_some (answer_of first.now test) || is_some (answer_of second.now test)) }
{
    first.answer(test).is_some() || second.answer(test).is_some()
}

// A number above each of the tests.
fn end_of(pairs: &[(u32, bool)]) -> usize
    ensures above { All (λ a. a.0 < result) pairs.now }
    ensures few { result ≤ 2 ^ 32 }
{
    let mut end: usize = 0;
    'pairs: for pair in pairs {
        end = end_with(end, pair.0);
    }
    end
}

// A number above the test and not below the other one.
fn end_with(end: usize, test: u32) -> usize
    requires { end ≤ 2 ^ 32 }
    ensures kept { end ≤ result }
    ensures above { test < result }
    ensures few { result ≤ 2 ^ 32 }
{
    end.max(test as usize + 1)
}
