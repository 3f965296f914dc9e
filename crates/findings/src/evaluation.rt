//! Whether a request lies in a region, by the query of the region.
ghost use Rattle.std.specs.Prelude.{◌≡◌, IfOk, length};
ghost use Rattle.formula_tree.specs.Trees.{children_of, tree_of};
ghost use Rattle.formula_tree.specs.Values.{AreBelow, EachBelow, each_holds, holds, some_holds};
ghost use Rattle.findings.specs.Judging.{AreAnswersOf, DecidesAllowed, nth_answer};

use formula_tree::{Branches, Formula};
use plain_lists::NoMemory;
use policy_compile::Query;
use policy_model::{Request, Test, test_holds};
use std::alloc::Global;

// What the tests answer on the request, in the order of their numbers.
fn answers_of(alloc: Global, tests: &[Test], request: &Request) -> Result<Vec<bool>, NoMemory>
    ensures { IfOk result (λ v. AreAnswersOf request.now tests.now v.items) }
{
    let mut answers = Vec::new(alloc);
    'tests: for test in tests {
        answers.push(test_holds(test, request))?;
    }
    Ok(answers)
}

// Whether the formula holds where the tests have these answers.
#[cycle(evaluation)]
fn holds_by(answers: &[bool], formula: &Formula) -> bool
    requires { AreBelow (length answers.now) (tree_of formula.now) }
    ensures { result ≡ holds (nth_answer answers.now) (tree_of formula.now) }
{
    match formula {
        Formula::Yes => true,
        Formula::No => false,
        Formula::Test(test) => answers[*test as usize],
        Formula::Not(inner) => !holds_by(answers, inner),
        Formula::All(branches) => each_holds_by(answers, branches),
        Formula::OneOf(branches) => some_holds_by(answers, branches),
    }
}

// Whether each branch holds.
#[cycle(evaluation)]
fn each_holds_by(answers: &[bool], branches: &Branches) -> bool
    requires { EachBelow (length answers.now) (children_of branches.now) }
    ensures { result ≡ each_holds (nth_answer answers.now) (children_of branches.now) }
{
    'branches: for i in 0..branches.len() {
        let Some(branch) = branches.get(i) else {
            break;
        };
        if !holds_by(answers, branch) {
            return false;
        }
    }
    true
}

// Whether some branch holds.
#[cycle(evaluation)]
fn some_holds_by(answers: &[bool], branches: &Branches) -> bool
    requires { EachBelow (length answers.now) (children_of branches.now) }
    ensures { result ≡ some_holds (nth_answer answers.now) (children_of branches.now) }
{
    'branches: for i in 0..branches.len() {
        let Some(branch) = branches.get(i) else {
            break;
        };
        if holds_by(answers, branch) {
            return true;
        }
    }
    false
}

/// Whether the valid request lies in the region whose query is `base`. Each test is asked once.
pub(crate) fn is_allowed(alloc: Global, base: &Query, request: &Request) -> Result<bool, NoMemory>
    requires { AreBelow (length base.now.tests) (tree_of base.now.formula.value) }
    ensures { IfOk result (DecidesAllowed base.now request.now) }
{
    let answers = answers_of(alloc, base.tests.as_slice(), request)?;
    Ok(holds_by(answers.as_slice(), &base.formula))
}
