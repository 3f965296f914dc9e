//! Tests that are numbered in the order in which they are first asked, and the formulas that ask them.
ghost use Rattle.std.specs.Prelude.{◌≡◌, ◌<◌, ◌^◌, [], IfOk, OnOk, length, map};
ghost use Rattle.formula_tree.specs.Trees.{children_of, tree_of, trees_of};
ghost use Rattle.formula_tree.specs.Values.{AreBelow, EachBelow};
ghost use Rattle.findings.specs.Findings.{IsFinding};
ghost use Rattle.findings.specs.Renumbering.{renumbered_tree, renumbered_each};

use crate::outcome::Finding;
use crate::reading::{dimension_at, predicate_number_at};
use formula_tree::{Branches, Formula};
use indexmap::IndexSet;
use plain_lists::{EqualClone, List, NoMemory};
use policy_compile::Query;
use policy_model::{Test, TestList};
use std::alloc::{AllocError, Global};
use std::rc::Rc;
use strata::{Strata, Stratum, test_of};

/// The tests so far, in the order of their numbers. There is no memory for more than 4,294,967,295.
#[derive(Drop)]
pub(crate) struct Numbering {
    alloc: Global,
    pub(crate) tests: IndexSet<Test>,
    ghost few: { length tests.keys < 2 ^ 32 },
}

// The formula with each test's number replaced by the one at its index.
#[cycle(renumber)]
fn renumber(alloc: Global, numbers: &[u32], formula: &Formula) -> Result<Formula, NoMemory>
    requires { AreBelow (length numbers.now) (tree_of formula.now) }
    ensures { IfOk result (λ f. tree_of f ≡ renumbered_tree numbers.now (tree_of formula.now)) }
{
    match formula {
        Formula::Yes => Ok(Formula::Yes),
        Formula::No => Ok(Formula::No),
        Formula::Test(test) => Ok(Formula::Test(numbers[*test as usize])),
        Formula::Not(inner) => {
            let inner = renumber(alloc, numbers, inner)?;
            Ok(Formula::Not(Rc::new(alloc, inner)?))
        }
        Formula::All(branches) => Ok(Formula::All(renumber_each(alloc, numbers, branches)?)),
        Formula::OneOf(branches) => Ok(Formula::OneOf(renumber_each(alloc, numbers, branches)?)),
    }
}

#[cycle(renumber)]
fn renumber_each(alloc: Global, numbers: &[u32], branches: &Branches) -> Result<Branches, NoMemory>
    requires { EachBelow (length numbers.now) (children_of branches.now) }
    ensures { IfOk result (λ b. children_of b ≡
        renumbered_each numbers.now (children_of branches.now)) }
{
    let mut renumbered = Branches::new(alloc);
    'branches: for i in 0..branches.len() {
        let Some(branch) = branches.get(i) else {
            break;
        };
        let branch = renumber(alloc, numbers, branch)?;
        renumbered.push(Rc::new(alloc, branch)?)?;
    }
    Ok(renumbered)
}

impl Numbering {
    ghost use Rattle.findings.specs.Asked.{AreAsked, AreNumbersOf, HasTestNumber, IsAsked, IsRenumbered, no_finer_plan};
    ghost use Rattle.findings.specs.Steps.{AreNumberedBelow, IsNumberedBelow};
    ghost use Rattle.findings.specs.Queries.{finer_plans, number_plan, numbers_below, own_plans, plan_or_yes};

    /// No tests yet.
    pub(crate) fn new(alloc: Global) -> Numbering
        ensures { result.tests.keys ≡ [] }
    {
        Numbering {
            alloc,
            tests: IndexSet::new(alloc),
        }
    }

    // The number of the test, which gets the next one where it is new.
    fn number(&mut self, test: Test) -> Result<u32, NoMemory>
        ensures { IfOk result (HasTestNumber self.old.tests.keys self.new.tests.keys test) }
    {
        if self.tests.len() >= u32::MAX as usize {
            return Err(AllocError);
        }
        let (number, _) = self.tests.insert_full(test)?;
        Ok(number as u32)
    }

    // The formula that asks the test, or the one that always holds where there is none.
    fn ask(&mut self, test: Option<Test>) -> Result<Rc<Formula>, NoMemory>
        ensures { IfOk result (λ f. IsAsked self.old.tests.keys self.new.tests.keys
            (plan_or_yes test) (tree_of f.value)) }
    {
        let Some(test) = test else {
            return Ok(Rc::new(self.alloc, Formula::Yes)?);
        };
        let number = self.number(test)?;
        Ok(Rc::new(self.alloc, Formula::Test(number))?)
    }

    // The formula that asks the predicate of a number.
    fn ask_predicate(&mut self, stratum: &Stratum, number: usize) -> Result<Rc<Formula>, NoMemory>
        requires { number < length stratum.now.predicates }
        ensures { IfOk result (λ f. IsAsked self.old.tests.keys self.new.tests.keys
            (number_plan stratum.now number) (tree_of f.value)) }
    {
        let predicate = &stratum.predicates.as_slice()[number];
        let test = test_of(&stratum.slot, predicate)?;
        self.ask(test)
    }

    /// Adds the predicates of the finding.
    pub(crate) fn add_own(
        &mut self,
        branches: &mut Branches,
        strata: &Strata,
        finding: &Finding,
    ) -> Result<(), NoMemory>
        requires { IsFinding strata.now.dimensions finding.now }
        ensures { OnOk result (AreAsked self.old.tests.keys self.new.tests.keys
            (own_plans strata.now.dimensions finding.now)
            (trees_of branches.old) (trees_of branches.new)) }
    {
        'dimensions: for i in 0..finding.len() {
            let number = predicate_number_at(finding, i) as usize;
            branches.push(self.ask_predicate(dimension_at(strata, i), number)?)?;
        }
        Ok(())
    }

    // Adds the predicates of a dimension that are maximal strictly below that of a number.
    fn add_finer_at(
        &mut self,
        branches: &mut Branches,
        stratum: &Stratum,
        number: usize,
    ) -> Result<(), NoMemory>
        requires within { number < length stratum.now.below }
        requires numbers { IsNumberedBelow stratum.now }
        ensures { OnOk result (AreAsked self.old.tests.keys self.new.tests.keys
            (map (number_plan stratum.now) (numbers_below stratum.now number))
            (trees_of branches.old) (trees_of branches.new)) }
    {
        'below: for lower in stratum.below.as_slice()[number].as_slice() {
            branches.push(self.ask_predicate(stratum, *lower as usize)?)?;
        }
        Ok(())
    }

    // Adds those of each dimension.
    fn add_finer(
        &mut self,
        branches: &mut Branches,
        strata: &Strata,
        finding: &Finding,
    ) -> Result<(), NoMemory>
        requires finding { IsFinding strata.now.dimensions finding.now }
        requires numbers { AreNumberedBelow strata.now.dimensions }
        ensures { OnOk result (AreAsked self.old.tests.keys self.new.tests.keys
            (finer_plans strata.now.dimensions finding.now)
            (trees_of branches.old) (trees_of branches.new)) }
    {
        'dimensions: for i in 0..finding.len() {
            let number = predicate_number_at(finding, i) as usize;
            self.add_finer_at(branches, dimension_at(strata, i), number)?;
        }
        Ok(())
    }

    /// That none of them holds.
    pub(crate) fn no_finer(
        &mut self,
        strata: &Strata,
        finding: &Finding,
    ) -> Result<Rc<Formula>, NoMemory>
        requires finding { IsFinding strata.now.dimensions finding.now }
        requires numbers { AreNumberedBelow strata.now.dimensions }
        ensures { IfOk result (λ f. IsAsked self.old.tests.keys self.new.tests.keys
            (no_finer_plan strata.now.dimensions finding.now) (tree_of f.value)) }
    {
        let mut branches = Branches::new(self.alloc);
        self.add_finer(&mut branches, strata, finding)?;
        let some = Rc::new(self.alloc, Formula::OneOf(branches))?;
        let formula = Rc::new(self.alloc, Formula::Not(some))?;
        Ok(formula)
    }

    // The numbers of tests. A new test gets the next number.
    fn numbers(&mut self, tests: &TestList) -> Result<Vec<u32>, NoMemory>
        ensures { IfOk result (λ numbers. AreNumbersOf self.old.tests.keys self.new.tests.keys
            tests.now numbers.items) }
    {
        let mut numbers = Vec::new(self.alloc);
        'tests: for test in tests.as_slice() {
            numbers.push(self.number(test.copy()?)?)?;
        }
        Ok(numbers)
    }

    /// The formula of the query, with its tests numbered after those that are had.
    pub(crate) fn renumbered(&mut self, base: &Query) -> Result<Rc<Formula>, NoMemory>
        requires { AreBelow (length base.now.tests) (tree_of base.now.formula.value) }
        ensures { IfOk result (λ f. IsRenumbered self.old.tests.keys self.new.tests.keys
            base.now (tree_of f.value)) }
    {
        let numbers = self.numbers(&base.tests)?;
        let formula = renumber(self.alloc, numbers.as_slice(), &base.formula)?;
        Ok(Rc::new(self.alloc, formula)?)
    }

    /// The tests in the order of their numbers.
    pub(crate) fn into_tests(self) -> Result<TestList, NoMemory>
        ensures tests { IfOk result (λ tests. tests ≡ self.tests.keys) }
        ensures few { IfOk result (λ tests. length tests < 2 ^ 32) }
    {
        let tests: Vec<Test> = self.tests.into_iter().collect(self.alloc)?;
        Ok(List::from_vec(tests))
    }
}
