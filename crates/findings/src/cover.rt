//! The query of a cover.
ghost use Rattle.std.specs.Prelude.{◌≡◌, [], All, IfOk, OnOk, map};
ghost use Rattle.formula_tree.specs.Trees.{tree_of, trees_of};
ghost use Rattle.findings.specs.Asked.{AreAsked, IsAsked};
ghost use Rattle.findings.specs.CoverQueries.{IsCoverAnswer, IsCoverAsked, inside_plan, lies_plan, outside_plan};
ghost use Rattle.findings.specs.Findings.{IsFinding};
ghost use Rattle.findings.specs.Queries.{AreMade};

use crate::numbering::Numbering;
use crate::outcome::{Finding, FindingList};
use formula_tree::{Branches, Formula};
use plain_lists::NoMemory;
use policy_compile::Query;
use std::alloc::{AllocError, Global};
use std::rc::Rc;
use strata::Strata;

/// The most tests of a cover's query, as of each query.
pub(crate) const MOST_COVER_TESTS: usize = 1_000;

/// Why there is no query of a cover.
#[derive(Clone, Copy)]
pub enum CoverFault {
    /// There are more than 1,000 different tests.
    TooManyTests,
    /// There was no memory.
    NoMemory,
}

impl From<AllocError> for CoverFault {
    ghost use Rattle.std.specs.Prelude.{◌≡◌};
    ghost use Rattle.findings.specs.declared.cover.CoverFault.TheVariants.{NoMemory};

    ghost from_gives = { λ _ e. e ≡ NoMemory };

    fn from(_: AllocError) -> Self {
        CoverFault::NoMemory
    }
}

// The formula that the request lies in the finding.
fn lies_in(
    alloc: Global,
    numbering: &mut Numbering,
    strata: &Strata,
    finding: &Finding,
) -> Result<Rc<Formula>, NoMemory>
    requires { IsFinding strata.now.dimensions finding.now }
    ensures { IfOk result (λ f. IsAsked numbering.old.tests.keys numbering.new.tests.keys
        (lies_plan strata.now.dimensions finding.now) (tree_of f.value)) }
{
    let mut branches = Branches::new(alloc);
    numbering.add_own(&mut branches, strata, finding)?;
    let formula = Rc::new(alloc, Formula::All(branches))?;
    Ok(formula)
}

// Adds for each finding the formula that the request lies in it.
fn add_each(
    alloc: Global,
    numbering: &mut Numbering,
    branches: &mut Branches,
    strata: &Strata,
    findings: &FindingList,
) -> Result<(), NoMemory>
    requires { All (IsFinding strata.now.dimensions) findings.now }
    ensures { OnOk result (AreAsked numbering.old.tests.keys numbering.new.tests.keys
        (map (lies_plan strata.now.dimensions) findings.now)
        (trees_of branches.old) (trees_of branches.new)) }
{
    'findings: for finding in findings.as_slice() {
        branches.push(lies_in(alloc, numbering, strata, finding)?)?;
    }
    Ok(())
}

/// The formula that it lies in one of them.
pub(crate) fn lies_in_some(
    alloc: Global,
    numbering: &mut Numbering,
    strata: &Strata,
    findings: &FindingList,
) -> Result<Rc<Formula>, NoMemory>
    requires { All (IsFinding strata.now.dimensions) findings.now }
    ensures { IfOk result (λ f. IsAsked numbering.old.tests.keys numbering.new.tests.keys
        (inside_plan strata.now.dimensions findings.now) (tree_of f.value)) }
{
    let mut branches = Branches::new(alloc);
    add_each(alloc, numbering, &mut branches, strata, findings)?;
    let formula = Rc::new(alloc, Formula::OneOf(branches))?;
    Ok(formula)
}

// The formula that it lies in none of them.
fn lies_in_none(
    alloc: Global,
    numbering: &mut Numbering,
    strata: &Strata,
    findings: &FindingList,
) -> Result<Rc<Formula>, NoMemory>
    requires { All (IsFinding strata.now.dimensions) findings.now }
    ensures { IfOk result (λ f. IsAsked numbering.old.tests.keys numbering.new.tests.keys
        (outside_plan strata.now.dimensions findings.now) (tree_of f.value)) }
{
    let some = lies_in_some(alloc, numbering, strata, findings)?;
    let formula = Rc::new(alloc, Formula::Not(some))?;
    Ok(formula)
}

// The formula of the cover, where there are no tests yet. The region's own query comes first, so its tests
// keep their numbers.
fn cover_formula(
    alloc: Global,
    numbering: &mut Numbering,
    strata: &Strata,
    base: &Query,
    findings: &FindingList,
) -> Result<Rc<Formula>, NoMemory>
    requires made { AreMade base.now strata.now }
    requires findings { All (IsFinding strata.now.dimensions) findings.now }
    requires tests { numbering.old.tests.keys ≡ [] }
    ensures { IfOk result (λ f. IsCoverAsked base.now strata.now.dimensions findings.now
        numbering.new.tests.keys (tree_of f.value)) }
{
    let mut branches = Branches::new(alloc);
    branches.push(numbering.renumbered(base)?)?;
    branches.push(lies_in_none(alloc, numbering, strata, findings)?)?;
    let formula = Rc::new(alloc, Formula::All(branches))?;
    Ok(formula)
}

/// The query of a cover: that the query of the region holds, and that no finding does. On a valid request
/// it holds exactly where the request lies in the region and in none of the findings. So where it is refuted,
/// the findings leave out nobody.
///
/// `base` is the query of the region and `strata` are those of `base`, under one schema. `TooManyTests`
/// comes exactly where the query has more than 1,000 different tests. How many pieces their patterns have
/// isn't limited.
pub fn cover_query(
    alloc: Global,
    strata: &Strata,
    base: &Query,
    findings: &FindingList,
) -> Result<Query, CoverFault>
    requires made { AreMade base.now strata.now }
    requires findings { All (IsFinding strata.now.dimensions) findings.now }
    ensures { IsCoverAnswer base.now strata.now findings.now result }
{
    let mut numbering = Numbering::new(alloc);
    let formula = cover_formula(alloc, &mut numbering, strata, base, findings)?;
    let tests = numbering.into_tests()?;
    if tests.len() > MOST_COVER_TESTS {
        return Err(CoverFault::TooManyTests);
    }
    Ok(Query { formula, tests })
}
