//! Findings in which somebody may be allowed something. Below one in which nobody is, nothing need be
//! looked at.
ghost use Rattle.std.specs.Prelude.{◌≡◌, All, IfOk, IfSome};
ghost use Rattle.findings.specs.Findings.{IsFinding};
ghost use Rattle.findings.specs.Nobody.{IsPartedBy, KeepInhabited};
ghost use Rattle.findings.specs.RegionQueries.{AsksSomeRegion};
ghost use Rattle.findings.specs.Screening.{DropsPlainlyEmpty};

use crate::decide::{Asked, Decide};
use crate::known::KnownAnswers;
use crate::less::is_marked;
use crate::nobody::ask_inside;
use crate::outcome::{Finding, FindingList};
use crate::own::lies_in;
use crate::screening::without_nobody;
use crate::steps::copy_of;
use formula_tree::{Branches, Formula};
use plain_lists::{List, NoMemory};
use policy_compile::Query;
use policy_model::Request;
use std::alloc::Global;
use strata::Strata;

/// The fewest findings that are asked together. Fewer are looked at one by one for as little.
const FEWEST_TOGETHER: usize = 8;

/// The most requests that are kept.
const MOST_SAMPLES: usize = 4_096;

/// How many questions may be asked in vain, besides one for each finding that was left out. Of a large formula each
/// counts as several.
const MOST_IN_VAIN: usize = 64;

/// A question counts as one more for each so many parts of the formula.
const PARTS_FOR_ONE: usize = 16_384;

/// How many parts of the formula may be looked at in vain to see that nobody plainly is allowed anything, besides those
/// that were looked at for findings that were left out.
const MOST_PARTS: usize = 500_000_000;

/// What is known of where somebody is allowed something.
#[derive(Drop)]
pub(crate) struct Samples {
    alloc: Global,
    /// Requests of the region.
    requests: Vec<Request>,
    /// How many more questions may be asked that leave nothing out.
    left: usize,
    /// How many more parts of the formula may be looked at in vain.
    parts: usize,
}

// The findings that aren't marked, and those that are.
fn parted(
    alloc: Global,
    findings: &FindingList,
    marks: &[bool],
) -> Result<(FindingList, FindingList), NoMemory>
    ensures { IfOk result (IsPartedBy findings.now) }
{
    let (mut open, mut marked) = (List::new(alloc), List::new(alloc));
    'findings: for i in 0..findings.len() {
        let finding = copy_of(alloc, &findings.as_slice()[i])?;
        if is_marked(marks, i) {
            marked.push(finding)?;
        } else {
            open.push(finding)?;
        }
    }
    Ok((open, marked))
}

// Whether the finding is that of every request. Right under it each predicate stands alone, and hardly one has
// nobody.
fn is_first(finding: &Finding) -> bool {
    'numbers: for number in finding.as_slice() {
        if *number != 0 {
            return false;
        }
    }
    true
}

// How many parts the formula has.
#[cycle(parts)]
fn parts_of(formula: &Formula) -> usize {
    match formula {
        Formula::Yes | Formula::No | Formula::Test(_) => 1,
        Formula::Not(inner) => parts_of(inner).saturating_add(1),
        Formula::All(branches) | Formula::OneOf(branches) => {
            parts_of_each(branches).saturating_add(1)
        }
    }
}

// How many the branches have.
#[cycle(parts)]
fn parts_of_each(branches: &Branches) -> usize {
    let mut parts: usize = 0;
    'branches: for i in 0..branches.len() {
        let Some(branch) = branches.get(i) else {
            break;
        };
        parts = parts.saturating_add(parts_of(branch));
    }
    parts
}

// The marks, and one more for each finding in which the request lies. Nothing rests on them but which findings are
// asked of.
fn marked_by(
    alloc: Global,
    strata: &Strata,
    findings: &FindingList,
    marks: &[bool],
    request: &Request,
) -> Result<Vec<bool>, NoMemory>
    requires { All (IsFinding strata.now.dimensions) findings.now }
{
    let mut more = Vec::new(alloc);
    'findings: for i in 0..findings.len() {
        let here = is_marked(marks, i) || lies_in(strata, &findings.as_slice()[i], request);
        more.push(here)?;
    }
    Ok(more)
}

impl Samples {
    /// Nothing is known.
    pub(crate) fn new(alloc: Global) -> Samples {
        Samples {
            alloc,
            requests: Vec::new(alloc),
            left: MOST_IN_VAIN,
            parts: MOST_PARTS,
        }
    }

    // Marks of those of the findings, all under the first, in which a known request lies.
    fn marks(
        &self,
        strata: &Strata,
        finding: &Finding,
        under: &FindingList,
    ) -> Result<Vec<bool>, NoMemory>
        requires finding { IsFinding strata.now.dimensions finding.now }
        requires under { All (IsFinding strata.now.dimensions) under.now }
    {
        let mut marks = Vec::new(self.alloc);
        'samples: for i in 0..self.requests.len() {
            let request = &self.requests[i];
            if lies_in(strata, finding, request) {
                marks = marked_by(self.alloc, strata, under, marks.as_slice(), request)?;
            }
        }
        Ok(marks)
    }

    // Somebody is allowed something in the formula of so many parts: the request is kept, while there is room.
    fn keep(&mut self, request: Request, parts: usize) -> Result<(), NoMemory> {
        self.left = self
            .left
            .saturating_sub((parts / PARTS_FOR_ONE).saturating_add(1));
        if self.requests.len() < MOST_SAMPLES {
            self.requests.push(request)?;
        }
        Ok(())
    }

    // Asks once of the findings that aren't marked. Gives the others where nobody is allowed anything in these.
    fn ask<D: Decide>(
        &mut self,
        strata: &Strata,
        base: &Query,
        asks: &mut D,
        under: &FindingList,
        marks: &mut Vec<bool>,
    ) -> Result<Option<FindingList>, NoMemory>
        requires made { AsksSomeRegion (D.schema asks.old) base.now strata.now }
        requires under { All (IsFinding strata.now.dimensions) under.now }
        ensures kept { IfOk result (λ kept.
            IfSome kept (KeepInhabited (D.schema asks.old) base.now strata.now under.now)) }
        ensures schema { D.schema asks.new ≡ D.schema asks.old }
        ensures splits { D.splits asks.new ≡ D.splits asks.old }
        ensures states { D.states asks.new ≡ D.states asks.old }
    {
        let (open, marked) = parted(self.alloc, under, marks.as_slice())?;
        let asked = ask_inside(self.alloc, strata, base, asks, &open)?;
        match asked {
            Asked::Nobody => {
                self.left = self.left.saturating_add(open.len());
                Ok(Some(marked))
            }
            Asked::Met(request) => {
                *marks = marked_by(self.alloc, strata, under, marks.as_slice(), &request)?;
                self.keep(request, parts_of(&base.formula))?;
                Ok(None)
            }
            Asked::OutOfSplits | Asked::OutOfStates(_) => {
                self.left = 0;
                Ok(None)
            }
        }
    }

    /// Those of the findings right under the first for which it isn't plain that they have nobody; or all of them
    /// where too many were looked at in vain.
    pub(crate) fn likely(
        &mut self,
        known: &KnownAnswers,
        finding: &Finding,
        under: FindingList,
    ) -> Result<FindingList, NoMemory>
        ensures { IfOk result (DropsPlainlyEmpty known.now under) }
    {
        if self.parts == 0 || under.is_empty() {
            return Ok(under);
        }
        let parts = parts_of(&known.less.query.formula);
        let count = under.len();
        let kept = without_nobody(self.alloc, known, finding, under)?;
        let spared = count.saturating_sub(kept.len()).saturating_mul(parts);
        let spent = kept.len().saturating_mul(parts);
        self.parts = self.parts.saturating_add(spared).saturating_sub(spent);
        Ok(kept)
    }

    /// Those of the findings right under the first in which somebody may be allowed something.
    pub(crate) fn inhabited<D: Decide>(
        &mut self,
        strata: &Strata,
        base: &Query,
        asks: &mut D,
        finding: &Finding,
        under: FindingList,
    ) -> Result<FindingList, NoMemory>
        requires made { AsksSomeRegion (D.schema asks.old) base.now strata.now }
        requires finding { IsFinding strata.now.dimensions finding.now }
        requires under { All (IsFinding strata.now.dimensions) under }
        ensures kept { IfOk result (KeepInhabited (D.schema asks.old) base.now strata.now under) }
        ensures schema { D.schema asks.new ≡ D.schema asks.old }
        ensures splits { D.splits asks.new ≡ D.splits asks.old }
        ensures states { D.states asks.new ≡ D.states asks.old }
    {
        if finding.len() < 2 || under.len() < FEWEST_TOGETHER {
            return Ok(under);
        }
        if is_first(finding) {
            return Ok(under);
        }
        let mut marks = self.marks(strata, finding, &under)?;
        'questions: for _ in 0..under.len() / FEWEST_TOGETHER + 1 {
            if self.left == 0 {
                break;
            }
            if let Some(kept) = self.ask(strata, base, asks, &under, &mut marks)? {
                return Ok(kept);
            }
        }
        Ok(under)
    }
}
