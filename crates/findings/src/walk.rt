//! The walk down from the finding of every request. A finding is looked at where each one that it is
//! right under was looked at and has no request of its own, so each is looked at once, and none that has
//! an irreducible one above.
ghost use Rattle.std.specs.Prelude.{◌≡◌, ◌++◌, ◌∷◌, [], IfErr, IfOk, MatchBool, OnOk};
ghost use Rattle.findings.specs.Findings.{IsFinding};
ghost use Rattle.findings.specs.KnownAnswers.{AreKnownAnswers, IsMetTable};
ghost use Rattle.findings.specs.Queries.{AreMadeUnder};
ghost use Rattle.findings.specs.RegionQueries.{AsksSomeRegion};
ghost use Rattle.findings.specs.Steps.{AreNumberedBelow};
ghost use Rattle.findings.specs.Walks.{first_finding};

use crate::decide::{Asked, Decide};
use crate::inhabited::Samples;
use crate::known::KnownAnswers;
use crate::outcome::{Finding, FindingList, SummaryFault};
use crate::query::answer_on;
use crate::reading::is_among;
use crate::steps::{add_copies, add_under, are_above_in, copy_of};
use indexmap::IndexSet;
use plain_lists::{List, NoMemory};
use policy_compile::Query;
use policy_model::Request;
use std::alloc::Global;
use std::collections::BTreeMap;
use strata::Strata;

/// Where a walk stands.
#[derive(Drop)]
pub(crate) struct Walk {
    alloc: Global,
    /// Findings that may come next. One may stand here several times.
    pub(crate) coming: Vec<Finding>,
    /// Those that were looked at.
    pub(crate) looked: IndexSet<Finding>,
    /// Those of them that have no request of their own.
    pub(crate) reducible: IndexSet<Finding>,
    /// The others by their numbers, each with a request of its own.
    pub(crate) found: BTreeMap<Vec<u32>, Request>,
    /// What is known of where somebody is allowed something.
    samples: Samples,
}

// The finding of every request.
fn first_finding(alloc: Global, strata: &Strata) -> Result<Finding, NoMemory>
    ensures { IfOk result (λ f. f ≡ first_finding strata.now.dimensions) }
{
    let mut finding = List::new(alloc);
    'dimensions: for _ in 0..strata.dimensions.len() {
        finding.push(0)?;
    }
    Ok(finding)
}

impl Walk {
    ghost use Rattle.findings.specs.Walked.{AddsFound, AddsReducible, AreFindings, GoesBelow, IsDue, IsNextFinding, IsPassedFinding, IsTaken, LookFails, SameBesides, StandsAt, StartsAt};

    /// The walk before anything is looked at.
    pub(crate) fn start(alloc: Global, strata: &Strata) -> Result<Walk, NoMemory>
        ensures { IfOk result (StartsAt strata.now.dimensions) }
    {
        let mut coming = Vec::new(alloc);
        coming.push(first_finding(alloc, strata)?)?;
        Ok(Walk {
            alloc,
            coming,
            looked: IndexSet::new(alloc),
            reducible: IndexSet::new(alloc),
            found: BTreeMap::new(alloc),
            samples: Samples::new(alloc),
        })
    }

    // Whether the finding is to be looked at now.
    fn is_due(&self, strata: &Strata, finding: &Finding) -> Result<bool, NoMemory>
        requires finding { IsFinding strata.now.dimensions finding.now }
        requires numbered { AreNumberedBelow strata.now.dimensions }
        ensures { IfOk result
            (λ due. MatchBool due (IsDue strata.now.dimensions self.now finding.now)
            (IsPassedFinding strata.now.dimensions self.now finding.now)) }
    {
        if is_among(&self.looked, finding) {
            return Ok(false);
        }
        let due = are_above_in(self.alloc, strata, &self.reducible, finding)?;
        Ok(due)
    }

    /// The next finding to be looked at, or none where the walk is at its end.
    pub(crate) fn next(&mut self, strata: &Strata) -> Result<Option<Finding>, NoMemory>
        requires findings { AreFindings strata.now.dimensions self.old.coming.items }
        requires numbered { AreNumberedBelow strata.now.dimensions }
        ensures next { IfOk result (IsNextFinding strata.now.dimensions self.old self.new) }
        ensures same { OnOk result (SameBesides self.old self.new) }
    {
        'coming: for _ in 0..self.coming.len() {
            let Some(finding) = self.coming.pop() else {
                break;
            };
            if self.is_due(strata, &finding)? {
                return Ok(Some(finding));
            }
        }
        Ok(None)
    }

    /// Looks at the finding, which is due.
    pub(crate) fn look_at<D: Decide>(
        &mut self,
        strata: &Strata,
        base: &Query,
        known: &KnownAnswers,
        asks: &mut D,
        finding: Finding,
    ) -> Result<(), SummaryFault>
        requires made { AreMadeUnder (D.schema asks.old) base.now strata.now }
        requires known { AreKnownAnswers (D.schema asks.old) base.now strata.now known.now }
        requires due { IsTaken (D.schema asks.old) base.now strata.now self.old finding }
        ensures looked { OnOk result (self.new.looked.keys ≡ self.old.looked.keys ++ finding ∷ []) }
        ensures stands { OnOk result
            (StandsAt (D.schema asks.old) base.now strata.now self.new) }
        ensures fault { IfErr result (LookFails (D.schema asks.old) base.now strata.now
            (D.splits asks.old) (D.states asks.old)) }
        ensures schema { D.schema asks.new ≡ D.schema asks.old }
        ensures splits { D.splits asks.new ≡ D.splits asks.old }
        ensures states { D.states asks.new ≡ D.states asks.old }
    {
        let answer = answer_on(self.alloc, strata, base, known, asks, &finding)?;
        match answer {
            Asked::Met(request) => {
                self.add_found(finding, request)?;
                Ok(())
            }
            Asked::Nobody => {
                self.go_below(strata, known, asks, finding)?;
                Ok(())
            }
            Asked::OutOfSplits => Err(SummaryFault::OutOfSplits(finding)),
            Asked::OutOfStates(wide) => Err(SummaryFault::OutOfStates(finding, wide)),
        }
    }

    // The finding was looked at and the request is its own.
    fn add_found(&mut self, finding: Finding, request: Request) -> Result<(), NoMemory>
        ensures { OnOk result (AddsFound self.old finding request self.new) }
    {
        self.looked.insert(copy_of(self.alloc, &finding)?)?;
        self.found.insert(finding.into_vec(), request)?;
        Ok(())
    }

    // The finding was looked at and has no request of its own: those right under it may come next in which
    // somebody may be allowed something.
    fn go_below<D: Decide>(
        &mut self,
        strata: &Strata,
        known: &KnownAnswers,
        asks: &mut D,
        finding: Finding,
    ) -> Result<(), NoMemory>
        requires made { AsksSomeRegion (D.schema asks.old) known.now.less.query strata.now }
        requires known { IsMetTable (D.schema asks.old) strata.now known.now }
        requires finding { IsFinding strata.now.dimensions finding }
        requires numbered { AreNumberedBelow strata.now.dimensions }
        ensures below { OnOk result
            (GoesBelow (D.schema asks.old) known.now strata.now self.old finding self.new) }
        ensures schema { D.schema asks.new ≡ D.schema asks.old }
        ensures splits { D.splits asks.new ≡ D.splits asks.old }
        ensures states { D.states asks.new ≡ D.states asks.old }
    {
        let mut under = Vec::new(self.alloc);
        add_under(self.alloc, &mut under, strata, &finding)?;
        let under = List::from_vec(under);
        let likely = self.samples.likely(known, &finding, under)?;
        let less = &known.less.query;
        let inhabited = self
            .samples
            .inhabited(strata, less, asks, &finding, likely)?;
        self.add_reducible(finding, &inhabited)
    }

    // The finding was looked at and has no request of its own, and these may come next.
    fn add_reducible(&mut self, finding: Finding, more: &FindingList) -> Result<(), NoMemory>
        ensures { OnOk result (AddsReducible self.old finding more.now self.new) }
    {
        self.looked.insert(copy_of(self.alloc, &finding)?)?;
        add_copies(self.alloc, &mut self.coming, more)?;
        self.reducible.insert(finding)?;
        Ok(())
    }
}
