//! The query of the cover of a list of findings.
ghost use Rattle.std.specs.Prelude.{◌≡◌, All, IfOk};
ghost use Rattle.findings.specs.Findings.{IsFinding};
ghost use Rattle.findings.specs.Summaries.{findings_of};
ghost use Rattle.run_inputs.specs.Printing.{OrAnswered};
ghost use Rattle.findings.specs.CoverQueries.{IsCoverOf};
ghost use Rattle.findings.specs.Queries.{AreMade};
ghost use Rattle.certified_summaries.specs.CoverProofs.{IsLargePrinted};

use crate::text::cover_tests_line;
use findings::{CoverFault, Finding, FindingList, Summary, cover_query};
use plain_lists::{List, NoMemory};
use policy_compile::Query;
use run_inputs::{EarlyEnd, Status};
use std::alloc::Global;
use strata::Strata;
use summary_answers::ended;

// An equal finding.
fn copy_of(alloc: Global, finding: &Finding) -> Result<Finding, NoMemory>
    ensures { IfOk result (λ f. f ≡ finding.now) }
{
    Ok(List::from_vec(Vec::from_slice(alloc, finding.as_slice())?))
}

// The findings of a list, without their requests.
fn findings_of(alloc: Global, summary: &Summary) -> Result<FindingList, NoMemory>
    ensures { IfOk result (λ fs. fs ≡ findings_of summary.now) }
{
    let mut findings = FindingList::new(alloc);
    for pair in summary.as_slice() {
        findings.push(copy_of(alloc, &pair.0)?)?;
    }
    Ok(findings)
}

/// The query of the cover of a list's findings: whether a request of the region whose query `base` is lies in none
/// of them. Or the line on that query, where it has more than 1,000 tests.
pub(crate) fn cover_of(
    alloc: Global,
    strata: &Strata,
    base: &Query,
    summary: &Summary,
) -> Result<Query, EarlyEnd>
    requires made { AreMade base.now strata.now }
    requires findings { All (IsFinding strata.now.dimensions) (findings_of summary.now) }
    ensures { OrAnswered result (IsCoverOf base.now strata.now (findings_of summary.now))
        (IsLargePrinted base.now strata.now (findings_of summary.now)) }
{
    let findings = findings_of(alloc, summary)?;
    match cover_query(alloc, strata, base, &findings) {
        Ok(query) => Ok(query),
        Err(CoverFault::TooManyTests) => Err(ended(cover_tests_line(alloc), Status::Refused)),
        Err(CoverFault::NoMemory) => Err(EarlyEnd::NoMemory),
    }
}
