//! Whose a finding is, by what is left of the region's query.
ghost use Rattle.std.specs.Prelude.{◌≡◌, IfOk, IfSome};
ghost use Rattle.findings.specs.Asking.{IsOwnQuery, IsOwnTold, IsToldOf};
ghost use Rattle.findings.specs.Findings.{IsFinding};
ghost use Rattle.findings.specs.RegionQueries.{AsksSomeRegion, AsksUnderSome};

use crate::beside::with_region;
use crate::decide::{Asked, Decide};
use crate::granted::lying_formula;
use crate::numbering::Numbering;
use crate::outcome::Finding;
use plain_lists::NoMemory;
use policy_compile::Query;
use std::alloc::Global;
use strata::Strata;

// The query that a request lies in the finding, in no finer one, and in the region.
fn own_query(
    alloc: Global,
    strata: &Strata,
    less: &Query,
    finding: &Finding,
) -> Result<Query, NoMemory>
    requires made { AsksUnderSome less.now strata.now }
    requires finding { IsFinding strata.now.dimensions finding.now }
    ensures { IfOk result (IsOwnQuery less.now strata.now finding.now) }
{
    let mut numbering = Numbering::new(alloc);
    let lying = lying_formula(alloc, &mut numbering, strata, finding)?;
    let formula = with_region(alloc, &mut numbering, lying, less)?;
    let tests = numbering.into_tests()?;
    Ok(Query { formula, tests })
}

// The answer, where it tells whose the finding is.
fn told(asked: Asked) -> Option<Asked>
    ensures { IsToldOf asked result }
{
    match asked {
        Asked::Met(request) => Some(Asked::Met(request)),
        Asked::Nobody => Some(Asked::Nobody),
        Asked::OutOfSplits => None,
        Asked::OutOfStates(_) => None,
    }
}

/// A request of the finding's own, or that it has none, where this is decided for what is left of the region's query.
pub(crate) fn short_answer<D: Decide>(
    alloc: Global,
    strata: &Strata,
    less: &Query,
    asks: &mut D,
    finding: &Finding,
) -> Result<Option<Asked>, NoMemory>
    requires made { AsksSomeRegion (D.schema asks.old) less.now strata.now }
    requires finding { IsFinding strata.now.dimensions finding.now }
    ensures own { IfOk result (λ answer. IfSome answer
        (IsOwnTold (D.schema asks.old) less.now strata.now finding.now)) }
    ensures schema { D.schema asks.new ≡ D.schema asks.old }
    ensures splits { D.splits asks.new ≡ D.splits asks.old }
    ensures states { D.states asks.new ≡ D.states asks.old }
{
    let query = own_query(alloc, strata, less, finding)?;
    let asked = asks.ask(alloc, &query)?;
    Ok(told(asked))
}
