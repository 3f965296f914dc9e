//! Whether anybody is allowed anything in one of several findings.
ghost use Rattle.std.specs.Prelude.{◌≡◌, All, IfOk};
ghost use Rattle.findings.specs.Findings.{IsFinding};
ghost use Rattle.findings.specs.Nobody.{IsInsideQuery, ShowsNobody};
ghost use Rattle.findings.specs.RegionQueries.{AsksSomeRegion, AsksUnderSome};

use crate::beside::with_region;
use crate::cover::lies_in_some;
use crate::decide::{Asked, Decide};
use crate::numbering::Numbering;
use crate::outcome::FindingList;
use plain_lists::NoMemory;
use policy_compile::Query;
use std::alloc::Global;
use strata::Strata;

// The query that a request lies in one of the findings and in the region.
fn inside_query(
    alloc: Global,
    strata: &Strata,
    base: &Query,
    findings: &FindingList,
) -> Result<Query, NoMemory>
    requires made { AsksUnderSome base.now strata.now }
    requires findings { All (IsFinding strata.now.dimensions) findings.now }
    ensures { IfOk result (IsInsideQuery base.now strata.now findings.now) }
{
    let mut numbering = Numbering::new(alloc);
    let inside = lies_in_some(alloc, &mut numbering, strata, findings)?;
    let formula = with_region(alloc, &mut numbering, inside, base)?;
    let tests = numbering.into_tests()?;
    Ok(Query { formula, tests })
}

/// What is answered where it is asked whether anybody is allowed anything in one of the findings.
pub(crate) fn ask_inside<D: Decide>(
    alloc: Global,
    strata: &Strata,
    base: &Query,
    asks: &mut D,
    findings: &FindingList,
) -> Result<Asked, NoMemory>
    requires made { AsksSomeRegion (D.schema asks.old) base.now strata.now }
    requires findings { All (IsFinding strata.now.dimensions) findings.now }
    ensures nobody { IfOk result
        (ShowsNobody (D.schema asks.old) base.now strata.now findings.now) }
    ensures schema { D.schema asks.new ≡ D.schema asks.old }
    ensures splits { D.splits asks.new ≡ D.splits asks.old }
    ensures states { D.states asks.new ≡ D.states asks.old }
{
    let query = inside_query(alloc, strata, base, findings)?;
    asks.ask(alloc, &query)
}
