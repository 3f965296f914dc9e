//! Whether a list of findings with requests stands for a region.
ghost use Rattle.std.specs.Prelude.{◌<◌, ◌≤◌, ◌^◌, ◌≡◌, All, IfOk, length};
ghost use Rattle.findings.specs.Findings.{IsFinding};
ghost use Rattle.findings.specs.Judging.{IsFirstAlone, Rises, DecidesAlone, verdict_at};
ghost use Rattle.findings.specs.Queries.{AreMadeUnder};
ghost use Rattle.findings.specs.StandingSummaries.{JudgesSummary};
ghost use Rattle.findings.specs.Summaries.{findings_of};

use crate::order::{first_compared, is_before};
use crate::outcome::{Finding, Summary};
use crate::own::is_own;
use plain_lists::NoMemory;
use policy_compile::Query;
use policy_model::{Request, Schema, Validity};
use std::alloc::Global;
use strata::Strata;

/// What a check of a summary answers.
#[derive(Clone, Copy, PartialEq, Eq)]
pub enum SummaryVerdict {
    /// Each finding has the request beside it as its own, comes behind the one before it in the order of
    /// their numbers, and is neither finer nor broader than another one of the list.
    Stands,
    /// The first pair, counted from 0, for which one of these doesn't hold.
    Fails { place: u32 },
}

// Whether the finding of an index rises above that of the pair before it.
fn rises(pairs: &[(Finding, Request)], i: usize) -> bool
    requires { i < length pairs.now }
    ensures { Rises pairs.now i result }
{
    if i == 0 {
        return true;
    }
    is_before(&pairs[i - 1].0, &pairs[i].0)
}

// Whether the pair of an index has an own request and rises.
fn stands_alone(
    alloc: Global,
    validity: &Validity<'_>,
    strata: &Strata,
    base: &Query,
    pairs: &[(Finding, Request)],
    i: usize,
) -> Result<bool, NoMemory>
    requires made { AreMadeUnder validity.now base.now strata.now }
    requires findings { All (IsFinding strata.now.dimensions) (findings_of pairs.now) }
    requires within { i < length pairs.now }
    ensures { IfOk result (DecidesAlone validity.now base.now strata.now pairs.now i) }
{
    if !rises(pairs, i) {
        return Ok(false);
    }
    let own = is_own(alloc, validity, strata, base, &pairs[i].0, &pairs[i].1)?;
    Ok(own)
}

// The first pair that doesn't, or the number of the pairs.
fn first_alone(
    alloc: Global,
    validity: &Validity<'_>,
    strata: &Strata,
    base: &Query,
    pairs: &[(Finding, Request)],
) -> Result<usize, NoMemory>
    requires made { AreMadeUnder validity.now base.now strata.now }
    requires findings { All (IsFinding strata.now.dimensions) (findings_of pairs.now) }
    ensures { IfOk result (IsFirstAlone validity.now base.now strata.now pairs.now) }
{
    'pairs: for i in 0..pairs.len() {
        if !stands_alone(alloc, validity, strata, base, pairs, i)? {
            return Ok(i);
        }
    }
    Ok(pairs.len())
}

// As above, under a schema.
fn first_failing(
    alloc: Global,
    schema: &Schema,
    strata: &Strata,
    base: &Query,
    pairs: &[(Finding, Request)],
) -> Result<usize, NoMemory>
    requires made { AreMadeUnder schema.now base.now strata.now }
    requires findings { All (IsFinding strata.now.dimensions) (findings_of pairs.now) }
    ensures { IfOk result (IsFirstAlone schema.now base.now strata.now pairs.now) }
{
    let validity = Validity::of(alloc, schema)?;
    let first = first_alone(alloc, &validity, strata, base, pairs)?;
    Ok(first)
}

// The verdict where this is the first failing pair, or the number of the pairs.
fn verdict_at(first: usize, count: usize) -> SummaryVerdict
    requires few { count < 2 ^ 32 }
    requires within { first ≤ count }
    ensures { result ≡ verdict_at first count }
{
    if first < count {
        SummaryVerdict::Fails {
            place: first as u32,
        }
    } else {
        SummaryVerdict::Stands
    }
}

/// Whether the list stands for the region whose query is `base`, whoever wrote it.
///
/// `strata` are those of `base`, both under the schema, and the list has at most 4,294,967,295 pairs. The
/// only error is want of memory.
pub fn check_summary(
    alloc: Global,
    schema: &Schema,
    strata: &Strata,
    base: &Query,
    summary: &Summary,
) -> Result<SummaryVerdict, NoMemory>
    requires made { AreMadeUnder schema.now base.now strata.now }
    requires findings { All (IsFinding strata.now.dimensions) (findings_of summary.now) }
    requires few { length summary.now < 2 ^ 32 }
    ensures { IfOk result (JudgesSummary schema.now base.now strata.now summary.now) }
{
    let pairs = summary.as_slice();
    let alone = first_failing(alloc, schema, strata, base, pairs)?;
    // Those before it rise strictly, so they differ: a pair of them that is finer or above isn't equal.
    let first = first_compared(strata, pairs, alone);
    Ok(verdict_at(first, pairs.len()))
}
