//! Summaries.
ghost use Rattle.std.specs.Prelude.{◌≡◌, ◌≤◌, IfErr, IfOk, OnOk, length, map};
ghost use Rattle.std.specs.Cmp.Lexicographic.{slice_cmp};
ghost use Rattle.std.specs.List.Sorted.{IsStrictlySortedBy};
ghost use Rattle.std.specs.Ordering.{nat_cmp};
ghost use Rattle.findings.specs.declared.region.Region.{Region};
ghost use Rattle.findings.specs.Answers.{IsSummarised};
ghost use Rattle.findings.specs.Ending.{HasEnded, SummaryFails};
ghost use Rattle.findings.specs.KnownAnswers.{AreKnownAnswers};
ghost use Rattle.findings.specs.Queries.{AreMadeFor, AreMadeUnder};
ghost use Rattle.findings.specs.Summaries.{findings_of};
ghost use Rattle.findings.specs.Walked.{StartsAt, found_by};

use crate::decide::Decide;
use crate::known::KnownAnswers;
use crate::outcome::{Summary, SummaryFault};
use crate::walk::Walk;
use plain_lists::{List, NoMemory};
use policy_compile::Query;
use policy_model::Request;
use std::alloc::Global;
use std::collections::BTreeMap;
use strata::Strata;

// The pairs of a map, in the order of the findings' numbers.
fn pairs_of(alloc: Global, found: BTreeMap<Vec<u32>, Request>) -> Result<Summary, NoMemory>
    ensures found { IfOk result (λ summary. summary ≡ map (λ e. (e.0.items, e.1)) found.entries) }
    ensures order { IfOk result (λ summary.
        IsStrictlySortedBy (slice_cmp nat_cmp) (findings_of summary)) }
{
    let mut summary = List::new(alloc);
    'found: for (numbers, request) in found {
        summary.push((List::from_vec(numbers), request))?;
    }
    Ok(summary)
}

// What the walk found.
fn found_in(alloc: Global, walk: Walk) -> Result<Summary, NoMemory>
    ensures found { IfOk result (λ summary. summary ≡ found_by walk) }
    ensures order { IfOk result (λ summary.
        IsStrictlySortedBy (slice_cmp nat_cmp) (findings_of summary)) }
{
    pairs_of(alloc, walk.found)
}

// Looks at one finding after another, from the first on, until none is to come.
fn look_at_each<D: Decide>(
    walk: &mut Walk,
    strata: &Strata,
    base: &Query,
    known: &KnownAnswers,
    asks: &mut D,
    findings: u32,
) -> Result<(), SummaryFault>
    requires made { AreMadeUnder (D.schema asks.old) base.now strata.now }
    requires known { AreKnownAnswers (D.schema asks.old) base.now strata.now known.now }
    requires start { StartsAt strata.now.dimensions walk.old }
    ensures ended { OnOk result
        (HasEnded (D.schema asks.old) base.now strata.now walk.new) }
    ensures few { OnOk result (length walk.new.looked.keys ≤ findings) }
    ensures fault { IfErr result (SummaryFails (D.schema asks.old) base.now strata.now
        (D.splits asks.old) (D.states asks.old) findings) }
    ensures schema { D.schema asks.new ≡ D.schema asks.old }
    ensures splits { D.splits asks.new ≡ D.splits asks.old }
    ensures states { D.states asks.new ≡ D.states asks.old }
{
    'findings: for _ in 0..findings {
        let Some(finding) = walk.next(strata)? else {
            return Ok(());
        };
        walk.look_at(strata, base, known, asks, finding)?;
    }
    let further = walk.next(strata)?;
    match further {
        None => {}
        Some(_) => return Err(SummaryFault::OutOfFindings),
    }
    Ok(())
}

/// The summary of the region whose query is `base`: the irreducible findings that have no irreducible one
/// strictly above, in the order of their numbers, each with a request of its own. They are at most
/// `findings`. `strata` are those of `base`, under the schema that `asks` answers for.
///
/// `OutOfFindings` comes only where more than `findings` findings have no irreducible one strictly above.
/// `OutOfSplits` and `OutOfStates` hold such a finding, and come only where the numbers of `asks` are too
/// small for its query.
pub fn summarise<D: Decide>(
    alloc: Global,
    strata: &Strata,
    base: &Query,
    asks: &mut D,
    findings: u32,
) -> Result<Summary, SummaryFault>
    requires made { AreMadeUnder (D.schema asks.old) base.now strata.now }
    ensures summary { (region : Region) → AreMadeFor (D.schema asks.old) region base.now strata.now →
        IsSummarised (D.schema asks.old) region strata.now.dimensions
        (D.splits asks.old) (D.states asks.old) findings result }
    ensures few { IfOk result (λ summary. length summary ≤ findings) }
    ensures schema { D.schema asks.new ≡ D.schema asks.old }
    ensures splits { D.splits asks.new ≡ D.splits asks.old }
    ensures states { D.states asks.new ≡ D.states asks.old }
{
    let known = KnownAnswers::new(alloc, asks.its_schema(), strata, base)?;
    let mut walk = Walk::start(alloc, strata)?;
    look_at_each(&mut walk, strata, base, &known, asks, findings)?;
    Ok(found_in(alloc, walk)?)
}
