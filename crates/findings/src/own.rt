//! Whether a request is a finding's own.
ghost use Rattle.std.specs.Prelude.{◌<◌, ◌↔◌, Any, IfOk, IsTrue, length};
ghost use Rattle.policy_model.specs.Conds.{CondMeets};
ghost use Rattle.strata.specs.Covers.{predicate_at};
ghost use Rattle.strata.specs.Predicates.{MeetsPredicate};
ghost use Rattle.findings.specs.Findings.{IsFinding, LiesInFinding};
ghost use Rattle.findings.specs.Judging.{DecidesOwn, DecidesOwnIfValid};
ghost use Rattle.findings.specs.Queries.{AreMadeUnder, numbers_below};
ghost use Rattle.findings.specs.RegionQueries.{AsksUnderSome};
ghost use Rattle.findings.specs.Steps.{AreNumberedBelow, IsNumberedBelow, MeetsFiner, MeetsOneOf};

use crate::evaluation::is_allowed;
use crate::outcome::Finding;
use crate::reading::{dimension_at, predicate_number_at};
use plain_lists::NoMemory;
use policy_compile::Query;
use policy_model::{Cond, Request, Slot, Validity, Value, cond_meets, entry_holds};
use std::alloc::Global;
use strata::{Predicate, Strata, Stratum};
use wildcard_lang::matches;

// Whether some value meets the condition.
fn some_meets(values: &[Value], cond: &Cond) -> bool
    ensures { IsTrue result ↔ Any (λ v. CondMeets v cond.now) values.now }
{
    values.iter().any(|value| cond_meets(value, cond))
}

// Whether the request meets the predicate in the slot.
fn meets_predicate(slot: &Slot, predicate: &Predicate, request: &Request) -> bool
    ensures { IsTrue result ↔ MeetsPredicate slot.now predicate.now request.now }
{
    match (slot, predicate) {
        (_, Predicate::Every) => true,
        (Slot::Principal, Predicate::Principal(entry)) => entry_holds(entry, request),
        (Slot::Action, Predicate::Word(pattern)) => matches(pattern, &request.action),
        (Slot::Resource, Predicate::Word(pattern)) => matches(pattern, &request.resource),
        (Slot::Key(key), Predicate::Meets(cond)) => some_meets(request.values_at(key), cond),
        _ => false,
    }
}

// Whether it meets the predicate of a number.
fn meets_number(stratum: &Stratum, number: usize, request: &Request) -> bool
    requires { number < length stratum.now.predicates }
    ensures { IsTrue result ↔ MeetsPredicate stratum.now.slot
        (predicate_at stratum.now.predicates number) request.now }
{
    meets_predicate(
        &stratum.slot,
        &stratum.predicates.as_slice()[number],
        request,
    )
}

/// Whether it meets the predicate of the finding in each dimension.
pub(crate) fn lies_in(strata: &Strata, finding: &Finding, request: &Request) -> bool
    requires { IsFinding strata.now.dimensions finding.now }
    ensures { IsTrue result ↔ LiesInFinding request.now strata.now.dimensions finding.now }
{
    'dimensions: for i in 0..finding.len() {
        let number = predicate_number_at(finding, i) as usize;
        if !meets_number(dimension_at(strata, i), number, request) {
            return false;
        }
    }
    true
}

// Whether it meets one of the predicates that are maximal strictly below that of a number.
fn meets_below(stratum: &Stratum, number: usize, request: &Request) -> bool
    requires within { number < length stratum.now.below }
    requires numbers { IsNumberedBelow stratum.now }
    ensures { IsTrue result ↔
        MeetsOneOf request.now stratum.now (numbers_below stratum.now number) }
{
    'below: for lower in stratum.below.as_slice()[number].as_slice() {
        if meets_number(stratum, *lower as usize, request) {
            return true;
        }
    }
    false
}

// Whether it does in some dimension. If so, it lies in a strictly finer finding, and if it lies in one,
// it does.
fn meets_finer(strata: &Strata, finding: &Finding, request: &Request) -> bool
    requires finding { IsFinding strata.now.dimensions finding.now }
    requires numbers { AreNumberedBelow strata.now.dimensions }
    ensures { IsTrue result ↔ MeetsFiner request.now strata.now.dimensions finding.now }
{
    'dimensions: for i in 0..finding.len() {
        let number = predicate_number_at(finding, i) as usize;
        if meets_below(dimension_at(strata, i), number, request) {
            return true;
        }
    }
    false
}

/// Whether the request, if it is valid, is the finding's own.
pub(crate) fn is_own_if_valid(
    alloc: Global,
    strata: &Strata,
    base: &Query,
    finding: &Finding,
    request: &Request,
) -> Result<bool, NoMemory>
    requires made { AsksUnderSome base.now strata.now }
    requires finding { IsFinding strata.now.dimensions finding.now }
    ensures { IfOk result (DecidesOwnIfValid base.now strata.now finding.now request.now) }
{
    if !lies_in(strata, finding, request) {
        return Ok(false);
    }
    if meets_finer(strata, finding, request) {
        return Ok(false);
    }
    let allowed = is_allowed(alloc, base, request)?;
    Ok(allowed)
}

/// Whether the request is the finding's own: it is valid under the schema, and lies in the region whose
/// query is `base` and in the finding, and in no strictly finer one.
pub(crate) fn is_own(
    alloc: Global,
    validity: &Validity<'_>,
    strata: &Strata,
    base: &Query,
    finding: &Finding,
    request: &Request,
) -> Result<bool, NoMemory>
    requires made { AreMadeUnder validity.now base.now strata.now }
    requires finding { IsFinding strata.now.dimensions finding.now }
    ensures { IfOk result
        (DecidesOwn validity.now base.now strata.now finding.now request.now) }
{
    if !validity.holds(request) {
        return Ok(false);
    }
    let own = is_own_if_valid(alloc, strata, base, finding, request)?;
    Ok(own)
}
