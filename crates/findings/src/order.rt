//! Which findings are finer than which.
ghost use Rattle.std.specs.Prelude.{◌≡◌, ◌<◌, ◌≤◌, ◌↔◌, IsTrue, All, length};
ghost use Rattle.std.specs.Cmp.Lexicographic.{slice_cmp};
ghost use Rattle.std.specs.Ordering.{nat_cmp};
ghost use Rattle.std.specs.declared.cmp.Ordering.TheVariants.{Less};
ghost use Rattle.findings.specs.Findings.{IsFinding};
ghost use Rattle.findings.specs.Judging.{DecidesComparable, DecidesComparedBehind, DecidesFiner, IsFirstCompared};
ghost use Rattle.findings.specs.Summaries.{findings_of};

use crate::outcome::Finding;
use crate::reading::{dimension_at, predicate_number_at};
use policy_model::Request;
use strata::Strata;

/// Whether the numbers of the one finding come before those of the other.
pub(crate) fn is_before(one: &Finding, other: &Finding) -> bool
    ensures { IsTrue result ↔ (slice_cmp nat_cmp one.now other.now ≡ Less) }
{
    one.as_slice().cmp(other.as_slice()).is_lt()
}

// Whether each predicate of the one finding is that of the other, or below it.
fn is_finer(strata: &Strata, one: &Finding, other: &Finding) -> bool
    requires one { IsFinding strata.now.dimensions one.now }
    requires other { IsFinding strata.now.dimensions other.now }
    ensures { DecidesFiner strata.now one.now other.now result }
{
    'dimensions: for i in 0..one.len() {
        let number = predicate_number_at(one, i) as usize;
        let upper = predicate_number_at(other, i) as usize;
        if !dimension_at(strata, i).is_below(number, upper) {
            return false;
        }
    }
    true
}

// Whether one of the two findings is strictly finer than the other.
fn are_comparable(strata: &Strata, one: &Finding, other: &Finding) -> bool
    requires one { IsFinding strata.now.dimensions one.now }
    requires other { IsFinding strata.now.dimensions other.now }
    ensures { DecidesComparable strata.now one.now other.now result }
{
    if one == other {
        return false;
    }
    if is_finer(strata, one, other) {
        return true;
    }
    is_finer(strata, other, one)
}

// Whether the finding of the pair of an index is comparable to that of a pair behind it.
fn is_compared_behind(strata: &Strata, pairs: &[(Finding, Request)], i: usize) -> bool
    requires findings { All (IsFinding strata.now.dimensions) (findings_of pairs.now) }
    requires within { i < length pairs.now }
    ensures { DecidesComparedBehind strata.now pairs.now i result }
{
    'behind: for j in i + 1..pairs.len() {
        if are_comparable(strata, &pairs[i].0, &pairs[j].0) {
            return true;
        }
    }
    false
}

/// Of the first pairs the first whose finding is strictly finer or strictly above that of another pair,
/// also of a later one, or the number of those pairs.
pub(crate) fn first_compared(strata: &Strata, pairs: &[(Finding, Request)], most: usize) -> usize
    requires findings { All (IsFinding strata.now.dimensions) (findings_of pairs.now) }
    requires most { most ≤ length pairs.now }
    ensures { IsFirstCompared strata.now pairs.now most result }
{
    'pairs: for i in 0..most {
        if is_compared_behind(strata, pairs, i) {
            return i;
        }
    }
    most
}
