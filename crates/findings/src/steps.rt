//! The steps from a finding to those right under it and right above it.
ghost use Rattle.std.specs.Prelude.{◌≡◌, ◌++◌, ◌<◌, ◌^◌, ◌↔◌, IfOk, IsTrue, OnOk, length, slice_set};
ghost use Rattle.findings.specs.Findings.{IsFinding};
ghost use Rattle.findings.specs.Steps.{AddUnder, AreAboveAt, AreNumberedBelow, IsAboveBy, IsAddedAt, predicate_number_at};
ghost use Rattle.findings.specs.Walks.{AreAboveIn};

use crate::outcome::{Finding, FindingList};
use crate::reading::{dimension_at, is_among, is_right_below, predicate_number_at};
use indexmap::IndexSet;
use plain_lists::{List, NoMemory};
use std::alloc::Global;
use strata::{Strata, Stratum};

/// An equal finding.
pub(crate) fn copy_of(alloc: Global, finding: &Finding) -> Result<Finding, NoMemory>
    ensures { IfOk result (λ f. f ≡ finding.now) }
{
    Ok(List::from_vec(Vec::from_slice(alloc, finding.as_slice())?))
}

// The finding with another number at an index.
fn with_number(alloc: Global, finding: &Finding, i: usize, number: u32) -> Result<Finding, NoMemory>
    requires { i < length finding.now }
    ensures { IfOk result (λ f. f ≡ slice_set finding.now i number) }
{
    let mut numbers = Vec::from_slice(alloc, finding.as_slice())?;
    numbers[i] = number;
    Ok(List::from_vec(numbers))
}

// Whether the finding that has this number at the index is in the set, where the other is right under it.
fn is_above_in(
    alloc: Global,
    stratum: &Stratum,
    set: &IndexSet<Finding>,
    finding: &Finding,
    i: usize,
    upper: u32,
) -> Result<bool, NoMemory>
    requires index { i < length finding.now }
    requires upper { upper < length stratum.now.below }
    ensures { IfOk result (λ is. IsTrue is ↔
        IsAboveBy stratum.now set.now.keys finding.now i upper) }
{
    if !is_right_below(stratum, predicate_number_at(finding, i), upper as usize) {
        return Ok(true);
    }
    let above = with_number(alloc, finding, i, upper)?;
    Ok(is_among(set, &above))
}

// Whether each finding that this one is right under, by the number at the index, is in the set.
fn are_above_at(
    alloc: Global,
    stratum: &Stratum,
    set: &IndexSet<Finding>,
    finding: &Finding,
    i: usize,
) -> Result<bool, NoMemory>
    requires index { i < length finding.now }
    requires few { length stratum.now.below < 2 ^ 32 }
    ensures { IfOk result (λ all. IsTrue all ↔
        AreAboveAt stratum.now set.now.keys finding.now i) }
{
    'above: for upper in 0..stratum.below.len() {
        if !is_above_in(alloc, stratum, set, finding, i, upper as u32)? {
            return Ok(false);
        }
    }
    Ok(true)
}

/// Whether each finding that this one is right under is in the set.
pub(crate) fn are_above_in(
    alloc: Global,
    strata: &Strata,
    set: &IndexSet<Finding>,
    finding: &Finding,
) -> Result<bool, NoMemory>
    requires finding { IsFinding strata.now.dimensions finding.now }
    requires numbered { AreNumberedBelow strata.now.dimensions }
    ensures { IfOk result (λ all. IsTrue all ↔
        AreAboveIn strata.now.dimensions set.now.keys finding.now) }
{
    'dimensions: for i in 0..finding.len() {
        if !are_above_at(alloc, dimension_at(strata, i), set, finding, i)? {
            return Ok(false);
        }
    }
    Ok(true)
}

// Adds the findings that are right under this one by the number at the index.
fn add_under_at(
    alloc: Global,
    coming: &mut Vec<Finding>,
    stratum: &Stratum,
    finding: &Finding,
    i: usize,
) -> Result<(), NoMemory>
    requires index { i < length finding.now }
    requires within { predicate_number_at finding.now i < length stratum.now.below }
    ensures { OnOk result (IsAddedAt stratum.now finding.now i
        coming.old.items coming.new.items) }
{
    let number = predicate_number_at(finding, i) as usize;
    'under: for lower in stratum.below.as_slice()[number].as_slice() {
        coming.push(with_number(alloc, finding, i, *lower)?)?;
    }
    Ok(())
}

/// Adds the findings that are right under this one.
pub(crate) fn add_under(
    alloc: Global,
    coming: &mut Vec<Finding>,
    strata: &Strata,
    finding: &Finding,
) -> Result<(), NoMemory>
    requires finding { IsFinding strata.now.dimensions finding.now }
    requires numbered { AreNumberedBelow strata.now.dimensions }
    ensures { OnOk result (AddUnder strata.now.dimensions finding.now
        coming.old.items coming.new.items) }
{
    'dimensions: for i in 0..finding.len() {
        add_under_at(alloc, coming, dimension_at(strata, i), finding, i)?;
    }
    Ok(())
}

/// Adds findings equal to these.
pub(crate) fn add_copies(
    alloc: Global,
    coming: &mut Vec<Finding>,
    more: &FindingList,
) -> Result<(), NoMemory>
    ensures { OnOk result (coming.new.items ≡ coming.old.items ++ more.now) }
{
    'more: for finding in more.as_slice() {
        coming.push(copy_of(alloc, finding)?)?;
    }
    Ok(())
}
