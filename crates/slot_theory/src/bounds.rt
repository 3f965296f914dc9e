//! Proposals for a key of numbers: a number that answers all answered tests of the key, or few of them that no number
//! answers, read off the tests in a few passes. A test is answered by the numbers on one side of a bound, by all but
//! one number, by all numbers or, where it is the one that wants the key to be absent, by none. Tests of other forms
//! are passed over. Nothing is promised of proposals.
use crate::keys::rule_of;
use crate::outcome::Core;
use crate::question::Question;
use crate::slots::is_on;
use crate::steps::Proposal;
use intervals::{Compare, Scaled};
use plain_lists::NoMemory;
use policy_model::{Cond, Kind, Test, Value};
use std::alloc::Global;

/// The most tests that a conflict of bounds needs: two that at most one number is between, one that excludes this
/// number, and one that asks for a value.
const MOST_TESTS: usize = 4;

/// The numbers that some tests are answered by, in units, and whether the tests want the key to have a value.
#[derive(Clone, Copy)]
struct Bounds {
    least: i128,
    most: i128,
    there: bool,
    /// Whether some test excludes the one number that is between the bounds of all tests.
    excluded: bool,
}

// No test.
const NO_TEST: Bounds = Bounds {
    least: i128::MIN,
    most: i128::MAX,
    there: false,
    excluded: false,
};

/// An answered test by its number.
#[derive(Clone, Copy)]
struct Bounding {
    test: u32,
    bounds: Bounds,
}

/// An answered test by its number, and the only number, in units, that doesn't answer it.
#[derive(Clone, Copy)]
struct Excluding {
    test: u32,
    units: i128,
}

/// The answered tests of the slot.
#[derive(Drop)]
struct Tested {
    /// Those with bounds.
    bounding: Vec<Bounding>,
    /// Those with a number that they exclude, in the order of these numbers.
    excluding: Vec<Excluding>,
}

fn at_least(least: i128, there: bool) -> Bounds {
    Bounds {
        least,
        there,
        ..NO_TEST
    }
}

fn at_most(most: i128, there: bool) -> Bounds {
    Bounds {
        most,
        there,
        ..NO_TEST
    }
}

// The numbers that stand to the limit as named, or those that don't. Those that aren't the limit are on both its
// sides.
fn bounds_of(compare: Compare, limit: i128, holds: bool) -> Option<Bounds> {
    match (compare, holds) {
        (Compare::Equal, true) => Some(met(at_least(limit, true), at_most(limit, true))),
        (Compare::Equal, false) => None,
        (Compare::Less, true) | (Compare::GreaterOrEqual, false) => {
            Some(at_most(limit.saturating_sub(1), holds))
        }
        (Compare::Less, false) | (Compare::GreaterOrEqual, true) => Some(at_least(limit, holds)),
        (Compare::LessOrEqual, true) | (Compare::Greater, false) => Some(at_most(limit, holds)),
        (Compare::LessOrEqual, false) | (Compare::Greater, true) => {
            Some(at_least(limit.saturating_add(1), holds))
        }
    }
}

// All numbers, or none where the key is to be absent.
fn bounds_of_presence(holds: bool) -> Bounds {
    if holds {
        Bounds {
            there: true,
            ..NO_TEST
        }
    } else {
        Bounds {
            least: i128::MAX,
            most: i128::MIN,
            ..NO_TEST
        }
    }
}

fn met(first: Bounds, second: Bounds) -> Bounds {
    Bounds {
        least: first.least.max(second.least),
        most: first.most.min(second.most),
        there: first.there || second.there,
        excluded: first.excluded || second.excluded,
    }
}

impl Tested {
    fn add_bounds(&mut self, test: u32, bounds: Bounds) -> Result<(), NoMemory> {
        self.bounding.push(Bounding { test, bounds })?;
        Ok(())
    }

    fn add_comparison(
        &mut self,
        test: u32,
        compare: Compare,
        bound: Scaled,
        holds: bool,
    ) -> Result<(), NoMemory> {
        let units = bound.units();
        match bounds_of(compare, units, holds) {
            Some(bounds) => self.add_bounds(test, bounds),
            None => {
                self.excluding.push(Excluding { test, units })?;
                Ok(())
            }
        }
    }

    fn add_test(&mut self, number: u32, test: &Test, holds: bool) -> Result<(), NoMemory> {
        match test {
            Test::Present(_) => self.add_bounds(number, bounds_of_presence(holds)),
            Test::SomeMeets(_, Cond::Compares(compare, bound)) => {
                self.add_comparison(number, *compare, *bound, holds)
            }
            _ => Ok(()),
        }
    }

    // Adds to the bounds the tests that exclude the one number between them, if it is one.
    fn exclude_only_number(&mut self) -> Result<(), NoMemory> {
        let all = all_met(self.bounding.as_slice());
        if all.least != all.most {
            return Ok(());
        }
        for next in self.excluding.as_slice() {
            if next.units == all.least {
                let test = next.test;
                let bounds = Bounds {
                    excluded: true,
                    ..NO_TEST
                };
                self.bounding.push(Bounding { test, bounds })?;
            }
        }
        Ok(())
    }
}

fn tested_of(alloc: Global, question: &Question<'_>) -> Result<Tested, NoMemory> {
    let mut tested = Tested {
        bounding: Vec::new(alloc),
        excluding: Vec::new(alloc),
    };
    for (number, test) in question.tests.iter().enumerate() {
        if let Some(holds) = question.path.answer(number as u32) {
            if is_on(question.slot, test) {
                tested.add_test(number as u32, test, holds)?;
            }
        }
    }
    tested.excluding.sort_by_key(|excluding| excluding.units)?;
    tested.exclude_only_number()?;
    Ok(tested)
}

fn all_met(all: &[Bounding]) -> Bounds {
    let mut bounds = NO_TEST;
    for next in all {
        bounds = met(bounds, next.bounds);
    }
    bounds
}

// Whether no number is between the bounds, or only one that is excluded. If the key may be absent, that answers
// tests that don't want a value.
fn is_conflict(bounds: Bounds, required: bool) -> bool {
    if !required && !bounds.there {
        return false;
    }
    bounds.least > bounds.most || (bounds.least == bounds.most && bounds.excluded)
}

// The first test that conflicts with those before it and those that were found.
fn first_conflict(all: &[Bounding], found: Bounds, required: bool) -> Option<Bounding> {
    let mut bounds = found;
    for next in all {
        bounds = met(bounds, next.bounds);
        if is_conflict(bounds, required) {
            return Some(*next);
        }
    }
    None
}

// Few tests that conflict: the last of them is the first that does so with those before it, and each other one is the
// first that does so with those that were found.
fn few_tests(alloc: Global, all: &[Bounding], required: bool) -> Result<Option<Core>, NoMemory> {
    let mut few = Vec::new(alloc);
    let mut found = NO_TEST;
    for _ in 0..MOST_TESTS {
        if !is_conflict(found, required) {
            let Some(next) = first_conflict(all, found, required) else {
                return Ok(None);
            };
            few.push(next.test)?;
            found = met(found, next.bounds);
        }
    }
    few.sort()?;
    Ok(Some(Core::from_vec(few)))
}

// The units of a number between the bounds: 0 if it is one of them, and else the least, where one is the least.
fn units_in(bounds: Bounds) -> i128 {
    if bounds.least <= 0 && bounds.most >= 0 {
        0
    } else if bounds.least > i128::MIN {
        bounds.least
    } else {
        bounds.most
    }
}

// The least number from the first on that isn't excluded.
fn free_above(excluding: &[Excluding], first: i128) -> i128 {
    let mut units = first;
    for next in excluding {
        if next.units == units {
            units = units.saturating_add(1);
        }
    }
    units
}

// The greatest number up to the first that isn't excluded.
fn free_below(excluding: &[Excluding], first: i128) -> i128 {
    let mut units = first;
    for next in excluding.iter().rev() {
        if next.units == units {
            units = units.saturating_sub(1);
        }
    }
    units
}

// The units of a number between the bounds that isn't excluded.
fn free_in(excluding: &[Excluding], bounds: Bounds) -> Option<i128> {
    let first = units_in(bounds);
    let above = free_above(excluding, first);
    if above <= bounds.most {
        return Some(above);
    }
    let below = free_below(excluding, first);
    if below >= bounds.least {
        Some(below)
    } else {
        None
    }
}

// A number for all tests. Where none is needed, the key is to be absent.
fn number_for(tested: &Tested, required: bool) -> Option<Proposal> {
    let bounds = all_met(tested.bounding.as_slice());
    if !required && !bounds.there {
        return None;
    }
    let units = free_in(tested.excluding.as_slice(), bounds)?;
    match Scaled::from_units(units) {
        Ok(number) => Some(Proposal::Value(Value::Number(number))),
        Err(_) => None,
    }
}

// Whether the slot is a key with at most one number, and whether that is required.
fn required_number(question: &Question<'_>) -> Option<bool> {
    match rule_of(question) {
        Some(rule) if rule.kind == Kind::Number && !rule.many && rule.among.is_none() => {
            Some(rule.required)
        }
        _ => None,
    }
}

/// A proposal where at least so many tests of the slot are answered.
pub fn proposed_number(
    alloc: Global,
    question: &Question<'_>,
    least: usize,
) -> Result<Option<Proposal>, NoMemory> {
    if question.path.len() < least {
        return Ok(None);
    }
    let Some(required) = required_number(question) else {
        return Ok(None);
    };
    let tested = tested_of(alloc, question)?;
    let count = tested.bounding.len().saturating_add(tested.excluding.len());
    if count < least {
        return Ok(None);
    }
    match few_tests(alloc, tested.bounding.as_slice(), required)? {
        Some(few) => Ok(Some(Proposal::Tests(few))),
        None => Ok(number_for(&tested, required)),
    }
}
