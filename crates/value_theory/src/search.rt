//! A value that meets clauses, or none.
ghost use Rattle.std.specs.Prelude.{◌≡◌, ◌<◌, ◌↔◌, length, All, IfOk, IsTrue};
ghost use Rattle.value_theory.specs.Clauses.{OnConditions};
ghost use Rattle.value_theory.specs.Meaning.{plain_kind};
ghost use Rattle.value_theory.specs.Solutions.{IsProper, IsSolution, PrefersZero, IsFirstMeeting, meets_clause, meets_clauses};

use crate::clause::{ClauseList, Literal, LiteralList, are_in_range, literal_holds};
use crate::kinds::{PlainCond, PlainCondList, PlainKind, PlainValue};
use crate::meaning::meets_condition;
use crate::samples::sample_points;
use plain_lists::NoMemory;
use std::alloc::Global;

/// What is asked for: a value of the kind that meets the clauses, whose literals are on the
/// conditions by their numbers.
#[derive(Drop)]
pub struct PlainWants {
    /// The kind of the value.
    pub kind: PlainKind,
    /// Conditions on values of the kind.
    pub conds: PlainCondList,
    /// Clauses that the value is to meet, all of them.
    pub clauses: ClauseList,
}

impl PlainWants {
    /// Whether the wants can be asked: each condition is on values of the kind, and each literal names
    /// one of the conditions.
    pub fn is_proper(&self) -> bool
        ensures { IsTrue result ↔ IsProper self.now }
    {
        let conds = self.conds.as_slice();
        are_of_kind(self.kind, conds) && are_in_range(conds.len(), self.clauses.as_slice())
    }
}

// Whether each condition is on values of the kind.
fn are_of_kind(kind: PlainKind, conds: &[PlainCond]) -> bool
    ensures { IsTrue result ↔ All (λ c. plain_kind c ≡ kind) conds.now }
{
    conds.iter().all(|cond| cond.kind() == kind)
}

/// The answer to wants.
#[derive(Drop)]
pub enum Solved {
    /// A value of the kind that meets the clauses.
    Found(PlainValue),
    /// No value of the kind meets them.
    Empty,
}

/// A value of the kind that meets the clauses, or that there is none. The wants are to be proper. It
/// tries finitely many values, which stand for all: 0 first among numbers and the least number last.
pub fn solve(alloc: Global, wants: &PlainWants) -> Result<Solved, NoMemory>
    requires { IsProper wants.now }
    ensures answer { IfOk result (IsSolution wants.now.kind wants.now.conds wants.now.clauses) }
    ensures zero { IfOk result (PrefersZero wants.now.kind wants.now.conds wants.now.clauses) }
{
    let conds = wants.conds.as_slice();
    let points = sample_points(alloc, wants.kind, conds)?;
    match first_meeting(points.as_slice(), conds, wants.clauses.as_slice()) {
        Some(index) => Ok(Solved::Found(points.into_vec().remove(index))),
        None => Ok(Solved::Empty),
    }
}

// The index of the first point that meets the clauses.
fn first_meeting(
    points: &[PlainValue],
    conds: &[PlainCond],
    clauses: &[LiteralList],
) -> Option<usize>
    requires { OnConditions (length conds.now) clauses.now }
    ensures { IsFirstMeeting points.now conds.now clauses.now result }
{
    for (index, point) in points.iter().enumerate() {
        if meets_clauses(point, conds, clauses) {
            return Some(index);
        }
    }
    None
}

fn meets_clauses(point: &PlainValue, conds: &[PlainCond], clauses: &[LiteralList]) -> bool
    requires { OnConditions (length conds.now) clauses.now }
    ensures { result ≡ meets_clauses conds.now clauses.now point.now }
{
    for clause in clauses {
        if !meets_clause(point, conds, clause.as_slice()) {
            return false;
        }
    }
    true
}

// Answers to all conditions in advance would be wasted: most points fail at their first clauses.
fn meets_clause(point: &PlainValue, conds: &[PlainCond], literals: &[Literal]) -> bool
    requires { All (λ l. l.pattern < length conds.now) literals.now }
    ensures { result ≡ meets_clause conds.now point.now literals.now }
{
    for literal in literals {
        let met = meets_condition(point, &conds[literal.pattern as usize]);
        if literal_holds(met, *literal) {
            return true;
        }
    }
    false
}
