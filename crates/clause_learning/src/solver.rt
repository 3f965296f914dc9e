//! What is known at a point of the search.
use crate::activity::Activity;
use crate::assignment::Assignment;
use crate::limits::Limits;
use crate::store::{Literal, Store};
use crate::watches::{Watch, Watches};
use clause_proofs::Line;
use cnf_clauses::Clauses;
use plain_lists::NoMemory;
use refute_check::SharedProofs;
use std::alloc::Global;

// What a visit of a clause takes, beside the literals that are looked at.
const VISIT_WORK: usize = 4;

/// Clauses, a partial assignment, and the lines that have led to the learned clauses. Behind the formula's clauses
/// stand those of the lines, in the order of the lines.
#[derive(Drop)]
pub struct Solver {
    pub(crate) alloc: Global,
    pub(crate) store: Store,
    pub assignment: Assignment,
    pub(crate) watches: Watches,
    pub(crate) activity: Activity,
    pub lines: Vec<Line>,
    /// The slots' proofs in the lines, equal ones once.
    pub(crate) proofs: SharedProofs,
    pub limits: Limits,
    /// How many clauses the formula has.
    pub(crate) formula: usize,
    /// How many literals of level 0 are clauses by themselves, from the first on.
    pub(crate) fixed: usize,
}

impl Solver {
    /// No clause yet, over so many variables.
    pub fn new(alloc: Global, variables: usize) -> Result<Solver, NoMemory> {
        Ok(Solver {
            alloc,
            store: Store::new(alloc),
            assignment: Assignment::new(alloc, variables)?,
            watches: Watches::new(alloc, variables)?,
            activity: Activity::new(alloc, variables)?,
            lines: Vec::new(alloc),
            proofs: SharedProofs::new(alloc),
            limits: Limits::new(),
            formula: 0,
            fixed: 0,
        })
    }

    /// Takes in the clauses of a formula. A clause that is refuted at once is given.
    pub fn take_all(&mut self, clauses: &Clauses) -> Result<Option<u32>, NoMemory> {
        for number in 0..clauses.len() {
            if let Some(literals) = clauses.get(number) {
                self.store.push_distinct(self.alloc, literals)?;
            }
        }
        self.formula = self.store.len();
        for number in 0..self.store.count() {
            if self.admit(number)? {
                return Ok(Some(number));
            }
        }
        Ok(None)
    }

    /// Takes in a clause of the store at level 0: two literals that aren't false are watched, and a single one becomes
    /// true. Whether the clause is refuted.
    pub(crate) fn admit(&mut self, number: u32) -> Result<bool, NoMemory> {
        let Some(first) = self.draw(number, 0) else {
            return Ok(true);
        };
        if self.draw(number, 1).is_some() {
            self.watch(number)?;
        } else if self.assignment.truth(first).is_none() {
            self.assignment.assign(first, Some(number))?;
        }
        Ok(false)
    }

    /// Watches the first two literals of a clause, where there are two.
    pub(crate) fn watch(&mut self, number: u32) -> Result<(), NoMemory> {
        let Some(second) = self.store.literal(number, 1) else {
            return Ok(());
        };
        if let Some(first) = self.store.literal(number, 0) {
            self.watches.push(
                first,
                Watch {
                    number,
                    other: second,
                },
            )?;
            self.watches.push(
                second,
                Watch {
                    number,
                    other: first,
                },
            )?;
        }
        Ok(())
    }

    /// Takes back all levels behind this one.
    pub fn back_to(&mut self, level: u32) -> Result<(), NoMemory> {
        for place in self.assignment.end_of(level)..self.assignment.len() {
            if let Some((variable, _)) = self.assignment.at(place) {
                self.activity.put(variable)?;
            }
        }
        self.assignment.back_to(level);
        Ok(())
    }

    /// Brings a literal that isn't false to the place, from there or from behind it.
    pub(crate) fn draw(&mut self, number: u32, place: usize) -> Option<Literal> {
        let found = self.unrefuted(number, place);
        let end = found.unwrap_or(self.store.get(number).len());
        self.limits
            .spend(end.saturating_sub(place).saturating_add(VISIT_WORK));
        let found = found?;
        self.store.swap(number, place, found);
        self.store.literal(number, place)
    }

    /// The first place from this one on at which a literal isn't false.
    fn unrefuted(&self, number: u32, from: usize) -> Option<usize> {
        let mut place = from;
        for literal in self.store.get(number).iter().skip(from) {
            if self.assignment.truth(*literal) != Some(false) {
                return Some(place);
            }
            place = place.saturating_add(1);
        }
        None
    }
}
