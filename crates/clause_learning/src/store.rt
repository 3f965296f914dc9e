//! The clauses that are known: those of the formula, and behind them those that were learned.
use cnf_clauses::MOST_CLAUSES;
use plain_lists::NoMemory;
use std::alloc::{AllocError, Global};

/// A variable, and the value at which the literal is true.
pub type Literal = (u32, bool);

// Where the literals of a clause stand.
#[derive(Clone, Copy)]
struct Span {
    start: usize,
    end: usize,
}

/// Clauses by number. Their literals stand in one list, so that a walk over clauses stays near. The first
/// two literals of a clause are those that are watched: literals change places, clauses don't.
#[derive(Drop)]
pub struct Store {
    literals: Vec<Literal>,
    spans: Vec<Span>,
}

impl Store {
    pub fn new(alloc: Global) -> Store {
        Store {
            literals: Vec::new(alloc),
            spans: Vec::new(alloc),
        }
    }

    /// How many clauses there are.
    pub(crate) fn len(&self) -> usize {
        self.spans.len()
    }

    /// How many clauses there are, as numbers of clauses go.
    pub(crate) fn count(&self) -> u32 {
        self.spans.len().min(u32::MAX as usize) as u32
    }

    /// The literals of a clause, and none where there is no clause of the number.
    pub fn get(&self, number: u32) -> &[Literal] {
        match self.spans.as_slice().get(number as usize) {
            Some(span) if span.start <= span.end && span.end <= self.literals.len() => {
                &self.literals[span.start..span.end]
            }
            _ => &[],
        }
    }

    /// The literal at a place of a clause.
    pub(crate) fn literal(&self, number: u32, place: usize) -> Option<Literal> {
        self.get(number).get(place).copied()
    }

    /// Exchanges two literals of a clause.
    pub(crate) fn swap(&mut self, number: u32, one: usize, other: usize) {
        if let Some(span) = self.spans.as_slice().get(number as usize).copied() {
            let one = span.start.saturating_add(one);
            let other = span.start.saturating_add(other);
            if one < span.end && other < span.end {
                swap(&mut self.literals, one, other);
            }
        }
    }

    /// Adds a clause in which a literal may stand twice, where it isn't kept.
    pub(crate) fn push_distinct(
        &mut self,
        alloc: Global,
        clause: &[Literal],
    ) -> Result<u32, NoMemory> {
        // Were one literal watched twice, the clause would seem to be refuted where another one is undecided.
        let mut distinct = Vec::from_slice(alloc, clause)?;
        distinct.sort()?;
        distinct.dedup();
        self.push(distinct.as_slice())
    }

    /// Adds a clause, and gives its number. Where there are too many there is no memory for it.
    pub(crate) fn push(&mut self, clause: &[Literal]) -> Result<u32, NoMemory> {
        let number = self.spans.len();
        if number >= MOST_CLAUSES {
            return Err(AllocError);
        }
        let start = self.literals.len();
        self.literals.extend_from_slice(clause)?;
        let end = self.literals.len();
        self.spans.push(Span { start, end })?;
        Ok(number as u32)
    }
}

/// Exchanges two items, where both are there.
pub(crate) fn swap(literals: &mut Vec<Literal>, one: usize, other: usize) {
    if one < literals.len() && other < literals.len() {
        literals.swap(one, other);
    }
}
