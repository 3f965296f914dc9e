//! Lines without those that the last one doesn't rest on.
use crate::solver::Solver;
use clause_proofs::Line;
use cnf_clauses::Hints;
use plain_lists::{List, NoMemory};
use std::mem::replace;

// Which lines the last one rests on, and how they are numbered.
#[derive(Drop)]
struct Rest {
    // How many clauses the formula has.
    formula: usize,
    // By line, whether it stays.
    used: Vec<bool>,
    // By line the number of its clause where unused lines are left out.
    numbers: Vec<u32>,
}

impl Rest {
    // Marks the line of a clause.
    fn mark(&mut self, number: u32) {
        if let Some(line) = (number as usize).checked_sub(self.formula) {
            if let Some(used) = self.used.get_mut(line) {
                *used = true;
            }
        }
    }

    fn is_used(&self, line: usize) -> bool {
        self.used.as_slice().get(line) == Some(&true)
    }

    // Marks the lines that a marked line rests on.
    fn mark_hints(&mut self, line: &Line) {
        if let Line::Derived { hints, .. } = line {
            for hint in hints.as_slice() {
                self.mark(*hint);
            }
        }
    }

    fn mark_all(&mut self, lines: &[Line]) {
        for place in (0..lines.len()).rev() {
            if self.is_used(place) {
                if let Some(line) = lines.get(place) {
                    self.mark_hints(line);
                }
            }
        }
    }

    fn number_all(&mut self) -> Result<(), NoMemory> {
        let mut next = self.formula;
        for used in self.used.as_slice() {
            self.numbers.push(next.min(u32::MAX as usize) as u32)?;
            next = next.saturating_add(usize::from(*used));
        }
        Ok(())
    }

    fn number_of(&self, number: u32) -> u32 {
        let Some(line) = (number as usize).checked_sub(self.formula) else {
            return number;
        };
        match self.numbers.as_slice().get(line) {
            Some(number) => *number,
            None => number,
        }
    }

    fn renumber(&self, hints: Hints) -> Hints {
        let mut numbers = hints.into_vec();
        for number in numbers.as_mut_slice() {
            *number = self.number_of(*number);
        }
        List::from_vec(numbers)
    }

    fn renumbered(&self, line: Line) -> Line {
        match line {
            Line::Derived { clause, hints } => Line::Derived {
                clause,
                hints: self.renumber(hints),
            },
            Line::Excluded { answers, proof } => Line::Excluded { answers, proof },
        }
    }
}

impl Solver {
    /// Leaves out the lines that the last one doesn't rest on.
    pub(crate) fn trim(&mut self) -> Result<(), NoMemory> {
        let rest = self.rest()?;
        let lines = replace(&mut self.lines, Vec::new(self.alloc));
        let mut place: usize = 0;
        for line in lines {
            if rest.is_used(place) {
                self.lines.push(rest.renumbered(line))?;
            }
            place = place.saturating_add(1);
        }
        Ok(())
    }

    fn rest(&self) -> Result<Rest, NoMemory> {
        let mut rest = Rest {
            formula: self.formula,
            used: vec![in self.alloc; false; self.lines.len()]?,
            numbers: Vec::new(self.alloc),
        };
        if let Some(last) = rest.used.as_mut_slice().last_mut() {
            *last = true;
        }
        rest.mark_all(self.lines.as_slice());
        rest.number_all()?;
        Ok(rest)
    }
}
