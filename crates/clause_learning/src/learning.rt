//! Clauses that are learned from conflicts and from slots, each with its line.
use crate::analysis::Learned;
use crate::solver::Solver;
use crate::store::Literal;
use clause_proofs::Line;
use formula_tree::Path;
use plain_lists::{List, NoMemory};
use refute_check::SharedProof;
use slot_theory::SlotProof;
use std::rc::Rc;

impl Solver {
    /// Learns from the conflict of a clause all of whose literals are false, some at the last level, and goes back to
    /// the level at which the learned clause makes its first literal true. Whether it is empty, so that the lines end.
    pub fn learn(&mut self, number: u32) -> Result<bool, NoMemory> {
        self.fix()?;
        let Learned { clause, hints } = self.analyse(number)?;
        self.activity.decay();
        self.limits
            .count_conflict(clause.len().saturating_add(hints.len()));
        let number = self.push_derived(clause.as_slice(), hints)?;
        if clause.is_empty() {
            self.trim()?;
            return Ok(true);
        }
        self.draw_latest(number, 1);
        self.assert(number)?;
        Ok(false)
    }

    /// Learns each literal of level 0 that isn't a clause by itself, so that it takes one hint.
    pub(crate) fn fix(&mut self) -> Result<(), NoMemory> {
        let end = self.assignment.end_of(0);
        for place in self.fixed..end {
            if let Some(literal) = self.assignment.at(place) {
                self.fix_literal(literal)?;
            }
        }
        self.fixed = end;
        Ok(())
    }

    fn fix_literal(&mut self, literal: Literal) -> Result<(), NoMemory> {
        let Some(reason) = self.assignment.reason_of(literal.0) else {
            return Ok(());
        };
        if self.store.get(reason).len() < 2 {
            return Ok(());
        }
        self.limits.spend(self.store.get(reason).len());
        let hints = self.unit_hints(reason, Some(literal.0))?;
        let number = self.push_derived(&[literal], hints)?;
        self.assignment.give_reason(literal.0, number);
        Ok(())
    }

    /// The hints by which the clause says what it does at level 0 of its undecided literals, or else of this
    /// variable's: the clauses that make the others false, and then itself.
    pub(crate) fn unit_hints(
        &self,
        number: u32,
        variable: Option<u32>,
    ) -> Result<Vec<u32>, NoMemory> {
        let mut hints = Vec::new(self.alloc);
        for literal in self.store.get(number) {
            if variable != Some(literal.0) && self.assignment.value(literal.0).is_some() {
                if let Some(unit) = self.assignment.reason_of(literal.0) {
                    hints.push(unit)?;
                }
            }
        }
        hints.push(number)?;
        Ok(hints)
    }

    /// Adds a clause that follows by the hints. Its number.
    pub(crate) fn push_derived(
        &mut self,
        clause: &[Literal],
        hints: Vec<u32>,
    ) -> Result<u32, NoMemory> {
        let number = self.store.push(clause)?;
        let line = self.derived(clause, hints)?;
        self.lines.push(line)?;
        Ok(number)
    }

    fn derived(&self, clause: &[Literal], hints: Vec<u32>) -> Result<Line, NoMemory> {
        let clause = Vec::from_slice(self.alloc, clause)?;
        Ok(Line::Derived {
            clause: List::from_vec(clause),
            hints: List::from_vec(hints),
        })
    }

    // Goes back to the level of the clause's second literal, the latest of its false ones but for the first, and makes
    // the first one true.
    fn assert(&mut self, number: u32) -> Result<(), NoMemory> {
        let Some(first) = self.store.literal(number, 0) else {
            return Ok(());
        };
        match self.store.literal(number, 1) {
            Some(second) => {
                let level = self.assignment.level_of(second.0);
                self.back_to(level)?;
                self.watch(number)?;
            }
            None => self.back_to(0)?,
        }
        if self.assignment.truth(first).is_none() {
            self.assignment.assign(first, Some(number))?;
        }
        Ok(())
    }

    // Brings to the place the literal that isn't false, or else became so at the latest level, from there or from
    // behind.
    fn draw_latest(&mut self, number: u32, from: usize) {
        let mut latest = from;
        let mut most = 0;
        let mut place: usize = 0;
        for literal in self.store.get(number) {
            let rank = self.rank(*literal);
            if place >= from && rank > most {
                latest = place;
                most = rank;
            }
            place = place.saturating_add(1);
        }
        self.store.swap(number, from, latest);
    }

    // More for a literal that isn't false than for one that is, and more for one that became so at a later level.
    fn rank(&self, literal: Literal) -> u64 {
        if self.assignment.truth(literal) == Some(false) {
            return u64::from(self.assignment.level_of(literal.0)).saturating_add(1);
        }
        u64::MAX
    }

    // Whether the clause's literal at the place is false, or there is none.
    fn is_refuted_from(&self, number: u32, place: usize) -> bool {
        match self.store.literal(number, place) {
            Some(literal) => self.assignment.truth(literal) == Some(false),
            None => true,
        }
    }

    // The level of the clause's literal at the place, and 0 where there is none.
    fn level_at(&self, number: u32, place: usize) -> u32 {
        match self.store.literal(number, place) {
            Some(literal) => self.assignment.level_of(literal.0),
            None => 0,
        }
    }

    /// Takes in a clause of the store at any level. Where all of its literals are false the search goes back to the
    /// latest of their levels and learns from the conflict there. Whether the lines end.
    pub(crate) fn take_in(&mut self, number: u32) -> Result<bool, NoMemory> {
        self.draw_latest(number, 0);
        self.draw_latest(number, 1);
        if !self.is_refuted_from(number, 1) {
            self.watch(number)?;
            return Ok(false);
        }
        let level = self.level_at(number, 0);
        if self.is_refuted_from(number, 0) && level == self.level_at(number, 1) {
            self.back_to(level)?;
            self.watch(number)?;
            return self.learn(number);
        }
        self.assert(number)?;
        Ok(false)
    }

    /// Learns that not all tests of a core are answered as the path answers them. Whether the lines end.
    pub fn exclude_core(
        &mut self,
        path: &Path,
        core: &[u32],
        proof: SlotProof,
    ) -> Result<bool, NoMemory> {
        let SharedProof { proof, kept } = self.proofs.share(self.alloc, proof)?;
        if !kept {
            self.limits.end();
        }
        let mut answers = Vec::new(self.alloc);
        for test in core {
            if let Some(answer) = path.answer(*test) {
                answers.push((*test, answer))?;
            }
        }
        self.exclude(answers, proof)
    }

    // Learns that not all of the answers are given, since no value of their slot gives them.
    fn exclude(
        &mut self,
        answers: Vec<(u32, bool)>,
        proof: Rc<SlotProof>,
    ) -> Result<bool, NoMemory> {
        let number = self.push_complements(answers.as_slice())?;
        self.lines.push(Line::Excluded {
            answers: List::from_vec(answers),
            proof,
        })?;
        self.take_in(number)
    }

    // Adds the clause that says that one of the answers is otherwise.
    fn push_complements(&mut self, answers: &[(u32, bool)]) -> Result<u32, NoMemory> {
        let mut clause = Vec::new(self.alloc);
        for (test, answer) in answers {
            clause.push((*test, !*answer))?;
        }
        self.store.push(clause.as_slice())
    }
}
