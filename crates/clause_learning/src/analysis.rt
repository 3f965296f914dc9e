//! What a conflict teaches: the clause of its first unique implication point, without the literals that others imply.
use crate::activity::Activity;
use crate::assignment::Assignment;
use crate::solver::Solver;
use crate::store::{Literal, Store};
use plain_lists::NoMemory;
use std::alloc::Global;
use std::mem::replace;

// The clauses of how many literals are looked at at most to leave one out.
const MOST_IMPLIED: usize = 100;

// What a hint takes, in units of work.
const HINT_WORK: usize = 4;

/// A clause, and the numbers of the clauses from which it follows by reverse unit propagation. Its first literal is the
/// only one of the conflict's level.
#[derive(Drop)]
pub(crate) struct Learned {
    pub(crate) clause: Vec<Literal>,
    pub(crate) hints: Vec<u32>,
}

// How far a conflict was traced.
#[derive(Drop)]
struct Trace {
    // By variable, whether it is false by the clause or by what was traced.
    seen: Vec<bool>,
    // How many of the seen variables of the conflict's level weren't traced.
    open: usize,
    // The conflict's level.
    level: u32,
    // The literals of the levels between level 0 and that of the conflict.
    clause: Vec<Literal>,
    // The complement of the literal of the conflict's level through which all others come.
    point: Option<Literal>,
    // The traced clauses, the last hint first.
    hints: Vec<u32>,
    // The seen variables of level 0.
    first: Vec<u32>,
    // Those of the levels between that are left out, since their reasons make them false.
    implied: Vec<u32>,
    // The levels of the clause, each at its place of 64.
    levels: u64,
    // How many literals were looked at.
    looked: usize,
}

fn level_bit(level: u32) -> u64 {
    1u64 << (level % 64)
}

impl Trace {
    fn new(alloc: Global, assignment: &Assignment) -> Result<Trace, NoMemory> {
        let seen = vec![in alloc; false; assignment.variables()]?;
        Ok(Trace {
            seen,
            open: 0,
            level: assignment.level(),
            clause: Vec::new(alloc),
            point: None,
            hints: Vec::new(alloc),
            first: Vec::new(alloc),
            implied: Vec::new(alloc),
            levels: 0,
            looked: 0,
        })
    }

    fn is_seen(&self, variable: u32) -> bool {
        self.seen.as_slice().get(variable as usize) == Some(&true)
    }

    // Marks the variable, and says whether it wasn't marked.
    fn mark(&mut self, variable: u32) -> bool {
        match self.seen.get_mut(variable as usize) {
            Some(seen) => !replace(seen, true),
            None => false,
        }
    }

    fn unmark(&mut self, variable: u32) {
        if let Some(seen) = self.seen.get_mut(variable as usize) {
            *seen = false;
        }
    }

    // Takes in one literal of a traced clause.
    fn take(
        &mut self,
        assignment: &Assignment,
        activity: &mut Activity,
        literal: Literal,
    ) -> Result<(), NoMemory> {
        if !self.mark(literal.0) {
            return Ok(());
        }
        activity.raise(literal.0);
        let level = assignment.level_of(literal.0);
        if level == 0 {
            self.first.push(literal.0)?;
            return Ok(());
        }
        if level == self.level {
            self.open = self.open.saturating_add(1);
            return Ok(());
        }
        self.levels |= level_bit(level);
        self.clause.push(literal)?;
        Ok(())
    }

    // Traces one more clause.
    fn trace(
        &mut self,
        store: &Store,
        assignment: &Assignment,
        activity: &mut Activity,
        number: u32,
    ) -> Result<(), NoMemory> {
        self.hints.push(number)?;
        self.looked = self.looked.saturating_add(store.get(number).len());
        for literal in store.get(number) {
            self.take(assignment, activity, *literal)?;
        }
        Ok(())
    }

    // Traces the seen literals of the conflict's level back to the one through which all of them come.
    fn trace_level(
        &mut self,
        store: &Store,
        assignment: &Assignment,
        activity: &mut Activity,
    ) -> Result<(), NoMemory> {
        for place in (assignment.end_of(0)..assignment.len()).rev() {
            let Some((variable, value)) = assignment.at(place) else {
                return Ok(());
            };
            if !self.is_seen(variable) {
                continue;
            }
            if self.open < 2 {
                self.point = Some((variable, !value));
                return Ok(());
            }
            self.open = self.open.saturating_sub(1);
            if let Some(reason) = assignment.reason_of(variable) {
                self.trace(store, assignment, activity, reason)?;
            }
        }
        Ok(())
    }

    // Leaves out of the clause what the rest of it implies.
    fn minimise(
        &mut self,
        alloc: Global,
        store: &Store,
        assignment: &Assignment,
    ) -> Result<(), NoMemory> {
        let clause = replace(&mut self.clause, Vec::new(alloc));
        if let Some(point) = self.point {
            self.clause.push(point)?;
        }
        for literal in clause.as_slice() {
            if !self.is_implied(store, assignment, literal.0)? {
                self.clause.push(*literal)?;
            }
        }
        Ok(())
    }

    // Whether the clause's other literals and those of level 0 make this one false. Then it and what leads to it are
    // among the implied.
    fn is_implied(
        &mut self,
        store: &Store,
        assignment: &Assignment,
        variable: u32,
    ) -> Result<bool, NoMemory> {
        let from = self.implied.len();
        let mut next = from;
        self.implied.push(variable)?;
        for _ in 0..MOST_IMPLIED {
            let Some(own) = self.implied.as_slice().get(next).copied() else {
                return Ok(true);
            };
            if !self.has_reason(store, assignment, own)? {
                self.take_back(from);
                return Ok(false);
            }
            next = next.saturating_add(1);
        }
        self.take_back(from);
        Ok(false)
    }

    // Whether the variable has a reason whose other literals are seen, or may be implied. These are looked at next.
    fn has_reason(
        &mut self,
        store: &Store,
        assignment: &Assignment,
        variable: u32,
    ) -> Result<bool, NoMemory> {
        let Some(reason) = assignment.reason_of(variable) else {
            return Ok(false);
        };
        self.looked = self.looked.saturating_add(store.get(reason).len());
        for literal in store.get(reason) {
            if !self.is_seen(literal.0) && !self.may_imply(assignment, literal.0)? {
                return Ok(false);
            }
        }
        Ok(true)
    }

    // Takes in a variable that isn't seen, but where it can't be implied.
    fn may_imply(&mut self, assignment: &Assignment, variable: u32) -> Result<bool, NoMemory> {
        let level = assignment.level_of(variable);
        if level == 0 {
            self.mark(variable);
            self.first.push(variable)?;
            return Ok(true);
        }
        if self.levels & level_bit(level) == 0 || assignment.reason_of(variable).is_none() {
            return Ok(false);
        }
        self.mark(variable);
        self.implied.push(variable)?;
        Ok(true)
    }

    // Takes the implied ones back from this place on. The first of them is in the clause.
    fn take_back(&mut self, from: usize) {
        for _ in from.saturating_add(1)..self.implied.len() {
            if let Some(variable) = self.implied.pop() {
                self.unmark(variable);
            }
        }
        self.implied.pop();
    }
}

// The hints in an order in which each leads to the next ones: the literals of level 0, what is implied as the trail
// has it, and what was traced.
fn hints_of(alloc: Global, assignment: &Assignment, trace: &Trace) -> Result<Vec<u32>, NoMemory> {
    let mut hints = Vec::new(alloc);
    for variable in trace.first.as_slice() {
        if let Some(unit) = assignment.reason_of(*variable) {
            hints.push(unit)?;
        }
    }
    let mut implied = Vec::new(alloc);
    for variable in trace.implied.as_slice() {
        if let Some(reason) = assignment.reason_of(*variable) {
            implied.push((assignment.place_of(*variable), reason))?;
        }
    }
    implied.sort()?;
    for (_, reason) in implied.as_slice() {
        hints.push(*reason)?;
    }
    for number in trace.hints.as_slice().iter().rev() {
        hints.push(*number)?;
    }
    Ok(hints)
}

impl Solver {
    /// What the conflict of a clause all of whose literals are false teaches. At level 0 the clause is empty.
    pub(crate) fn analyse(&mut self, number: u32) -> Result<Learned, NoMemory> {
        let mut trace = Trace::new(self.alloc, &self.assignment)?;
        self.trace_all(&mut trace, number)?;
        self.limits.spend(trace.looked);
        self.limits.spend(self.assignment.variables() / 8);
        let hints = hints_of(self.alloc, &self.assignment, &trace)?;
        self.limits.spend(hints.len().saturating_mul(HINT_WORK));
        let Trace { clause, .. } = trace;
        Ok(Learned { clause, hints })
    }

    fn trace_all(&mut self, trace: &mut Trace, number: u32) -> Result<(), NoMemory> {
        trace.trace(&self.store, &self.assignment, &mut self.activity, number)?;
        if trace.level > 0 {
            trace.trace_level(&self.store, &self.assignment, &mut self.activity)?;
        }
        trace.minimise(self.alloc, &self.store, &self.assignment)
    }
}
