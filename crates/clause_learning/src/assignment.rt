//! Which variables are decided, in which order, at which level and by which clause.
use crate::store::Literal;
use plain_lists::NoMemory;
use std::alloc::Global;

// The value that a variable gets where it is decided for the first time. Formulas ask for allowed requests,
// and most conflicts come where much of them holds.
const FIRST_PHASE: bool = true;

// What is known of a variable.
#[derive(Clone, Copy)]
struct Entry {
    value: Option<bool>,
    // How many decisions were made before it had its value.
    level: u32,
    // The clause by which it has it, and none where it was decided.
    reason: Option<u32>,
    // Where it stands in the trail.
    place: usize,
    // The value that it had last.
    phase: bool,
}

/// The values of variables, and the trail: the literals that are true, in the order in which they became so.
/// A level is a decision with all that follows from it; level 0 stands before any decision.
#[derive(Drop)]
pub struct Assignment {
    entries: Vec<Entry>,
    trail: Vec<Literal>,
    // Where each level but the first begins in the trail.
    marks: Vec<usize>,
    // How much of the trail was propagated.
    head: usize,
}

impl Assignment {
    /// So many variables without a value.
    pub(crate) fn new(alloc: Global, variables: usize) -> Result<Assignment, NoMemory> {
        let entry = Entry {
            value: None,
            level: 0,
            reason: None,
            place: 0,
            phase: FIRST_PHASE,
        };
        let entries = vec![in alloc; entry; variables]?;
        Ok(Assignment {
            entries,
            trail: Vec::new(alloc),
            marks: Vec::new(alloc),
            head: 0,
        })
    }

    /// How many variables there are.
    pub(crate) fn variables(&self) -> usize {
        self.entries.len()
    }

    pub fn value(&self, variable: u32) -> Option<bool> {
        self.entries.as_slice().get(variable as usize)?.value
    }

    /// Whether the literal is true, or none where its variable is undecided.
    pub(crate) fn truth(&self, literal: Literal) -> Option<bool> {
        Some(self.value(literal.0)? == literal.1)
    }

    /// The level of a decided variable.
    pub(crate) fn level_of(&self, variable: u32) -> u32 {
        match self.entries.as_slice().get(variable as usize) {
            Some(entry) => entry.level,
            None => 0,
        }
    }

    /// The clause by which a variable has its value.
    pub(crate) fn reason_of(&self, variable: u32) -> Option<u32> {
        self.entries.as_slice().get(variable as usize)?.reason
    }

    /// The variable has its value by this clause too.
    pub(crate) fn give_reason(&mut self, variable: u32, reason: u32) {
        if let Some(entry) = self.entries.get_mut(variable as usize) {
            entry.reason = Some(reason);
        }
    }

    /// Where a decided variable stands in the trail.
    pub(crate) fn place_of(&self, variable: u32) -> usize {
        match self.entries.as_slice().get(variable as usize) {
            Some(entry) => entry.place,
            None => 0,
        }
    }

    /// The value that the variable had last.
    pub(crate) fn phase_of(&self, variable: u32) -> bool {
        match self.entries.as_slice().get(variable as usize) {
            Some(entry) => entry.phase,
            None => FIRST_PHASE,
        }
    }

    /// The literal is to be true where its variable is decided next.
    pub fn prefer(&mut self, literal: Literal) {
        if let Some(entry) = self.entries.get_mut(literal.0 as usize) {
            entry.phase = literal.1;
        }
    }

    /// How many decisions stand.
    pub(crate) fn level(&self) -> u32 {
        self.marks.len().min(u32::MAX as usize) as u32
    }

    /// How many literals are true.
    pub(crate) fn len(&self) -> usize {
        self.trail.len()
    }

    /// The literal at a place of the trail.
    pub(crate) fn at(&self, place: usize) -> Option<Literal> {
        self.trail.as_slice().get(place).copied()
    }

    /// Where a level ends in the trail.
    pub(crate) fn end_of(&self, level: u32) -> usize {
        match self.marks.as_slice().get(level as usize) {
            Some(mark) => *mark,
            None => self.trail.len(),
        }
    }

    /// The next literal that wasn't propagated.
    pub(crate) fn next(&mut self) -> Option<Literal> {
        let literal = self.trail.as_slice().get(self.head).copied()?;
        self.head = self.head.saturating_add(1);
        Some(literal)
    }

    /// Makes the literal true at this level.
    pub(crate) fn assign(&mut self, literal: Literal, reason: Option<u32>) -> Result<(), NoMemory> {
        let level = self.level();
        if let Some(entry) = self.entries.get_mut(literal.0 as usize) {
            entry.value = Some(literal.1);
            entry.level = level;
            entry.reason = reason;
            entry.place = self.trail.len();
        }
        self.trail.push(literal)?;
        Ok(())
    }

    /// Begins the next level with the literal.
    pub(crate) fn decide(&mut self, literal: Literal) -> Result<(), NoMemory> {
        self.marks.push(self.trail.len())?;
        self.assign(literal, None)
    }

    /// Takes back all levels behind this one.
    pub(crate) fn back_to(&mut self, level: u32) {
        if let Some(mark) = self.marks.as_slice().get(level as usize).copied() {
            self.shorten(mark);
            self.marks.truncate(level as usize);
            self.head = mark;
        }
    }

    fn shorten(&mut self, len: usize) {
        for _ in len..self.trail.len() {
            if let Some((variable, value)) = self.trail.pop() {
                if let Some(entry) = self.entries.get_mut(variable as usize) {
                    entry.value = None;
                    entry.phase = value;
                }
            }
        }
    }
}
