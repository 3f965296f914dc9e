//! The search for an assignment: unit propagation, learning from conflicts, decisions.
use crate::limits::MOST_WORK;
use crate::solver::Solver;
use plain_lists::NoMemory;

// What a decision or a conflict takes at least.
const STEP_WORK: usize = 40;

/// How the search for an assignment ends.
#[derive(Clone, Copy)]
pub enum Ending {
    /// The lines end with the empty clause.
    Refuted,
    /// Each variable is decided, and no clause is refuted.
    Satisfied,
    /// A limit was met.
    Spent,
}

impl Solver {
    /// Goes on until each variable is decided, or there is no assignment.
    pub fn assign_all(&mut self) -> Result<Ending, NoMemory> {
        for _ in 0..MOST_WORK {
            self.limits.spend(STEP_WORK);
            if self.limits.are_spent() {
                return Ok(Ending::Spent);
            }
            if let Some(ending) = self.step()? {
                return Ok(ending);
            }
        }
        Ok(Ending::Spent)
    }

    // Propagates, and learns from a conflict or decides one variable more.
    fn step(&mut self) -> Result<Option<Ending>, NoMemory> {
        if let Some(number) = self.propagate()? {
            if self.learn(number)? {
                return Ok(Some(Ending::Refuted));
            }
            if self.limits.restarts() {
                self.back_to(0)?;
            }
            return Ok(None);
        }
        let Some(variable) = self.activity.next(&self.assignment) else {
            return Ok(Some(Ending::Satisfied));
        };
        let value = self.assignment.phase_of(variable);
        self.assignment.decide((variable, value))?;
        Ok(None)
    }
}
