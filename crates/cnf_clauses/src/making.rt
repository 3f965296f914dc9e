//! Clauses made one after another, up to the greatest number that a clause may have.
ghost use Rattle.std.specs.Prelude.{◌≡◌, ◌∷◌, [], IfOk};
ghost use Rattle.cnf_clauses.specs.Numbering.{Adds, long_with, pairs_with};

use crate::clause::{Clause, Literal};
use crate::clauses::Clauses;
use plain_lists::{List, NoMemory};
use std::alloc::Global;
use std::marker::Model;

/// Clauses have the numbers from 0 to 4,294,967,295; more aren't made.
pub const MOST_CLAUSES: usize = 4_294_967_296;

// Clauses in the order of their numbers.
#[derive(Drop)]
pub(crate) struct Made {
    alloc: Global,
    clauses: Vec<Clause>,
}

impl Model for Made {
    ghost use Rattle.std.specs.Prelude.{ℕ, Bool, List};
    ghost use Rattle.cnf_clauses.specs.Numbering.{HaveNumbers};

    ghost Value = { List (List (ℕ × Bool)) };

    ghost view = { λ m. m.clauses.items };

    ghost invariant = { λ m. HaveNumbers m.clauses.items };
}

impl Made {
    pub(crate) fn new(alloc: Global) -> Made
        ensures { result ≡ [] }
    {
        Made {
            alloc,
            clauses: Vec::new(alloc),
        }
    }

    fn add(&mut self, clause: Clause) -> Result<(), NoMemory>
        ensures { Adds result self.old self.new (clause ∷ []) }
    {
        if self.clauses.len() < MOST_CLAUSES {
            self.clauses.push(clause)?;
        }
        Ok(())
    }

    // Adds a clause of one literal.
    pub(crate) fn add_one(&mut self, literal: Literal) -> Result<(), NoMemory>
        ensures { Adds result self.old self.new ((literal ∷ []) ∷ []) }
    {
        let mut clause = List::new(self.alloc);
        clause.push(literal)?;
        self.add(clause)
    }

    // Adds a clause of two literals.
    pub(crate) fn add_two(&mut self, first: Literal, second: Literal) -> Result<(), NoMemory>
        ensures { Adds result self.old self.new ((first ∷ second ∷ []) ∷ []) }
    {
        let mut clause = List::new(self.alloc);
        clause.push(first)?;
        clause.push(second)?;
        self.add(clause)
    }

    // Adds for each variable a clause of the literal and of the variable at the value.
    pub(crate) fn add_pairs(
        &mut self,
        literal: Literal,
        value: bool,
        variables: &[u32],
    ) -> Result<(), NoMemory>
        ensures { Adds result self.old self.new (pairs_with literal value variables.now) }
    {
        'pairs: for variable in variables {
            self.add_two(literal, (*variable, value))?;
        }
        Ok(())
    }

    // Adds one clause of the literal and of each variable at the value.
    pub(crate) fn add_long(
        &mut self,
        literal: Literal,
        value: bool,
        variables: &[u32],
    ) -> Result<(), NoMemory>
        ensures { Adds result self.old self.new (long_with literal value variables.now) }
    {
        let mut clause = List::new(self.alloc);
        clause.push(literal)?;
        'literals: for variable in variables {
            clause.push((*variable, value))?;
        }
        self.add(clause)
    }

    // The clauses with their index.
    pub(crate) fn indexed(self) -> Result<Clauses, NoMemory>
        ensures { IfOk result (λ clauses. clauses ≡ self) }
    {
        Clauses::of(self.alloc, self.clauses)
    }
}
