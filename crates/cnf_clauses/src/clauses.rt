//! The clauses of a formula, as they are kept for unit propagation.
ghost use Rattle.std.specs.Prelude.{◌≡◌, ◌<◌, ◌++◌, ◌∷◌, [], length, slice_get, slice_index_or, IfOk};
ghost use Rattle.std.specs.Option.{option_copied};
ghost use Rattle.cnf_clauses.specs.Indexes.{NameHolding, NameShort};
ghost use Rattle.cnf_clauses.specs.Numbering.{HaveNumbers};
ghost use Rattle.cnf_clauses.specs.declared.making.TheConstants.{MOST_CLAUSES};

use crate::clause::{Clause, Literal};
use crate::decided::Decided;
use crate::index::{Index, add_clause, index_of};
use plain_lists::{List, NoMemory};
use std::alloc::Global;
use std::marker::Model;

/// Numbers of clauses, in the order in which a replay takes them.
pub type Hints = List<u32>;

/// Clauses over numbered variables. A clause is a list of literals, one of them true; a literal is a
/// variable with the value at which it is true.
#[derive(Drop)]
pub struct Clauses {
    clauses: Vec<Clause>,
    index: Index,
}

impl Model for Clauses {
    ghost use Rattle.std.specs.Prelude.{ℕ, Bool, List, length};

    ghost Value = { List (List (ℕ × Bool)) };

    ghost use Rattle.cnf_clauses.specs.Indexes.{StandInIndex};

    ghost view = { λ c. c.clauses.items };

    ghost invariant = { λ c. StandInIndex c.clauses.items c.index (length c.clauses.items) };
}

impl Clauses {
    pub(crate) fn of(alloc: Global, clauses: Vec<Clause>) -> Result<Clauses, NoMemory>
        requires { HaveNumbers clauses.items }
        ensures { IfOk result (λ c. c ≡ clauses.items) }
    {
        let index = index_of(alloc, clauses.as_slice())?;
        Ok(Clauses { clauses, index })
    }

    /// The clauses with one more behind them. There are fewer than `MOST_CLAUSES`, so that it has a number.
    ///
    /// The only error is want of memory.
    pub fn with(self, alloc: Global, clause: List<(u32, bool)>) -> Result<Clauses, NoMemory>
        requires { length self < MOST_CLAUSES }
        ensures { IfOk result (λ c. c ≡ self ++ clause ∷ []) }
    {
        let Clauses {
            mut clauses,
            mut index,
        } = self;
        let nothing = Decided::new(alloc);
        let number = clauses.len() as u32;
        add_clause(alloc, &mut index, &nothing, clause.as_slice(), number)?;
        clauses.push(clause)?;
        Ok(Clauses { clauses, index })
    }

    /// How many clauses there are.
    pub fn len(&self) -> usize
        ensures { result ≡ length self.now }
    {
        self.clauses.len()
    }

    /// The literals of a clause, counted from 0, or none where there is no such clause.
    pub fn get(&self, number: usize) -> Option<&[(u32, bool)]>
        ensures { option_copied result ≡ slice_get self.now number }
    {
        if number < self.clauses.len() {
            Some(self.clauses[number].as_slice())
        } else {
            None
        }
    }

    // The clauses in which the literal stands.
    pub(crate) fn holding(&self, literal: Literal) -> &[u32]
        ensures { NameHolding self.now literal result.now }
    {
        if literal.1 {
            numbers_at(&self.index.yes, literal.0)
        } else {
            numbers_at(&self.index.no, literal.0)
        }
    }

    // The clauses without two literals that differ.
    pub(crate) fn short(&self) -> &[u32]
        ensures { NameShort self.now result.now }
    {
        self.index.short.as_slice()
    }
}

fn numbers_at(lists: &Vec<List<u32>>, variable: u32) -> &[u32]
    ensures { result.now ≡ slice_index_or lists.now.items variable [] }
{
    let variable = variable as usize;
    if variable < lists.len() {
        lists[variable].as_slice()
    } else {
        &[]
    }
}
