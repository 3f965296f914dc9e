//! The lines of a clausal proof, and the clauses that they add.
ghost use Rattle.std.specs.Prelude.{◌≡◌, IfOk, map};
ghost use Rattle.cnf_clauses.specs.Literals.{complement};
ghost use Rattle.clause_proofs.specs.Refuting.{clause_of};

use cnf_clauses::Hints;
use plain_lists::{List, NoMemory};
use slot_theory::SlotProof;
use std::alloc::Global;
use std::rc::Rc;

/// A line of a clausal proof of a query: it adds one clause behind those that are there. The clauses of the query's
/// formula come first, and a literal is a variable with the value at which it is true, as in these.
#[derive(Drop)]
pub enum Line {
    /// A clause that follows from those before it by reverse unit propagation: from the values that make each of its
    /// literals false, the hints, which are numbers of clauses before it, lead to a conflict. No variable stands twice
    /// in it.
    Derived {
        clause: List<(u32, bool)>,
        hints: Hints,
    },
    /// Answers to tests of one slot, whose numbers strictly rise, that no value of the slot gives, by a proof. The
    /// line's clause says that one of them is otherwise.
    Excluded {
        answers: List<(u32, bool)>,
        /// It may stand in other lines too.
        proof: Rc<SlotProof>,
    },
}

/// The clause that the line adds.
pub(crate) fn clause_of(alloc: Global, line: &Line) -> Result<List<(u32, bool)>, NoMemory>
    ensures { IfOk result (λ clause. clause ≡ clause_of line.now) }
{
    match line {
        Line::Derived { clause, .. } => Ok(List::from_vec(Vec::from_slice(
            alloc,
            clause.as_slice(),
        )?)),
        Line::Excluded { answers, .. } => complements(alloc, answers.as_slice()),
    }
}

// The literals that are false where these are true.
fn complements(alloc: Global, literals: &[(u32, bool)]) -> Result<List<(u32, bool)>, NoMemory>
    ensures { IfOk result (λ clause. clause ≡ map complement literals.now) }
{
    let mut clause = List::new(alloc);
    'literals: for literal in literals {
        clause.push((literal.0, !literal.1))?;
    }
    Ok(clause)
}
