//! The replay of hints.
ghost use Rattle.std.specs.Prelude.{◌↔◌, IsTrue, IfOk};
ghost use Rattle.cnf_clauses.specs.Replays.{Replays};

use crate::clause::Found;
use crate::clauses::{Clauses, Hints};
use crate::decided::Decided;
use crate::looking::look_at;
use formula_tree::Path;
use plain_lists::NoMemory;
use std::alloc::Global;

/// Whether the hints replay from the path's answers. Each hint but the last names a clause with one undecided literal
/// and no true one: that literal becomes true. The last hint names a clause whose literals are all false. An empty
/// list of hints doesn't replay. This is the check of
/// reverse unit propagation with hints, as certificates of unsatisfiability carry them.
pub fn replay(
    alloc: Global,
    clauses: &Clauses,
    path: &Path,
    hints: &Hints,
) -> Result<bool, NoMemory>
    ensures { IfOk result (λ accepted. IsTrue accepted ↔ Replays clauses.now path.now hints.now) }
{
    let mut decided = Decided::of_path(alloc, path)?;
    replay_from(clauses, &mut decided, hints)
}

// Replays the hints from what is decided.
fn replay_from(clauses: &Clauses, decided: &mut Decided, hints: &Hints) -> Result<bool, NoMemory>
    ensures { IfOk result (λ yes. IsTrue yes ↔ Replays clauses.now decided.old hints.now) }
{
    'hints: for (i, hint) in hints.as_slice().iter().enumerate() {
        match look_at(clauses, decided, *hint) {
            Found::Refuted => return Ok(i + 1 == hints.len()),
            Found::Unit(variable, value) => decided.push(variable, value)?,
            Found::Open => return Ok(false),
        }
    }
    Ok(false)
}
