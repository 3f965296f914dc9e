//! Unit propagation from a path. What is decided is followed in order: each clause that holds a
//! literal that has become false is looked at again, and no other; it is read only where none of its
//! two watched literals keeps it open.
ghost use Rattle.std.specs.Prelude.{[], take, IfOk, IfSome, IfNone};
ghost use Rattle.cnf_clauses.specs.Propagates.{AreQuiet, AreQuietAt, IsOpenClause, Steps, Unless};
ghost use Rattle.cnf_clauses.specs.Reasons.{Derives, Extends};
ghost use Rattle.cnf_clauses.specs.Replays.{NoneReplay, Replays};

use crate::clause::{Found, Literal};
use crate::clauses::{Clauses, Hints};
use crate::decided::Decided;
use crate::looking::look_at;
use crate::watching::Watches;
use formula_tree::Path;
use plain_lists::NoMemory;
use std::alloc::Global;

// Looks at one clause and derives what it says. Whether it is refuted.
fn settle(
    clauses: &Clauses,
    decided: &mut Decided,
    watches: &mut Watches,
    hints: &mut Hints,
    number: u32,
) -> Result<bool, NoMemory>
    ensures steps { IfOk result (Steps clauses.now hints.old decided.old hints.new decided.new) }
    ensures hints { IfOk result (Derives clauses.now hints.old decided.old hints.new decided.new) }
    ensures kept { Extends decided.old decided.new }
    ensures settled { IfOk result (Unless (IsOpenClause clauses.now decided.new number)) }
{
    if watches.keep_open(clauses, decided, number)? {
        return Ok(false);
    }
    match look_at(clauses, decided, number) {
        Found::Refuted => {
            hints.push(number)?;
            Ok(true)
        }
        Found::Unit(variable, value) => {
            hints.push(number)?;
            decided.push(variable, value)?;
            Ok(false)
        }
        Found::Open => Ok(false),
    }
}

// Looks at the clauses without two literals that differ.
fn settle_short(
    clauses: &Clauses,
    decided: &mut Decided,
    watches: &mut Watches,
    hints: &mut Hints,
) -> Result<bool, NoMemory>
    ensures steps { IfOk result (Steps clauses.now hints.old decided.old hints.new decided.new) }
    ensures hints { IfOk result (Derives clauses.now hints.old decided.old hints.new decided.new) }
    ensures kept { Extends decided.old decided.new }
    ensures quiet { IfOk result (Unless (AreQuiet clauses.now [] decided.new)) }
{
    'short: for number in clauses.short() {
        if settle(clauses, decided, watches, hints, *number)? {
            return Ok(true);
        }
    }
    Ok(false)
}

// Looks at the clauses that hold a literal which has become false.
fn follow(
    clauses: &Clauses,
    decided: &mut Decided,
    watches: &mut Watches,
    hints: &mut Hints,
    literal: Literal,
) -> Result<bool, NoMemory>
    ensures steps { IfOk result (Steps clauses.now hints.old decided.old hints.new decided.new) }
    ensures hints { IfOk result (Derives clauses.now hints.old decided.old hints.new decided.new) }
    ensures kept { Extends decided.old decided.new }
    ensures quiet { IfOk result (Unless (AreQuietAt literal clauses.now decided.old decided.new)) }
{
    'holding: for number in clauses.holding(literal) {
        if settle(clauses, decided, watches, hints, *number)? {
            return Ok(true);
        }
    }
    Ok(false)
}

// Follows what is decided, in order, from an index on, until nothing is left.
pub(crate) fn follow_all(
    clauses: &Clauses,
    decided: &mut Decided,
    watches: &mut Watches,
    hints: &mut Hints,
    from: usize,
) -> Result<bool, NoMemory>
    requires { AreQuiet clauses.now (take from decided.old) decided.old }
    ensures steps { IfOk result (Steps clauses.now hints.old decided.old hints.new decided.new) }
    ensures hints { IfOk result (Derives clauses.now hints.old decided.old hints.new decided.new) }
    ensures kept { Extends decided.old decided.new }
    ensures quiet { IfOk result (Unless (AreQuiet clauses.now decided.new decided.new)) }
{
    'next: for next in from..usize::MAX {
        let Some((variable, value)) = decided.get(next) else {
            break;
        };
        if follow(clauses, decided, watches, hints, (variable, !value))? {
            return Ok(true);
        }
    }
    // `len` shows that a list is shorter than `usize::MAX`: the proof that nothing is left rests on it.
    let _decided = decided.len();
    Ok(false)
}

// Derives all that the clauses say of what is decided. Whether a conflict is met.
pub(crate) fn settle_all(
    clauses: &Clauses,
    decided: &mut Decided,
    watches: &mut Watches,
    hints: &mut Hints,
) -> Result<bool, NoMemory>
    ensures steps { IfOk result (Steps clauses.now hints.old decided.old hints.new decided.new) }
    ensures hints { IfOk result (Derives clauses.now hints.old decided.old hints.new decided.new) }
    ensures quiet { IfOk result (Unless (AreQuiet clauses.now decided.new decided.new)) }
{
    if settle_short(clauses, decided, watches, hints)? {
        return Ok(true);
    }
    follow_all(clauses, decided, watches, hints, 0)
}

/// Hints that replay from the path's answers, or none exactly where no hints replay from them, which
/// is where unit propagation from the path meets no conflict. It looks at the clauses that hold a
/// literal which becomes false, and at no others.
pub fn conflict(alloc: Global, clauses: &Clauses, path: &Path) -> Result<Option<Hints>, NoMemory>
    ensures hints { IfOk result (λ met. IfSome met (Replays clauses.now path.now)) }
    ensures none { IfOk result (λ met. IfNone met (NoneReplay clauses.now path.now)) }
{
    let mut decided = Decided::of_path(alloc, path)?;
    let mut watches = Watches::new(alloc);
    let mut hints = Hints::new(alloc);
    if settle_all(clauses, &mut decided, &mut watches, &mut hints)? {
        return Ok(Some(hints));
    }
    Ok(None)
}
