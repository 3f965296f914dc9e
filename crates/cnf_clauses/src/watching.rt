//! Two watched literals a clause. While a watched literal is true, or both are undecided and differ, the
//! clause is open, and needn't be read.
ghost use Rattle.std.specs.Prelude.{IsTrue, IfOk};
ghost use Rattle.cnf_clauses.specs.Found.{IsOpen};
ghost use Rattle.cnf_clauses.specs.Propagates.{IsOpenClause};

use crate::clause::{Found, Literal, found_after, look};
use crate::clauses::Clauses;
use crate::decided::Decided;
use plain_lists::NoMemory;
use std::alloc::Global;
use std::collections::HashMap;

// Where two watched literals stand in their clause. They are tested where they are used, so nothing is asked of them.
#[derive(Clone, Copy)]
struct Watch {
    first: usize,
    second: usize,
}

// The watched literals of the clauses that were read and found open, but for clauses of two literals,
// which are as soon read.
#[derive(Drop)]
pub(crate) struct Watches {
    watched: HashMap<u32, Watch>,
}

impl Watches {
    pub(crate) fn new(alloc: Global) -> Watches {
        Watches {
            watched: HashMap::new(alloc),
        }
    }

    // Whether two literals keep the clause open, which are watched from then on. It may miss them.
    pub(crate) fn keep_open(
        &mut self,
        clauses: &Clauses,
        decided: &Decided,
        number: u32,
    ) -> Result<bool, NoMemory>
        ensures { IfOk result (λ kept. IsTrue kept → IsOpenClause clauses.now decided.now number) }
    {
        match clauses.get(number as usize) {
            Some(literals) => self.keep_read_open(decided, literals, number),
            None => Ok(false),
        }
    }

    fn keep_read_open(
        &mut self,
        decided: &Decided,
        literals: &[Literal],
        number: u32,
    ) -> Result<bool, NoMemory>
        ensures { IfOk result (λ kept. IsTrue kept → IsOpen decided.now literals.now) }
    {
        if literals.len() < 3 {
            return Ok(false);
        }
        let last = self.watched.get(&number).copied();
        if let Some(watch) = last {
            if keeps_open(decided, literals, watch) {
                return Ok(true);
            }
        }
        let from = last.map_or(0, |watch| watch.second);
        let next = next_watch(decided, literals, from);
        if !keeps_open(decided, literals, next) {
            return Ok(false);
        }
        self.watched.insert(number, next)?;
        Ok(true)
    }
}

// Whether the two literals alone are open.
fn keeps_open(decided: &Decided, literals: &[Literal], watch: Watch) -> bool
    ensures { IsTrue result → IsOpen decided.now literals.now }
{
    let Some(first) = literals.get(watch.first) else {
        return false;
    };
    let Some(second) = literals.get(watch.second) else {
        return false;
    };
    matches!(look(decided, &[*first, *second]), Found::Open)
}

// The next two literals that may keep a clause open, from an index on and going round: the literals
// before it were passed since they are false, so that in all each clause is gone round few times.
fn next_watch(decided: &Decided, literals: &[Literal], from: usize) -> Watch {
    let mut found = Found::Refuted;
    let mut first = from;
    let mut index = from;
    'round: for _ in literals {
        if index >= literals.len() {
            index = 0;
        }
        if let Found::Refuted = found {
            first = index;
        }
        let literal = literals[index];
        found = found_after(found, literal, decided.value(literal.0));
        if let Found::Open = found {
            break;
        }
        index += 1;
    }
    Watch {
        first,
        second: index,
    }
}
