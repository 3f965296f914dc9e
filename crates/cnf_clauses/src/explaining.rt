//! Explaining a conflict: going back over what was decided, which clauses say what a refuted
//! clause needs, and on which answers of the path it all rests.
ghost use Rattle.std.specs.Prelude.{◌≡◌, ◌++◌, ◌+◌, ◌<◌, ◌≤◌, None, false, length, slice_index_or, take, IfOk, OnOk};
ghost use Rattle.cnf_clauses.specs.Explains.{Agree, AreNeeded, ExplainsAt, HasLiterals, HasSameMarks, IsNeededReason, IsRefutedAt, IsTraced, NeedsAlso};
ghost use Rattle.cnf_clauses.specs.Following.{IsConflictAt};
ghost use Rattle.cnf_clauses.specs.Trails.{HasReasons};

use crate::clause::Literal;
use crate::clauses::Clauses;
use crate::following::Conflict;
use crate::trail::Trail;
use formula_tree::Path;
use plain_lists::{List, NoMemory, fill_to};
use std::alloc::Global;

// The variables that a conflict needs, and its hints, the last first.
#[derive(Drop)]
pub(crate) struct Traced {
    pub(crate) needed: Vec<bool>,
    pub(crate) hints: Vec<u32>,
}

fn need_all(needed: &mut Vec<bool>, literals: &[Literal]) -> Result<(), NoMemory>
    ensures { OnOk result (NeedsAlso literals.now needed.old.items needed.new.items) }
{
    'literals: for literal in literals {
        fill_to(needed, literal.0 as usize, false)?;
        needed[literal.0 as usize] = true;
    }
    Ok(())
}

fn is_needed(needed: &Vec<bool>, variable: u32) -> bool
    ensures { result ≡ slice_index_or needed.now.items variable false }
{
    match needed.as_slice().get(variable as usize) {
        Some(mark) => *mark,
        None => false,
    }
}

// The literals of a clause, and none where there is no clause of the number.
fn literals_at(clauses: &Clauses, number: u32) -> &[Literal]
    ensures { HasLiterals clauses.now number result.now }
{
    match clauses.get(number as usize) {
        Some(literals) => literals,
        None => &[],
    }
}

// One more hint: what its clause needs is needed.
fn trace(clauses: &Clauses, traced: &mut Traced, number: u32) -> Result<(), NoMemory>
    ensures { OnOk result (IsTraced clauses.now traced.old number traced.new) }
{
    need_all(&mut traced.needed, literals_at(clauses, number))?;
    traced.hints.push(number)?;
    Ok(())
}

pub(crate) fn reason_at(reasons: &Vec<Option<u32>>, index: usize) -> Option<u32>
    ensures { result ≡ slice_index_or reasons.now.items index None }
{
    match reasons.as_slice().get(index) {
        Some(reason) => *reason,
        None => None,
    }
}

// The reason of a decided variable, where it is needed and the path doesn't answer it. A test that
// was derived and then answered counts as an answer: from the path its clause is satisfied, and as a
// hint it would fail.
fn needed_reason(
    path: &Path,
    needed: &Vec<bool>,
    literal: Literal,
    reason: Option<u32>,
) -> Option<u32>
    ensures { IsNeededReason path.now needed.now.items literal reason result }
{
    if !is_needed(needed, literal.0) {
        return None;
    }
    if path.answer(literal.0).is_some() {
        return None;
    }
    reason
}

// The answers of the path that are needed.
fn needed_answers(alloc: Global, path: &Path, needed: &Vec<bool>) -> Result<Path, NoMemory>
    ensures { IfOk result (AreNeeded path.now needed.now.items) }
{
    let mut used = Path::new(alloc);
    'answers: for (test, answer) in path.as_slice() {
        if !is_needed(needed, *test) {
            continue;
        }
        used.push(*test, *answer)?;
    }
    Ok(used)
}

// Goes back over one decided variable: its reason is a hint where it is needed.
fn trace_step(
    clauses: &Clauses,
    path: &Path,
    trail: &Trail,
    traced: &mut Traced,
    index: usize,
) -> Result<(), NoMemory>
    requires reasons { HasReasons clauses.now path.now trail.now }
    requires within { index < length trail.now.decided }
    requires agree { Agree path.now (take index trail.now.decided) }
    requires later { ExplainsAt clauses.now path.now trail.now.decided (index + 1) traced.old }
    ensures { OnOk result (ExplainsAt clauses.now path.now trail.now.decided index traced.new) }
{
    let literal = trail.decided.at(index);
    let reason = reason_at(&trail.reasons, index);
    match needed_reason(path, &traced.needed, literal, reason) {
        Some(number) => trace(clauses, traced, number),
        None => Ok(()),
    }
}

// Goes back over the first so many of the decided variables.
fn trace_back(
    clauses: &Clauses,
    path: &Path,
    trail: &Trail,
    traced: &mut Traced,
    upto: usize,
) -> Result<(), NoMemory>
    requires reasons { HasReasons clauses.now path.now trail.now }
    requires within { upto ≤ length trail.now.decided }
    requires agree { Agree path.now (take upto trail.now.decided) }
    requires conflict { ExplainsAt clauses.now path.now trail.now.decided upto traced.old }
    ensures { OnOk result (ExplainsAt clauses.now path.now trail.now.decided 0 traced.new) }
{
    let mut left = upto;
    'back: while left > 0 {
        left -= 1;
        trace_step(clauses, path, trail, traced, left)?;
    }
    Ok(())
}

// The conflict of a clause that is refuted by the path and the first so many of the decided
// variables.
pub(crate) fn explain(
    alloc: Global,
    clauses: &Clauses,
    path: &Path,
    trail: &Trail,
    upto: usize,
    number: u32,
) -> Result<Conflict, NoMemory>
    requires reasons { HasReasons clauses.now path.now trail.now }
    requires within { upto ≤ length trail.now.decided }
    requires agree { Agree path.now (take upto trail.now.decided) }
    requires refuted { IsRefutedAt clauses.now (path.now ++ take upto trail.now.decided) number }
    ensures { IfOk result (IsConflictAt clauses.now path.now) }
{
    let mut traced = Traced {
        needed: Vec::new(alloc),
        hints: Vec::new(alloc),
    };
    trace(clauses, &mut traced, number)?;
    trace_back(clauses, path, trail, &mut traced, upto)?;
    let answers = needed_answers(alloc, path, &traced.needed)?;
    let mut hints = traced.hints;
    hints.reverse();
    Ok(Conflict {
        hints: List::from_vec(hints),
        answers,
    })
}
