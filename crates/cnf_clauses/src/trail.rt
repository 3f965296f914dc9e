//! The trail of a path: what is decided, why, and how much was decided at each length of the path.
ghost use Rattle.std.specs.Prelude.{◌≡◌, ◌++◌, ◌∷◌, [], None, Some, map, take, IfOk, OnOk};
ghost use Rattle.formula_tree.specs.Answers.{answer_of};
ghost use Rattle.cnf_clauses.specs.Explains.{IsRefutedAt};
ghost use Rattle.cnf_clauses.specs.Propagates.{AreQuiet};
ghost use Rattle.cnf_clauses.specs.Reasons.{Extends};
ghost use Rattle.cnf_clauses.specs.Trails.{HasNoReason, IsCut, IsNoted, IsQuietTrail, IsSameTrail, KeepsReasons, TrailExtends, UnlessMet, WhereMet};

use crate::clauses::{Clauses, Hints};
use crate::decided::Decided;
use crate::propagation::{follow_all, settle_all};
use crate::watching::Watches;
use plain_lists::NoMemory;
use std::alloc::Global;

// Decided variables, each with the number of the clause that says so, or none where it is an answer
// of the path. A mark says how much was decided before an answer.
#[derive(Drop)]
pub(crate) struct Trail {
    pub(crate) decided: Decided,
    pub(crate) reasons: Vec<Option<u32>>,
    pub(crate) marks: Vec<usize>,
    pub(crate) watches: Watches,
}

pub(crate) fn empty_trail(alloc: Global) -> Trail
    ensures decided { result.decided ≡ [] }
    ensures reasons { result.reasons.items ≡ [] }
    ensures marks { result.marks.items ≡ [] }
{
    Trail {
        decided: Decided::new(alloc),
        reasons: Vec::new(alloc),
        marks: Vec::new(alloc),
        watches: Watches::new(alloc),
    }
}

// Decides a test that the path answers.
pub(crate) fn decide(trail: &mut Trail, test: u32, answer: bool) -> Result<(), NoMemory>
    requires { answer_of trail.old.decided test ≡ None }
    ensures kept { TrailExtends trail.old trail.new }
    ensures decided { OnOk result (trail.new.decided ≡ trail.old.decided ++ (test, answer) ∷ []) }
    ensures reasons { OnOk result (HasNoReason trail.old trail.new) }
{
    trail.decided.push(test, answer)?;
    trail.reasons.push(None)?;
    Ok(())
}

fn note_each(reasons: &mut Vec<Option<u32>>, numbers: &[u32]) -> Result<(), NoMemory>
    ensures kept { Extends reasons.old.items reasons.new.items }
    ensures noted { OnOk result (reasons.new.items ≡ reasons.old.items ++ map Some numbers.now) }
{
    'numbers: for number in numbers {
        reasons.push(Some(*number))?;
    }
    Ok(())
}

// Notes hints as reasons, but for that of a refuted clause, which is the last where a conflict was
// met, and the result.
fn note(reasons: &mut Vec<Option<u32>>, hints: Hints, met: bool) -> Result<Option<u32>, NoMemory>
    ensures kept { Extends reasons.old.items reasons.new.items }
    ensures noted { IfOk result (IsNoted hints met reasons.old.items reasons.new.items) }
{
    let mut numbers = hints.into_vec();
    let refuted = if met { numbers.pop() } else { None };
    note_each(reasons, numbers.as_slice())?;
    Ok(refuted)
}

// Derives what the clauses say of what was decided from an index on. The result is the number of a
// refuted clause, where one is met.
pub(crate) fn propagate(
    alloc: Global,
    clauses: &Clauses,
    trail: &mut Trail,
    from: usize,
) -> Result<Option<u32>, NoMemory>
    requires { AreQuiet clauses.now (take from trail.old.decided) trail.old.decided }
    ensures kept { TrailExtends trail.old trail.new }
    ensures reasons { IfOk result (λ _. KeepsReasons clauses.now trail.old trail.new) }
    ensures met { WhereMet result (IsRefutedAt clauses.now trail.new.decided) }
    ensures none { UnlessMet result (IsQuietTrail clauses.now trail.new) }
{
    let mut hints = Hints::new(alloc);
    let met = follow_all(
        clauses,
        &mut trail.decided,
        &mut trail.watches,
        &mut hints,
        from,
    )?;
    let refuted = note(&mut trail.reasons, hints, met)?;
    Ok(refuted)
}

// Derives what the clauses say before any answer. The result is the number of a refuted clause, where
// one is met.
pub(crate) fn propagate_first(
    alloc: Global,
    clauses: &Clauses,
    trail: &mut Trail,
) -> Result<Option<u32>, NoMemory>
    ensures reasons { IfOk result (λ _. KeepsReasons clauses.now trail.old trail.new) }
    ensures met { WhereMet result (IsRefutedAt clauses.now trail.new.decided) }
    ensures none { UnlessMet result (IsQuietTrail clauses.now trail.new) }
    ensures marks { trail.new.marks.items ≡ trail.old.marks.items }
{
    let mut hints = Hints::new(alloc);
    let met = settle_all(clauses, &mut trail.decided, &mut trail.watches, &mut hints)?;
    let refuted = note(&mut trail.reasons, hints, met)?;
    Ok(refuted)
}

// Takes back what was decided since the last mark.
pub(crate) fn take_back(trail: &mut Trail)
    ensures cut { IsCut trail.old trail.new }
    ensures empty { trail.old.marks.items ≡ [] → IsSameTrail trail.old trail.new }
{
    if let Some(mark) = trail.marks.pop() {
        trail.decided.cut(mark);
        trail.reasons.truncate(mark);
    }
}
