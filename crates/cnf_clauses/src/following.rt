//! Unit propagation that follows a path: an answer more decides more, and taking the answer back
//! takes that back.
ghost use Rattle.std.specs.Prelude.{◌≡◌, ◌++◌, ◌∷◌, [], None, Some, IfOk, OnErr};
ghost use Rattle.formula_tree.specs.Answers.{answer_of};
ghost use Rattle.cnf_clauses.specs.Following.{IsConflictAt, IsFollowed, IsStartOf, LosesLast};
ghost use Rattle.cnf_clauses.specs.Replays.{NoneReplay};
ghost use Rattle.cnf_clauses.specs.Trails.{HasOthers, HasReasons, IsEmptyTrail, IsNextLevel, IsOpposite, IsQuietTrail, IsSameTrail, IsTrailAt, IsTrailOf, TrailExtends, UnlessMet, WhereMet};

use crate::clauses::{Clauses, Hints};
use crate::explaining::{explain, reason_at};
use crate::trail::{Trail, decide, empty_trail, propagate, propagate_first, take_back};
use formula_tree::Path;
use plain_lists::NoMemory;
use std::alloc::Global;
use std::marker::Model;

/// A conflict: hints that replay from a path, and the answers of the path that they rest on. From
/// fewer answers of the path the hints replay exactly where all of these are among them.
#[derive(Drop)]
pub struct Conflict {
    pub hints: Hints,
    pub answers: Path,
}

/// Clauses, and a path from which no hints replay.
#[derive(Drop)]
pub struct Following {
    clauses: Clauses,
    path: Path,
    trail: Trail,
}

impl Model for Following {
    ghost use Rattle.cnf_clauses.specs.Levels.{Followed};

    ghost Value = { Followed };

    ghost view = { λ f. record { clauses = f.clauses; path = f.path } };

    ghost use Rattle.cnf_clauses.specs.Trails.{IsTrailOf};

    ghost invariant = { λ f. IsTrailOf f.clauses f.path f.trail };
}

/// What the clauses come to before any answer.
#[derive(Drop)]
pub enum Start {
    /// No hints replay from the empty path, which is followed from here on.
    Quiet(Following),
    /// Hints replay from the empty path.
    Met(Conflict),
}

impl Following {
    /// Begins at the empty path. A conflict is met exactly where hints replay from it.
    pub fn start(alloc: Global, clauses: Clauses) -> Result<Start, NoMemory>
        ensures { IfOk result (IsStartOf clauses) }
    {
        let mut trail = empty_trail(alloc);
        let path = Path::new(alloc);
        match first_conflict(alloc, &clauses, &path, &mut trail)? {
            Some(conflict) => Ok(Start::Met(conflict)),
            None => Ok(Start::Quiet(Following {
                clauses,
                path,
                trail,
            })),
        }
    }

    /// Answers one more test, at the end of the path. A conflict is met exactly where hints replay
    /// from the longer path; then, and where there is no memory, the path stays as it was.
    pub fn push(
        &mut self,
        alloc: Global,
        test: u32,
        answer: bool,
    ) -> Result<Option<Conflict>, NoMemory>
        requires { answer_of self.old.path test ≡ None }
        ensures ok { IfOk result (IsFollowed self.old test answer self.new) }
        ensures err { OnErr result (self.new ≡ self.old) }
    {
        self.path.push(test, answer)?;
        match follow_level(
            alloc,
            &self.clauses,
            &self.path,
            &mut self.trail,
            test,
            answer,
        ) {
            Ok(None) => Ok(None),
            Ok(Some(conflict)) => {
                self.path.pop();
                Ok(Some(conflict))
            }
            Err(failed) => {
                self.path.pop();
                Err(failed)
            }
        }
    }

    /// Takes the last answer back. Where the path is empty nothing changes.
    pub fn pop(&mut self)
        ensures clauses { self.new.clauses ≡ self.old.clauses }
        ensures last { LosesLast self.old.path self.new.path }
        ensures empty { self.old.path ≡ [] → self.new.path ≡ [] }
    {
        take_back(&mut self.trail);
        self.path.pop();
    }

    /// That no hints replay from the path. It does nothing.
    pub fn is_quiet(&self)
        ensures { NoneReplay self.now.clauses self.now.path }
    {
        // Read, so that the proof has what the type keeps of its trail.
        let _trail = &self.trail;
    }
}

// The conflict that is met before any answer, or none.
fn first_conflict(
    alloc: Global,
    clauses: &Clauses,
    path: &Path,
    trail: &mut Trail,
) -> Result<Option<Conflict>, NoMemory>
    requires path { path.now ≡ [] }
    requires trail { IsEmptyTrail trail.old }
    ensures none { UnlessMet result (IsTrailOf clauses.now path.now trail.new) }
    ensures conflict { WhereMet result (IsConflictAt clauses.now path.now) }
{
    let Some(number) = propagate_first(alloc, clauses, trail)? else {
        return Ok(None);
    };
    let upto = trail.decided.len();
    Ok(Some(explain(alloc, clauses, path, trail, upto, number)?))
}

// The conflict of an answer whose opposite was derived: the clause that said so is refuted.
fn contradicted(
    alloc: Global,
    clauses: &Clauses,
    path: &Path,
    trail: &Trail,
    test: u32,
) -> Result<Conflict, NoMemory>
    requires reasons { HasReasons clauses.now path.now trail.now }
    requires others { HasOthers test path.now trail.now.decided }
    requires opposite { IsOpposite test path.now trail.now.decided }
    ensures { IfOk result (IsConflictAt clauses.now path.now) }
{
    let index = trail.decided.index_of(test);
    match reason_at(&trail.reasons, index) {
        Some(number) => explain(alloc, clauses, path, trail, index, number),
        None => unreachable!(),
    }
}

// Follows the path's last answer.
fn follow_answer(
    alloc: Global,
    clauses: &Clauses,
    path: &Path,
    trail: &mut Trail,
    test: u32,
    answer: bool,
) -> Result<Option<Conflict>, NoMemory>
    requires answered { answer_of path.now test ≡ Some answer }
    requires others { HasOthers test path.now trail.old.decided }
    requires reasons { HasReasons clauses.now path.now trail.old }
    requires quiet { IsQuietTrail clauses.now trail.old }
    ensures kept { TrailExtends trail.old trail.new }
    ensures none { UnlessMet result (IsTrailAt clauses.now path.now trail.new) }
    ensures conflict { WhereMet result (IsConflictAt clauses.now path.now) }
{
    if let Some(value) = trail.decided.value(test) {
        if value == answer {
            return Ok(None);
        }
        return Ok(Some(contradicted(alloc, clauses, path, trail, test)?));
    }
    let from = trail.decided.len();
    decide(trail, test, answer)?;
    let Some(number) = propagate(alloc, clauses, trail, from)? else {
        return Ok(None);
    };
    let upto = trail.decided.len();
    Ok(Some(explain(alloc, clauses, path, trail, upto, number)?))
}

// As above, with a mark where the level begins. At a conflict, and where there is no memory, all is
// taken back.
fn follow_level(
    alloc: Global,
    clauses: &Clauses,
    path: &Path,
    trail: &mut Trail,
    test: u32,
    answer: bool,
) -> Result<Option<Conflict>, NoMemory>
    requires answered { answer_of path.now test ≡ Some answer }
    requires others { HasOthers test path.now trail.old.decided }
    requires reasons { HasReasons clauses.now path.now trail.old }
    requires quiet { IsQuietTrail clauses.now trail.old }
    ensures none { UnlessMet result (IsNextLevel clauses.now path.now trail.old trail.new) }
    ensures conflict { WhereMet result (IsConflictAt clauses.now path.now) }
    ensures same { WhereMet result (λ _. IsSameTrail trail.old trail.new) }
    ensures err { OnErr result (IsSameTrail trail.old trail.new) }
{
    trail.marks.push(trail.decided.len())?;
    match follow_answer(alloc, clauses, path, trail, test, answer) {
        Ok(None) => Ok(None),
        Ok(Some(conflict)) => {
            take_back(trail);
            Ok(Some(conflict))
        }
        Err(failed) => {
            take_back(trail);
            Err(failed)
        }
    }
}
