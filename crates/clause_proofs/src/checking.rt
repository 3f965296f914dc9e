//! The check of clausal proofs. It makes no search.
ghost use Rattle.std.specs.Prelude.{◌≡◌, ◌<◌, ◌^◌, ◌↔◌, [], All, IfOk, IsTrue, length, map};
ghost use Rattle.formula_tree.specs.Answers.{IsDistinct};
ghost use Rattle.cnf_clauses.specs.Literals.{complement};
ghost use Rattle.policy_model.specs.Soundness.{SchemaIsSound, TestSuits};
ghost use Rattle.slot_theory.specs.Cores.{Accepts};
ghost use Rattle.clause_proofs.specs.Refuting.{IsJustified, IsRightLine, LinesRefute, RefuteClauses, clause_of};
ghost use Rattle.clause_proofs.specs.Checks.{IsSoundSubject};

use crate::lines::{Line, clause_of};
use cnf_clauses::{Clauses, MOST_CLAUSES, clauses_of, replay};
use formula_tree::Path;
use plain_lists::{List, NoMemory};
use policy_compile::Query;
use policy_model::Schema;
use slot_theory::{Core, SlotProof, accepts};
use std::alloc::Global;

/// What a check is of.
#[derive(Drop)]
struct Subject<'a> {
    alloc: Global,
    schema: &'a Schema,
    query: &'a Query,
}

/// Whether the tests of the answers are below the number of tests.
fn are_in_range(answers: &[(u32, bool)], tests: usize) -> bool
    ensures { IsTrue result ↔ All (λ a. a.0 < tests) answers.now }
{
    'answers: for answer in answers {
        if answer.0 as usize >= tests {
            return false;
        }
    }
    true
}

/// The tests of the answers.
fn core_of(alloc: Global, answers: &[(u32, bool)]) -> Result<Core, NoMemory>
    ensures { IfOk result (λ core. core ≡ map (λ a. a.0) answers.now) }
{
    let mut core = List::new(alloc);
    'answers: for answer in answers {
        core.push(answer.0)?;
    }
    Ok(core)
}

/// Whether the proof shows that no value of a slot gives the answers, which are the path's.
fn excludes(
    subject: &Subject<'_>,
    path: &Path,
    answers: &[(u32, bool)],
    proof: &SlotProof,
) -> Result<bool, NoMemory>
    requires ready { IsSoundSubject subject.now }
    requires path { path.now ≡ answers.now }
    ensures { IfOk result (λ yes. IsTrue yes ↔ Accepts subject.now.schema.now
        subject.now.query.now.tests answers.now (map (λ a. a.0) answers.now) proof.now) }
{
    let tests = &subject.query.tests;
    if !are_in_range(answers, tests.len()) {
        return Ok(false);
    }
    let core = core_of(subject.alloc, answers)?;
    accepts(subject.alloc, subject.schema, tests, path, &core, proof)
}

/// Whether the line's clause holds wherever the clauses do. The path makes each literal of it false.
fn is_justified(
    subject: &Subject<'_>,
    clauses: &Clauses,
    path: &Path,
    line: &Line,
) -> Result<bool, NoMemory>
    requires ready { IsSoundSubject subject.now }
    requires path { path.now ≡ map complement (clause_of line.now) }
    ensures { IfOk result (λ yes. IsTrue yes ↔ IsJustified
        subject.now.schema.now subject.now.query.now.tests clauses.now line.now) }
{
    match line {
        Line::Derived { hints, .. } => replay(subject.alloc, clauses, path, hints),
        Line::Excluded { answers, proof } => excludes(subject, path, answers.as_slice(), proof),
    }
}

/// Takes each answer back.
fn clear(path: &mut Path)
    ensures { path.new ≡ [] }
{
    'answers: while path.len() > 0 {
        path.pop();
    }
}

/// Makes the path that of the values that make each literal false, unless a variable stands twice.
fn falsify(path: &mut Path, literals: &[(u32, bool)]) -> Result<bool, NoMemory>
    ensures distinct { IfOk result (λ yes. IsTrue yes ↔ IsDistinct literals.now) }
    ensures path { IfOk result (λ yes. IsTrue yes → path.new ≡ map complement literals.now) }
{
    clear(path);
    'literals: for literal in literals {
        if path.answer(literal.0).is_some() {
            return Ok(false);
        }
        path.push(literal.0, !literal.1)?;
    }
    Ok(true)
}

/// Whether the line is right behind the clauses. The path is one of any answers, whose memory is used again.
fn is_right(
    subject: &Subject<'_>,
    clauses: &Clauses,
    path: &mut Path,
    line: &Line,
    clause: &[(u32, bool)],
) -> Result<bool, NoMemory>
    requires ready { IsSoundSubject subject.now }
    requires clause { clause.now ≡ clause_of line.now }
    ensures { IfOk result (λ yes. IsTrue yes ↔ IsRightLine
        subject.now.schema.now subject.now.query.now.tests clauses.now line.now) }
{
    if clauses.len() >= MOST_CLAUSES {
        return Ok(false);
    }
    if !falsify(path, clause)? {
        return Ok(false);
    }
    is_justified(subject, clauses, path, line)
}

/// Whether the lines refute the clauses. The path is one of any answers, whose memory is used again.
fn refute_clauses(
    subject: &Subject<'_>,
    clauses: Clauses,
    path: &mut Path,
    lines: &[Line],
) -> Result<bool, NoMemory>
    requires ready { IsSoundSubject subject.now }
    ensures { IfOk result (λ yes. IsTrue yes ↔ RefuteClauses
        subject.now.schema.now subject.now.query.now.tests clauses lines.now) }
{
    let mut clauses = clauses;
    'lines: for line in lines {
        let clause = clause_of(subject.alloc, line)?;
        if !is_right(subject, &clauses, path, line, clause.as_slice())? {
            return Ok(false);
        }
        if clause.is_empty() {
            return Ok(true);
        }
        clauses = clauses.with(subject.alloc, clause)?;
    }
    Ok(false)
}

/// Whether the lines refute the query: each up to one whose clause is empty is right by the clauses before it, which
/// are those of the query's formula and then those of the lines before. What stands behind that line isn't looked at.
///
/// The schema is sound, and the tests suit it and are numbered by 32 bits. Time is that of the hints, of the slot
/// proofs, and for each line of the greatest variable that it decides; a clause is copied once. The only error is want
/// of memory.
pub fn refutes(
    alloc: Global,
    schema: &Schema,
    query: &Query,
    lines: &[Line],
) -> Result<bool, NoMemory>
    requires sound { SchemaIsSound schema.now }
    requires suit { All (TestSuits schema.now) query.now.tests }
    requires count { length query.now.tests < 2 ^ 32 }
    ensures { IfOk result (λ yes. IsTrue yes ↔ LinesRefute schema.now query.now lines.now) }
{
    let clauses = clauses_of(alloc, &query.formula, query.tests.len() as u32)?;
    let mut path = Path::new(alloc);
    let subject = Subject {
        alloc,
        schema,
        query,
    };
    refute_clauses(&subject, clauses, &mut path, lines)
}
