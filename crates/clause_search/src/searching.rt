//! The search: assignments of the clauses, and what the slots say of them, in turn.
ghost use Rattle.std.specs.Prelude.{◌≡◌, ◌≤◌, ◌<◌, ◌^◌, All, IfOk, IfSome, IsTrue, length};
ghost use Rattle.formula_tree.specs.Values.{AreBelow};
ghost use Rattle.policy_compile.specs.Queries.{asked_tree};
ghost use Rattle.policy_model.specs.Soundness.{SchemaIsSound, TestSuits};
ghost use Rattle.slot_theory.specs.Possible.{PathInRange};
ghost use Rattle.clause_search.specs.Asked.{IsSearchAsked};
ghost use Rattle.clause_search.specs.Outcomes.{IsSearchOutcome};

use crate::choosing::choose;
use crate::meeting::meet;
use crate::outcome::Outcome;
use crate::slots::{Failing, ask_levels};
use clause_learning::{Asked, Ending, Guesses, MOST_WORK, Solver, size_of};
use clause_proofs::refutes;
use cnf_clauses::{Clauses, clauses_of};
use formula_tree::Path;
use plain_lists::NoMemory;
use policy_compile::Query;
use policy_model::Schema;
use request_build::SlotValues;
use slot_theory::SlotProof;
use std::alloc::Global;
use std::mem::replace;

// Formulas whose clauses have more literals are left open at once.
const MOST_LITERALS: usize = 200_000;

// What the choice of answers takes for each literal of the formula's clauses, in units of work.
const CHOICE_WORK: usize = 4;

// What an answer that slots are asked about takes, in units of work.
const ANSWER_WORK: usize = 20;

/// Searches for a refutation of the query, or for a valid request that makes it yes. Conflict-driven clause learning
/// finds assignments of the formula's clauses. The slots are asked about few answers of each that already make the
/// formula yes, and what they exclude is learned too. A refutation is one that the check of clausal proofs accepts. The
/// query is left open where its formula is very large, where slots need more product states than `states`, and where
/// the search or its proof would be long. Its limits don't rest on the machine.
///
/// The schema is sound and every test suits it, the formula's test numbers are below the number of tests, and `states`
/// is at least 1. The only error is want of memory.
pub fn search(
    alloc: Global,
    schema: &Schema,
    query: &Query,
    states: u32,
) -> Result<Outcome, NoMemory>
    requires sound { SchemaIsSound schema.now }
    requires suit { All (TestSuits schema.now) query.now.tests }
    requires count { length query.now.tests < 2 ^ 32 }
    requires below { AreBelow (length query.now.tests) (asked_tree query.now) }
    requires states { 1 ≤ states }
    ensures { IfOk result (IsSearchOutcome schema.now query.now) }
{
    // The schema's keys are in order, so the request of values that answer a path is valid.
    let _keys = schema.len();
    let asked = Asked {
        alloc,
        schema,
        query,
        states,
    };
    let clauses = clauses_of(alloc, &query.formula, query.tests.len() as u32)?;
    search_clauses(&asked, &clauses)
}

// What is known of the slots, beside the clauses that they led to.
#[derive(Drop)]
struct Theory {
    failing: Failing,
    guesses: Guesses,
    // How many literals the formula's clauses have.
    size: usize,
}

// Nothing is known yet.
fn theory_of(asked: &Asked<'_>, size: usize) -> Result<Theory, NoMemory> {
    let guesses = Guesses::new(asked.alloc, asked.query.tests.as_slice())?;
    Ok(Theory {
        failing: Failing::new(asked.alloc),
        guesses,
        size,
    })
}

// The search over the clauses of the query's formula.
fn search_clauses(asked: &Asked<'_>, clauses: &Clauses) -> Result<Outcome, NoMemory>
    requires ready { IsSearchAsked asked.now }
    ensures { IfOk result (IsSearchOutcome asked.now.schema.now asked.now.query.now) }
{
    let size = size_of(clauses);
    if size.literals > MOST_LITERALS {
        return Ok(Outcome::Open);
    }
    let mut solver = Solver::new(asked.alloc, size.variables)?;
    let mut theory = theory_of(asked, size.literals)?;
    search_with(asked, clauses, &mut solver, &mut theory)
}

fn search_with(
    asked: &Asked<'_>,
    clauses: &Clauses,
    solver: &mut Solver,
    theory: &mut Theory,
) -> Result<Outcome, NoMemory>
    requires ready { IsSearchAsked asked.now }
    ensures { IfOk result (IsSearchOutcome asked.now.schema.now asked.now.query.now) }
{
    if let Some(number) = solver.take_all(clauses)? {
        solver.learn(number)?;
        return checked(asked, solver);
    }
    'rounds: for _ in 0..MOST_WORK {
        if let Some(outcome) = round(asked, solver, theory)? {
            return Ok(outcome);
        }
    }
    Ok(Outcome::Open)
}

// Goes on to the next assignment. None where there is one.
fn assign(asked: &Asked<'_>, solver: &mut Solver) -> Result<Option<Outcome>, NoMemory>
    requires ready { IsSearchAsked asked.now }
    ensures { IfOk result (λ o.
        IfSome o (IsSearchOutcome asked.now.schema.now asked.now.query.now)) }
{
    match solver.assign_all()? {
        Ending::Refuted => Ok(Some(checked(asked, solver)?)),
        Ending::Spent => Ok(Some(Outcome::Open)),
        Ending::Satisfied => Ok(None),
    }
}

// One assignment more, and what the slots say of it. None where the search goes on.
fn round(
    asked: &Asked<'_>,
    solver: &mut Solver,
    theory: &mut Theory,
) -> Result<Option<Outcome>, NoMemory>
    requires ready { IsSearchAsked asked.now }
    ensures { IfOk result (λ o.
        IfSome o (IsSearchOutcome asked.now.schema.now asked.now.query.now)) }
{
    if let Some(outcome) = assign(asked, solver)? {
        return Ok(Some(outcome));
    }
    solver.limits.spend(theory.size.saturating_mul(CHOICE_WORK));
    let mut path = Path::new(asked.alloc);
    choose(&solver.assignment, &mut path, &asked.query.formula, true)?;
    if !is_in_range(asked, &path) {
        return Ok(Some(Outcome::Open));
    }
    ask(asked, solver, &path, theory)
}

// Asks the slots about the answers. Slots without a known value come first; if all have one, each is
// asked.
fn ask(
    asked: &Asked<'_>,
    solver: &mut Solver,
    path: &Path,
    theory: &mut Theory,
) -> Result<Option<Outcome>, NoMemory>
    requires ready { IsSearchAsked asked.now }
    requires range { PathInRange asked.now.query.now.tests path.now }
    ensures { IfOk result (λ o.
        IfSome o (IsSearchOutcome asked.now.schema.now asked.now.query.now)) }
{
    let open = theory.guesses.unsettled(asked, path)?;
    if !is_in_range(asked, &open) {
        return Ok(Some(Outcome::Open));
    }
    solver.limits.spend(path.len().saturating_mul(ANSWER_WORK));
    ask_unsettled(asked, solver, &open, theory)?;
    if !theory.failing.is_empty() {
        return exclude(asked, solver, &open, theory);
    }
    meet_all(asked, solver, path, theory)
}

// Asks the slots of the answers, and keeps their values.
fn ask_unsettled(
    asked: &Asked<'_>,
    solver: &mut Solver,
    path: &Path,
    theory: &mut Theory,
) -> Result<(), NoMemory>
    requires ready { IsSearchAsked asked.now }
    requires range { PathInRange asked.now.query.now.tests path.now }
{
    let mut values = SlotValues::new(asked.alloc);
    ask_levels(asked, path, &mut values, &mut theory.failing)?;
    let compared = path.len().saturating_mul(path.len());
    solver.limits.spend(theory.failing.take_work());
    solver.limits.spend(compared);
    theory.guesses.keep(&values)
}

// Asks each slot of the answers.
fn meet_all(
    asked: &Asked<'_>,
    solver: &mut Solver,
    path: &Path,
    theory: &mut Theory,
) -> Result<Option<Outcome>, NoMemory>
    requires ready { IsSearchAsked asked.now }
    requires range { PathInRange asked.now.query.now.tests path.now }
    ensures { IfOk result (λ o.
        IfSome o (IsSearchOutcome asked.now.schema.now asked.now.query.now)) }
{
    let mut values = SlotValues::new(asked.alloc);
    ask_levels(asked, path, &mut values, &mut theory.failing)?;
    if let Some(request) = meet(asked, path, &values)? {
        return Ok(Some(Outcome::Met(request)));
    }
    exclude(asked, solver, path, theory)
}

// Learns what the slots exclude. Where they exclude nothing other answers are looked for.
fn exclude(
    asked: &Asked<'_>,
    solver: &mut Solver,
    path: &Path,
    theory: &mut Theory,
) -> Result<Option<Outcome>, NoMemory>
    requires ready { IsSearchAsked asked.now }
    ensures { IfOk result (λ o.
        IfSome o (IsSearchOutcome asked.now.schema.now asked.now.query.now)) }
{
    if learn_cores(asked, solver, path, theory)? {
        return Ok(Some(checked(asked, solver)?));
    }
    Ok(None)
}

// Learns the cores. Where there is none other answers are looked for. Whether the lines end.
fn learn_cores(
    asked: &Asked<'_>,
    solver: &mut Solver,
    path: &Path,
    theory: &mut Theory,
) -> Result<bool, NoMemory> {
    let cores = replace(&mut theory.failing.cores, Vec::new(asked.alloc));
    if cores.is_empty() {
        solver.limits.count_wide_round();
        turn(asked, solver, path, &theory.failing)?;
    }
    'cores: for (core, proof) in cores {
        if solver.exclude_core(path, core.as_slice(), proof)? {
            return Ok(true);
        }
    }
    Ok(false)
}

// Begins anew where tests of the slots that ran out of states rather have the other answers.
fn turn(
    asked: &Asked<'_>,
    solver: &mut Solver,
    path: &Path,
    failing: &Failing,
) -> Result<(), NoMemory> {
    solver.back_to(0)?;
    for (number, answer) in path.as_slice() {
        if let Some(test) = asked.query.tests.get(*number as usize) {
            if failing.has_test(test) {
                solver.assignment.prefer((*number, !*answer));
            }
        }
    }
    Ok(())
}

// The outcome of lines that end with the empty clause.
fn checked(asked: &Asked<'_>, solver: &Solver) -> Result<Outcome, NoMemory>
    requires ready { IsSearchAsked asked.now }
    ensures { IfOk result (IsSearchOutcome asked.now.schema.now asked.now.query.now) }
{
    let lines = solver.lines.as_slice();
    if refutes(asked.alloc, asked.schema, asked.query, lines)? {
        return Ok(Outcome::Refuted);
    }
    // The lines are right; nothing but the check shows it.
    Ok(Outcome::Open)
}

/// Whether the path answers tests of the query alone, as what is chosen does.
pub(crate) fn is_in_range(asked: &Asked<'_>, path: &Path) -> bool
    ensures { IsTrue result → PathInRange asked.now.query.now.tests path.now }
{
    'answers: for answer in path.as_slice() {
        if answer.0 as usize >= asked.query.tests.len() {
            return false;
        }
    }
    true
}
