//! The check of refutations.
ghost use Rattle.std.specs.Prelude.{◌≡◌, ◌<◌, ◌^◌, ◌↔◌, All, IfOk, IsTrue, OnOk, length};
ghost use Rattle.formula_tree.specs.Runs.{path_with};
ghost use Rattle.policy_model.specs.Soundness.{SchemaIsSound, TestSuits};
ghost use Rattle.slot_theory.specs.Possible.{PathInRange};
ghost use Rattle.slot_theory.specs.Cores.{Accepts};
ghost use Rattle.refute_check.specs.Closing.{Rise};
ghost use Rattle.refute_check.specs.Proofs.{proof_of, size, split};
ghost use Rattle.refute_check.specs.Queries.{HoldsHere};
ghost use Rattle.refute_check.specs.Verdicts.{IsVerdict};
ghost use Rattle.refute_check.specs.Walks.{IsCheckable, IsLabelWalked, IsOpenTest, IsWalked, IsWholeWalk, KnowsCores, raised_walk};

use crate::accepted::AcceptedCores;
use crate::labels::{Labels, empty_path, path_of, set_aside};
use crate::refutation::{AnswerList, Refutation};
use cnf_clauses::{Clauses, clauses_of, replay};
use formula_tree::{Path, Three, value3};
use plain_lists::{List, NoMemory};
use policy_compile::Query;
use policy_model::Schema;
use slot_theory::{Core, SlotProof, accepts};
use std::alloc::Global;
use std::rc::Rc;

/// What a check answers.
#[derive(Clone, Copy, PartialEq, Eq)]
pub enum Verdict {
    /// The refutation closes the query.
    Closes,
    /// The first node in reading order, counted from 0, whose own rule fails.
    Fails { node: u32 },
}

/// What a walk through a part of a refutation answers. Numbers beyond the greatest are said to be the
/// greatest.
#[derive(Clone, Copy)]
enum Walked {
    /// The part closes, and has so many nodes.
    Closed(u32),
    /// The first node whose own rule fails.
    Failed(u32),
}

/// What a walk has passed: labels, and cores that were accepted.
#[derive(Drop)]
struct Passed {
    labels: Labels,
    cores: AcceptedCores,
    /// Paths that are free for the labels that follow.
    spare: Vec<Path>,
}

/// What a check is of.
#[derive(Drop)]
struct Checking<'a> {
    alloc: Global,
    schema: &'a Schema,
    query: &'a Query,
    /// The clauses of the query's formula, made once.
    clauses: Clauses,
}

impl<'a> Checking<'a> {
    /// Whether the node's own rule holds under the path, what is below it aside.
    fn holds_here(
        &self,
        node: &Refutation,
        path: &Path,
        labels: &Labels,
        cores: &mut AcceptedCores,
    ) -> Result<bool, NoMemory>
        requires ready { IsCheckable self.now }
        requires range { PathInRange self.now.query.now.tests path.now }
        requires known { KnowsCores self.now cores.old }
        ensures holds { IfOk result (λ yes. IsTrue yes ↔
            HoldsHere self.now.schema.now self.now.query.now labels.now node.now path.now) }
        ensures known { OnOk result (KnowsCores self.now cores.new) }
    {
        let tests = &self.query.tests;
        match node {
            Refutation::ByValue => Ok(value3(&self.query.formula, path) == Three::No),
            Refutation::BySlot { core, proof } => self.accepts_core(path, core, proof, cores),
            Refutation::ByClauses { hints } => replay(self.alloc, &self.clauses, path, hints),
            Refutation::Split { test, .. } => {
                Ok((*test as usize) < tests.len() && path.answer(*test).is_none())
            }
            Refutation::Label {
                number,
                answers,
                ..
            } => Ok(labels.may_begin(*number, answers, path)),
            Refutation::Reuse { number } => Ok(labels.may_reuse(*number, path)),
        }
    }

    /// Whether the core and its proof are accepted under the path. One that was isn't looked at again.
    fn accepts_core(
        &self,
        path: &Path,
        core: &Core,
        proof: &Rc<SlotProof>,
        cores: &mut AcceptedCores,
    ) -> Result<bool, NoMemory>
        requires ready { IsCheckable self.now }
        requires range { PathInRange self.now.query.now.tests path.now }
        requires known { KnowsCores self.now cores.old }
        ensures accepted { IfOk result (λ yes. IsTrue yes ↔ Accepts
            self.now.schema.now self.now.query.now.tests path.now core.now proof.now.value) }
        ensures known { OnOk result (KnowsCores self.now cores.new) }
    {
        if cores.has(path, core, proof) {
            return Ok(true);
        }
        if !accepts(
            self.alloc,
            self.schema,
            &self.query.tests,
            path,
            core,
            proof,
        )? {
            return Ok(false);
        }
        cores.keep(self.alloc, path, core, proof)?;
        Ok(true)
    }

    /// The part under the path, which is as before. Where the part closes, its labels stand before
    /// what follows it.
    #[cycle(walk)]
    fn walk(
        &self,
        part: &Refutation,
        path: &mut Path,
        passed: &mut Passed,
    ) -> Result<Walked, NoMemory>
        requires ready { IsCheckable self.now }
        requires range { PathInRange self.now.query.now.tests path.old }
        requires known { KnowsCores self.now passed.old.cores }
        ensures walked { IfOk result (IsWalked self.now.schema.now self.now.query.now
            passed.old.labels (proof_of part.now) path.old passed.new.labels) }
        ensures path { OnOk result (path.new ≡ path.old) }
        ensures known { OnOk result (KnowsCores self.now passed.new.cores) }
    {
        if !self.holds_here(part, path, &passed.labels, &mut passed.cores)? {
            return Ok(Walked::Failed(0));
        }
        match part {
            Refutation::Split { test, yes, no } => self.walk_sides(*test, yes, no, path, passed),
            Refutation::Label {
                number,
                answers,
                inner,
            } => self.walk_label(*number, answers, inner, passed),
            Refutation::ByValue => Ok(Walked::Closed(1)),
            Refutation::BySlot { .. } => Ok(Walked::Closed(1)),
            Refutation::ByClauses { .. } => Ok(Walked::Closed(1)),
            Refutation::Reuse { .. } => Ok(Walked::Closed(1)),
        }
    }

    /// The split on a test that the path leaves open.
    #[cycle(walk)]
    fn walk_sides(
        &self,
        test: u32,
        yes: &Refutation,
        no: &Refutation,
        path: &mut Path,
        passed: &mut Passed,
    ) -> Result<Walked, NoMemory>
        requires ready { IsCheckable self.now }
        requires range { PathInRange self.now.query.now.tests path.old }
        requires known { KnowsCores self.now passed.old.cores }
        requires open { IsOpenTest self.now.query.now test path.old }
        ensures walked { IfOk result (IsWalked self.now.schema.now self.now.query.now
            passed.old.labels (split test (proof_of yes.now) (proof_of no.now))
            path.old passed.new.labels) }
        ensures path { OnOk result (path.new ≡ path.old) }
        ensures known { OnOk result (KnowsCores self.now passed.new.cores) }
    {
        let first = self.walk_side(test, true, yes, path, passed)?;
        match first {
            Walked::Failed(_) => Ok(raised_walk(first, 0)),
            Walked::Closed(nodes) => {
                let second = self.walk_side(test, false, no, path, passed)?;
                Ok(raised_walk(second, nodes))
            }
        }
    }

    /// The side of a split for one answer.
    #[cycle(walk)]
    fn walk_side(
        &self,
        test: u32,
        answer: bool,
        side: &Refutation,
        path: &mut Path,
        passed: &mut Passed,
    ) -> Result<Walked, NoMemory>
        requires ready { IsCheckable self.now }
        requires range { PathInRange self.now.query.now.tests path.old }
        requires known { KnowsCores self.now passed.old.cores }
        requires open { IsOpenTest self.now.query.now test path.old }
        ensures walked { IfOk result (IsWalked self.now.schema.now self.now.query.now
            passed.old.labels (proof_of side.now)
            (path_with path.old test answer) passed.new.labels) }
        ensures path { OnOk result (path.new ≡ path.old) }
        ensures known { OnOk result (KnowsCores self.now passed.new.cores) }
    {
        path.push(test, answer)?;
        let walked = self.walk(side, path, passed)?;
        path.pop();
        Ok(walked)
    }

    /// The label that is next, and whose tests rise.
    #[cycle(walk)]
    fn walk_label(
        &self,
        number: u32,
        answers: &AnswerList,
        inner: &Refutation,
        passed: &mut Passed,
    ) -> Result<Walked, NoMemory>
        requires ready { IsCheckable self.now }
        requires range { PathInRange self.now.query.now.tests answers.now }
        requires known { KnowsCores self.now passed.old.cores }
        requires next { number ≡ passed.old.labels.begun }
        requires rise { Rise answers.now }
        ensures walked { IfOk result (IsLabelWalked self.now.schema.now self.now.query.now
            passed.old.labels number answers.now (proof_of inner.now) passed.new.labels) }
        ensures known { OnOk result (KnowsCores self.now passed.new.cores) }
    {
        passed.labels.begin()?;
        let empty = empty_path(self.alloc, &mut passed.spare);
        let mut own = path_of(empty, answers.as_slice())?;
        let walked = self.walk(inner, &mut own, passed)?;
        set_aside(&mut passed.spare, own)?;
        match walked {
            Walked::Failed(_) => Ok(raised_walk(walked, 0)),
            Walked::Closed(_) => {
                passed.labels.end(number, copy(self.alloc, answers)?)?;
                Ok(raised_walk(walked, 0))
            }
        }
    }
}

// What the walk of a part says of the node above it, which has so many nodes before the part.
fn raised_walk(walked: Walked, before: u32) -> Walked
    ensures { result ≡ raised_walk walked before }
{
    match walked {
        Walked::Closed(nodes) => Walked::Closed(nodes.saturating_add(before).saturating_add(1)),
        Walked::Failed(node) => Walked::Failed(node.saturating_add(before).saturating_add(1)),
    }
}

fn copy(alloc: Global, answers: &AnswerList) -> Result<AnswerList, NoMemory>
    ensures { IfOk result (λ list. list ≡ answers.now) }
{
    Ok(List::from_vec(Vec::from_slice(alloc, answers.as_slice())?))
}

// The walk through a whole refutation. The path is as before.
fn walk_whole(
    alloc: Global,
    schema: &Schema,
    query: &Query,
    refutation: &Refutation,
    path: &mut Path,
) -> Result<Walked, NoMemory>
    requires sound { SchemaIsSound schema.now }
    requires suit { All (TestSuits schema.now) query.now.tests }
    requires count { length query.now.tests < 2 ^ 32 }
    requires range { PathInRange query.now.tests path.old }
    ensures { IfOk result (IsWholeWalk schema.now query.now (proof_of refutation.now) path.old) }
{
    let clauses = clauses_of(alloc, &query.formula, query.tests.len() as u32)?;
    let checking = Checking {
        alloc,
        schema,
        query,
        clauses,
    };
    let mut passed = Passed {
        labels: Labels::new(alloc),
        cores: AcceptedCores::new(alloc),
        spare: Vec::new(alloc),
    };
    checking.walk(refutation, path, &mut passed)
}

/// Whether the refutation closes the query under the empty path: `Closes` exactly where it does, and
/// otherwise the first node in reading order whose own rule fails.
///
/// The schema is sound, the tests suit it and are numbered by 32 bits, and so are the refutation's nodes, a shared
/// one as often as it stands. The only error is want of memory.
pub fn check(
    alloc: Global,
    schema: &Schema,
    query: &Query,
    refutation: &Refutation,
) -> Result<Verdict, NoMemory>
    requires sound { SchemaIsSound schema.now }
    requires suit { All (TestSuits schema.now) query.now.tests }
    requires count { length query.now.tests < 2 ^ 32 }
    requires nodes { size (proof_of refutation.now) < 2 ^ 32 }
    ensures { IfOk result (IsVerdict schema.now query.now refutation.now) }
{
    let mut path = Path::new(alloc);
    match walk_whole(alloc, schema, query, refutation, &mut path)? {
        Walked::Closed(_) => Ok(Verdict::Closes),
        Walked::Failed(node) => Ok(Verdict::Fails { node }),
    }
}
