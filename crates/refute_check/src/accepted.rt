//! Cores that were accepted with their proofs, so that one that stands again isn't looked at again.
ghost use Rattle.std.specs.Prelude.{◌≡◌, [], IfOk, IsTrue, OnOk};
ghost use Rattle.refute_check.specs.Accepted.{AnswersFor, IsAcceptedBeside, IsAcceptedWith, IsKnownCore, KeepsAccepted, NotesAnswer};

use crate::labels::are_answered;
use crate::refutation::AnswerList;
use crate::sharing::{are_equal, mixed};
use formula_tree::Path;
use indexmap::IndexMap;
use plain_lists::{List, NoMemory};
use slot_theory::{Core, SlotProof};
use std::alloc::Global;
use std::rc::Rc;

/// The most that accepted cores take: a core takes eight, and one for each of its tests.
const MOST_CORE_ROOM: usize = 1_000_000;

/// A core with answers to its tests under which its proof is accepted.
#[derive(Drop)]
pub(crate) struct AcceptedCore {
    core: Core,
    answers: AnswerList,
    proof: Rc<SlotProof>,
}

/// Cores that were accepted.
#[derive(Drop)]
pub(crate) struct AcceptedCores {
    cores: Vec<AcceptedCore>,
    /// By a guess at which are equal, an index in `cores`.
    indices: IndexMap<u64, usize>,
    /// How much more may be kept.
    room: usize,
}

impl AcceptedCores {
    /// No core. It takes no memory.
    pub(crate) fn new(alloc: Global) -> AcceptedCores
        ensures { result.cores.items ≡ [] }
    {
        AcceptedCores {
            cores: Vec::new(alloc),
            indices: IndexMap::new(alloc),
            room: MOST_CORE_ROOM,
        }
    }

    /// Whether the core was accepted with this proof, under the path's answers to its tests. Not all that were
    /// are kept.
    pub(crate) fn has(&self, path: &Path, core: &Core, proof: &SlotProof) -> bool
        ensures { IsTrue result → IsAcceptedBeside self.now path.now core.now proof.now }
    {
        let Some(index) = self.indices.get(&guess_of(path, core.as_slice())) else {
            return false;
        };
        match self.cores.as_slice().get(*index) {
            Some(known) => is_known(known, path, core, proof),
            None => false,
        }
    }

    /// Keeps a core that is accepted with the proof under the path, while there is room.
    pub(crate) fn keep(
        &mut self,
        alloc: Global,
        path: &Path,
        core: &Core,
        proof: &Rc<SlotProof>,
    ) -> Result<(), NoMemory>
        ensures { OnOk result
            (KeepsAccepted self.old path.now core.now proof.now.value self.new) }
    {
        let size = core.len().saturating_add(8);
        if size > self.room {
            return Ok(());
        }
        let index = self.cores.len();
        let accepted = accepted_core(alloc, path, core, proof)?;
        self.cores.push(accepted)?;
        self.indices.insert(guess_of(path, core.as_slice()), index)?;
        self.room -= size;
        Ok(())
    }
}

// A guess at which cores are equal, with the path's answers.
fn guess_of(path: &Path, core: &[u32]) -> u64 {
    let mut guess = 0;
    'tests: for test in core {
        guess = mixed(guess, *test);
        if path.answer(*test) == Some(true) {
            guess = mixed(guess, u32::MAX);
        }
    }
    guess
}

// Whether the known core is this one, with the path's answers and the proof.
fn is_known(known: &AcceptedCore, path: &Path, core: &Core, proof: &SlotProof) -> bool
    ensures { IsTrue result → IsKnownCore known.now path.now core.now proof.now }
{
    if known.core.as_slice() != core.as_slice() {
        return false;
    }
    if !are_answered(known.answers.as_slice(), path) {
        return false;
    }
    are_equal(&known.proof, proof)
}

// The core with the path's answers to its tests.
fn accepted_core(
    alloc: Global,
    path: &Path,
    core: &Core,
    proof: &Rc<SlotProof>,
) -> Result<AcceptedCore, NoMemory>
    ensures { IfOk result (IsAcceptedWith path.now core.now proof.now.value) }
{
    let answers = answers_for(alloc, path, core.as_slice())?;
    let core = List::from_vec(Vec::from_slice(alloc, core.as_slice())?);
    let proof = again(proof)?;
    Ok(AcceptedCore {
        core,
        answers,
        proof,
    })
}

// One proof that stands in many places takes memory once.
fn again(proof: &Rc<SlotProof>) -> Result<Rc<SlotProof>, NoMemory>
    ensures { IfOk result (λ r. r.value ≡ proof.now.value) }
{
    Ok(proof.clone()?)
}

// The path's answers to tests.
fn answers_for(alloc: Global, path: &Path, tests: &[u32]) -> Result<AnswerList, NoMemory>
    ensures { IfOk result (AnswersFor path.now tests.now) }
{
    let mut answers = AnswerList::new(alloc);
    'tests: for test in tests {
        note(&mut answers, *test, path)?;
    }
    Ok(answers)
}

// Adds the path's answer to the test, where it has one.
fn note(answers: &mut AnswerList, test: u32, path: &Path) -> Result<(), NoMemory>
    ensures { OnOk result (NotesAnswer path.now test answers.old answers.new) }
{
    match path.answer(test) {
        Some(answer) => answers.push((test, answer)),
        None => Ok(()),
    }
}
