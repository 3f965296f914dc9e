//! Where a search stands.
ghost use Rattle.std.specs.Prelude.{◌≡◌, ◌<◌, ◌^◌, [], None, IfOk, OnOk, length};
ghost use Rattle.formula_tree.specs.Answers.{answer_of};
ghost use Rattle.tree_search.specs.Cores.{IsNoCore};
ghost use Rattle.tree_search.specs.States.{IsDeeper, IsEvaluated, IsStartState, IsTakenBack};

use crate::cores::Cores;
use cnf_clauses::Following;
use formula_tree::Path;
use nogoods::Tracking;
use pattern_automata::LastClosed;
use plain_lists::NoMemory;
use policy_compile::Query;
use refute_check::SharedProofs;
use request_build::SlotValues;
use std::alloc::Global;
use tree_values::TreeValues;

/// The path, and all that follows it. What follows it is taken back where an answer is.
#[derive(Drop)]
pub(crate) struct State {
    pub(crate) path: Path,
    /// The formula's value under the path.
    pub(crate) tree: TreeValues,
    /// Unit propagation from the path, which meets no conflict there.
    pub(crate) clauses: Following,
    /// The answers under which splits were learned.
    pub(crate) learned: Tracking,
    pub(crate) cores: Cores,
    /// The proofs of slots that were found, each kept once: conflicts that differ in their tests alone
    /// may have the same closed set.
    pub(crate) proofs: SharedProofs,
    /// The last closed set that a product for a slot came to, which the next one may have too.
    pub(crate) last_closed: LastClosed,
    /// A value for each slot that the path asks about, and for no other slot. They are changed in
    /// place and put back, so that no split copies them.
    pub(crate) values: SlotValues,
    /// How many splits may still be made.
    pub(crate) left: u32,
}

impl State {
    /// The state at the empty path.
    pub(crate) fn start(
        alloc: Global,
        query: &Query,
        clauses: Following,
        left: u32,
    ) -> Result<State, NoMemory>
        requires { length query.now.tests < 2 ^ 32 }
        ensures { IfOk result (IsStartState query.now clauses left) }
    {
        let (tree, learned, cores) = stores(alloc, query)?;
        Ok(State {
            path: Path::new(alloc),
            tree,
            clauses,
            learned,
            cores,
            proofs: SharedProofs::new(alloc),
            last_closed: LastClosed::new(alloc),
            values: SlotValues::new(alloc),
            left,
        })
    }

    /// One more answer. The values of slots and the clauses don't follow it yet. Where there is no memory some may
    /// follow it and others not: the search ends.
    pub(crate) fn go_down(&mut self, test: u32, answer: bool) -> Result<(), NoMemory>
        requires new { answer_of self.old.path test ≡ None }
        requires room { test < length self.old.tree.answers }
        requires learned { self.old.learned.path ≡ self.old.path }
        requires cores { self.old.cores.lists.path ≡ self.old.path }
        ensures { OnOk result (IsDeeper self.old test answer self.new) }
    {
        self.path.push(test, answer)?;
        self.tree.set(test, Some(answer));
        self.learned.push(test, answer)?;
        self.cores.lists.push(test, answer)?;
        Ok(())
    }

    /// Takes the last answer back, which is to this test. It takes no memory.
    pub(crate) fn go_back(&mut self, test: u32)
        requires { test < length self.old.tree.answers }
        ensures { IsTakenBack self.old test self.new }
    {
        self.path.pop();
        self.tree.set(test, None);
        self.learned.pop();
        self.cores.lists.pop();
    }
}

// The query's formula without answers, and stores in which nothing was learned and no core is kept.
fn stores(alloc: Global, query: &Query) -> Result<(TreeValues, Tracking, Cores), NoMemory>
    requires { length query.now.tests < 2 ^ 32 }
    ensures tree { IfOk result (λ s. IsEvaluated query.now [] s.0) }
    ensures learned { IfOk result (λ s. s.1 ≡ record { lists = []; path = [] }) }
    ensures cores { IfOk result (λ s. IsNoCore s.2) }
{
    let tree = TreeValues::of(alloc, &query.formula, query.tests.len() as u32)?;
    let learned = Tracking::new(alloc)?;
    let cores = Cores::new(alloc)?;
    Ok((tree, learned, cores))
}
