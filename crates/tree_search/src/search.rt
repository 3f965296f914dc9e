//! The search. A node is closed by the tree's value, by a conflict of clauses, by what was learned, by a kept core or
//! by its slot, in this order, and else split. What clauses derive isn't put into the path, so each node is one of
//! both runs.
ghost use Rattle.std.specs.Prelude.{◌≡◌, ◌≢◌, ◌<◌, [], None, IfOk, OnOk, length};
ghost use Rattle.formula_tree.specs.Answers.{answer_of};
ghost use Rattle.formula_tree.specs.Values.{value};
ghost use Rattle.formula_tree.specs.declared.value.Three.TheVariants.{No, Yes};
ghost use Rattle.policy_compile.specs.Queries.{asked_tree};
ghost use Rattle.search_parts.specs.Joining.{AreReady};
ghost use Rattle.slot_theory.specs.Slots.{slot_of, test_at};
ghost use Rattle.tree_search.specs.Search.{Carries, CarriesWith, IsSideAhead, IsAtPath, IsFoundHere, IsFoundThere, IsJoinedHere, IsMetHere, IsOneLonger, IsOpenAt, IsReady, IsRestored, IsSide, MayBeYes, SaysIfClosed, Stands};
ghost use Rattle.tree_search.specs.Values.{IsIndexOf};

use crate::found::Found;
use crate::outcome::Wide;
use crate::state::State;
use crate::values::{exchange, index_of, pop};
use cnf_clauses::Clauses;
use formula_tree::Three;
use plain_lists::NoMemory;
use policy_compile::Query;
use policy_model::{Request, Schema, Slot};
use refute_check::SharedProof;
use request_build::build;
use search_parts::{
    Halves, Part, Shortening, clauses_part, join, reuse_part, slot_part, value_part,
};
use slot_theory::{Possible, SlotValue, meets, possible, slot_of};
use std::alloc::Global;

/// What a search is asked.
#[derive(Drop)]
pub(crate) struct Search<'a> {
    pub(crate) alloc: Global,
    pub(crate) schema: &'a Schema,
    pub(crate) query: &'a Query,
    /// The clauses of the query's formula.
    pub(crate) clauses: &'a Clauses,
    /// The most product states of a slot's patterns.
    pub(crate) states: u32,
}

impl<'a> Search<'a> {
    /// The search from a node that isn't closed. Where there is no memory the whole search ends, and the state
    /// isn't used again.
    #[cycle(search)]
    pub(crate) fn search(&self, state: &mut State) -> Result<Found, NoMemory>
        requires open { IsOpenAt self.now state.old }
        requires carries { Carries self.now state.old }
        ensures found { IfOk result (IsFoundHere self.now state.old state.new) }
        ensures restored { OnOk result (IsRestored self.now state.old state.new) }
    {
        let Some(test) = state.tree.pick() else {
            return Ok(Found::Met(self.met(state)?));
        };
        // No clause closes the path, so the propagated run splits here too.
        state.clauses.is_quiet();
        if state.left == 0 {
            return Ok(Found::OutOfSplits);
        }
        state.left -= 1;
        let yes = self.side(state, test, true)?;
        let Found::Refuted(yes) = yes else {
            return Ok(yes);
        };
        let needless = self.is_needless(state, test, &yes)?;
        if needless {
            return Ok(Found::Refuted(yes));
        }
        let no = self.side(state, test, false)?;
        let Found::Refuted(no) = no else {
            return Ok(no);
        };
        Ok(Found::Refuted(self.joined(state, Halves { test, yes, no })?))
    }

    /// The request of the values, where their path makes the query yes.
    fn met(&self, state: &State) -> Result<Request, NoMemory>
        requires ready { IsReady self.now }
        requires carries { Carries self.now state.now }
        requires yes { value state.now.path (asked_tree self.now.query.now) ≡ Yes }
        ensures { IfOk result (IsMetHere self.now state.now) }
    {
        let tests = &self.query.tests;
        build(self.alloc, self.schema, tests, &state.path, &state.values)
    }

    /// Whether the part that closes the yes side of a split closes without the split's answer.
    fn is_needless(&self, state: &State, test: u32, yes: &Part) -> Result<bool, NoMemory>
        requires ready { IsReady self.now }
        requires may { MayBeYes self.now state.now }
        requires new { answer_of state.now.path test ≡ None }
        requires side { IsSide self.now state.now test yes.now }
        ensures { IfOk result (SaysIfClosed self.now state.now yes.now) }
    {
        let shortening = Shortening {
            alloc: self.alloc,
            query: self.query,
            clauses: self.clauses,
            learned: &state.learned,
        };
        shortening.is_needless(yes, test, &state.path)
    }

    /// The split of two sides that are closed, learned where there is room.
    fn joined(&self, state: &mut State, halves: Halves) -> Result<Part, NoMemory>
        requires { AreReady state.old.path halves state.old.learned state.old.tree }
        ensures joined { IfOk result (IsJoinedHere state.old halves state.new) }
    {
        join(
            self.alloc,
            &state.path,
            halves,
            &mut state.learned,
            &mut state.tree,
        )
    }

    /// The search from the path with one more answer.
    #[cycle(search)]
    fn side(&self, state: &mut State, test: u32, answer: bool) -> Result<Found, NoMemory>
        requires at { IsAtPath self.now state.old }
        requires carries { Carries self.now state.old }
        requires within { test < length self.now.query.now.tests }
        requires new { answer_of state.old.path test ≡ None }
        ensures found { IfOk result (IsFoundThere self.now state.old test answer state.new) }
        ensures restored { OnOk result (IsRestored self.now state.old state.new) }
    {
        state.go_down(test, answer)?;
        let found = self.enter(state, test, answer)?;
        state.go_back(test);
        Ok(found)
    }

    /// The search from a path whose last answer neither the slots' values nor the clauses follow.
    #[cycle(search)]
    fn enter(&self, state: &mut State, test: u32, answer: bool) -> Result<Found, NoMemory>
        requires ready { IsReady self.now }
        requires stands { Stands self.now state.old }
        requires ahead { IsSideAhead self.now state.old test answer }
        ensures found { IfOk result (IsFoundHere self.now state.old state.new) }
        ensures restored { OnOk result (IsRestored self.now state.old state.new) }
    {
        if let Three::No = state.tree.value() {
            return Ok(Found::Refuted(value_part(self.alloc)?));
        }
        if let Some(conflict) = state.clauses.push(self.alloc, test, answer)? {
            return Ok(Found::Refuted(clauses_part(self.alloc, conflict)?));
        }
        let found = self.go_in(state, test, answer)?;
        state.clauses.pop();
        Ok(found)
    }

    /// The search from a path whose last answer the slots' values don't follow, unless it has the answers of
    /// something that was learned or of a kept core.
    #[cycle(search)]
    fn go_in(&self, state: &mut State, test: u32, answer: bool) -> Result<Found, NoMemory>
        requires at { IsAtPath self.now state.old }
        requires longer { IsOneLonger self.now state.old test answer }
        requires may { MayBeYes self.now state.old }
        ensures found { IfOk result (IsFoundHere self.now state.old state.new) }
        ensures restored { OnOk result (IsRestored self.now state.old state.new) }
    {
        if let Some(number) = state.learned.hit() {
            let part = reuse_part(self.alloc, &state.learned, number)?;
            return Ok(Found::Refuted(part));
        }
        if let Some(part) = state.cores.hit()? {
            return Ok(Found::Refuted(part));
        }
        self.settle(state, test, answer)
    }

    /// The search from such a path, which has no such answers.
    #[cycle(search)]
    fn settle(&self, state: &mut State, test: u32, answer: bool) -> Result<Found, NoMemory>
        requires open { IsOpenAt self.now state.old }
        requires longer { IsOneLonger self.now state.old test answer }
        ensures found { IfOk result (IsFoundHere self.now state.old state.new) }
        ensures restored { OnOk result (IsRestored self.now state.old state.new) }
    {
        let asked = &self.query.tests.as_slice()[test as usize];
        let slot = slot_of(self.alloc, asked)?;
        let index = index_of(&state.values, &slot);
        if let Some(i) = index {
            if meets(&state.values.as_slice()[i].1, asked) == answer {
                return self.search(state);
            }
        }
        self.renew(state, test, answer, slot, index)
    }

    /// The search from such a path, whose last test its slot's value doesn't answer.
    #[cycle(search)]
    fn renew(
        &self,
        state: &mut State,
        test: u32,
        answer: bool,
        slot: Slot,
        index: Option<usize>,
    ) -> Result<Found, NoMemory>
        requires open { IsOpenAt self.now state.old }
        requires longer { IsOneLonger self.now state.old test answer }
        requires slot { slot ≡ slot_of (test_at self.now.query.now.tests test) }
        requires index { IsIndexOf slot state.old.values index }
        ensures found { IfOk result (IsFoundHere self.now state.old state.new) }
        ensures restored { OnOk result (IsRestored self.now state.old state.new) }
    {
        let (schema, tests) = (self.schema, &self.query.tests);
        let last_closed = &mut state.last_closed;
        match possible(schema, tests, &state.path, &slot, self.states, last_closed)? {
            Possible::Found(value) => self.go_on(state, (slot, value), index),
            Possible::Conflict(core, proof) => {
                let SharedProof { proof, kept } = state.proofs.share(self.alloc, proof)?;
                let part = slot_part(self.alloc, &state.path, core, proof)?;
                state.cores.keep(&part, kept)?;
                Ok(Found::Refuted(part))
            }
            Possible::TooMany(texts) => {
                let path = state.path.copy()?;
                Ok(Found::OutOfStates(Wide { path, slot, texts }))
            }
        }
    }

    /// The search with one more value, or with one in place of that at the index.
    #[cycle(search)]
    fn go_on(
        &self,
        state: &mut State,
        value: (Slot, SlotValue),
        index: Option<usize>,
    ) -> Result<Found, NoMemory>
        requires open { IsOpenAt self.now state.old }
        requires index { IsIndexOf value.0 state.old.values index }
        requires carries { CarriesWith self.now state.old value index }
        ensures found { IfOk result (IsFoundHere self.now state.old state.new) }
        ensures restored { OnOk result (IsRestored self.now state.old state.new) }
    {
        let Some(i) = index else {
            state.values.push(value)?;
            let found = self.search(state)?;
            pop(self.alloc, &mut state.values);
            return Ok(found);
        };
        let before = exchange(self.alloc, &mut state.values, i, value);
        let found = self.search(state)?;
        exchange(self.alloc, &mut state.values, i, before);
        Ok(found)
    }
}
