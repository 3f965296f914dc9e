//! Change queries that are made from one numbering of the set's query.
ghost use Rattle.std.specs.Prelude.{◌≡◌, ◌<◌, ◌++◌, ◌∷◌, [], IfOk, IfSome, OnOk, Some, if◌then◌else◌, length, map, slice_get};
ghost use Rattle.formula_nodes.specs.Claims.{AddsNoTest, AreClaimsOf, Grows, IsClaimOf, IsTreeFor, turned_claim};
ghost use Rattle.formula_nodes.specs.Standing.{node_trees};
ghost use Rattle.policy_compile.specs.Queries.{IsQuery, asked_tree};
ghost use Rattle.policy_compile.specs.Sets.{set_plan};
ghost use Rattle.policy_model.specs.Soundness.{IsSound, SchemaFits};
ghost use Rattle.set_questions.specs.Changes.{IsJointClaim, IsListedAt, other_claims};
ghost use Rattle.set_questions.specs.Laws.{DecidesUse};
ghost use Rattle.set_questions.specs.Removal.{without_item};

use crate::cutting::{left_of, turned};
use crate::excluding::denied_tests;
use crate::names::{NameList, required_names};
use crate::numbering::{conjuncts, numbered, numbered_inside};
use formula_nodes::{Claim, ClaimList, Nodes};
use plain_lists::{EqualClone, List, NoMemory};
use policy_compile::{Query, tests_of_set_queries_suit};
use policy_model::{PolicySet, Schema, StatementName, TestList};
use query_reduction::Reducer;
use std::alloc::Global;
use std::marker::Model;

// Where a statement stands: what is asked of it, and its index there.
#[derive(Clone, Copy)]
struct Place {
    asked: usize,
    index: usize,
}

// The index of the name, if it is one of these.
fn index_of(names: &[StatementName], name: StatementName) -> Option<usize>
    ensures { IfSome result (λ i. slice_get names.now i ≡ Some name) }
{
    for i in 0..names.len() {
        if names[i].statement != name.statement {
            continue;
        }
        if names[i].document == name.document {
            return Some(i);
        }
    }
    None
}

// The place of the name in these lists, if it stands in one.
fn place_of(names: &[NameList], name: StatementName) -> Option<Place>
    ensures { IfSome result (λ p. IsListedAt names.now name p.asked p.index) }
{
    for asked in 0..names.len() {
        if let Some(index) = index_of(names[asked].as_slice(), name) {
            return Some(Place { asked, index });
        }
    }
    None
}

// Adds the claim or its opposite, where it isn't the one.
fn add_other(
    others: &mut ClaimList,
    is_one: bool,
    claim: Claim,
    holds: bool,
) -> Result<(), NoMemory>
    ensures { OnOk result (others.new ≡
        others.old ++ (if is_one then [] else turned_claim holds claim ∷ [])) }
{
    if is_one {
        return Ok(());
    }
    others.push(turned(claim, holds))?;
    Ok(())
}

// Adds the claims or their opposites, but for that of this number.
fn add_others(
    others: &mut ClaimList,
    number: usize,
    claims: &[Claim],
    holds: bool,
) -> Result<(), NoMemory>
    ensures { OnOk result (others.new ≡
        others.old ++ map (turned_claim holds) (without_item number claims.now)) }
{
    let mut left = number;
    for claim in claims {
        add_other(others, left == 1, *claim, holds)?;
        left = left.saturating_sub(1);
    }
    Ok(())
}

// The opposites of a statement's neighbours, and that all else that is asked holds.
fn other_claims(
    alloc: Global,
    own: &[Claim],
    wholes: &[Claim],
    place: Place,
) -> Result<ClaimList, NoMemory>
    requires index { place.index < length own.now }
    requires asked { place.asked < length wholes.now }
    ensures { IfOk result (λ others. others ≡
        other_claims own.now wholes.now place.asked place.index) }
{
    let mut others = List::new(alloc);
    add_others(&mut others, place.index + 1, own, false)?;
    add_others(&mut others, place.asked + 1, wholes, true)?;
    Ok(others)
}

// A claim that is true where the one and each of the others are, without what is needless. The tests are nodes before
// that number.
fn joint(
    alloc: Global,
    nodes: &mut Nodes,
    reducer: &mut Reducer<'_>,
    tests: usize,
    one: Claim,
    others: &[Claim],
) -> Result<Claim, NoMemory>
    requires there { IsClaimOf (node_trees nodes.old) one }
    requires all_there { AreClaimsOf (node_trees nodes.old) others.now }
    ensures same { reducer.new ≡ reducer.old }
    ensures grows { Grows (node_trees nodes.old) (node_trees nodes.new) }
    ensures tests { AddsNoTest (node_trees nodes.old) (node_trees nodes.new) }
    ensures there { IfOk result (IsClaimOf (node_trees nodes.new)) }
    ensures joint { IfOk result
        (IsJointClaim reducer.old (node_trees nodes.new) one others.now) }
{
    let denied = denied_tests(alloc, nodes, reducer, one, tests)?;
    let end = nodes.len();
    let mut left = left_of(alloc, nodes, denied.as_slice(), others, end)?;
    left.push(one)?;
    let whole = nodes.all(left)?;
    reducer.reduced(nodes, whole)
}

// The query of the claim, over these tests.
fn query_in(nodes: &Nodes, tests: &TestList, claim: Claim) -> Result<Query, NoMemory>
    requires { IsClaimOf (node_trees nodes.now) claim }
    ensures tests { IfOk result (λ q. q.tests ≡ tests.now) }
    ensures tree { IfOk result (λ q. IsTreeFor claim (node_trees nodes.now) (asked_tree q)) }
{
    let formula = nodes.formula(claim)?;
    let tests = tests.copy()?;
    Ok(Query { formula, tests })
}

/// The change queries of a set's statements, made from one numbering of the set's query. Contracts see the schema and
/// the set.
#[derive(Drop)]
pub struct Changes<'a> {
    alloc: Global,
    schema: &'a Schema,
    set: &'a PolicySet,
    query: &'a Query,
    nodes: Nodes,
    reducer: Reducer<'a>,
    // How many nodes the query has.
    numbered: usize,
    // Of each thing that the set asks: the names of its statements, the claim for each that it applies, and the claim
    // that it holds.
    names: List<NameList>,
    claims: List<ClaimList>,
    wholes: ClaimList,
}

impl<'a> Model for Changes<'a> {
    ghost use Rattle.std.specs.Prelude.{◌≡◌};
    ghost use Rattle.formula_nodes.specs.Standing.{node_trees};
    ghost use Rattle.policy_compile.specs.Queries.{IsQuery};
    ghost use Rattle.policy_compile.specs.Sets.{set_plan};
    ghost use Rattle.set_questions.specs.Changes.{AreChanges, SchemaSet};

    ghost Value = { SchemaSet };

    ghost view = { λ c. record { schema = c.schema.now; set = c.set.now } };

    ghost invariant = { λ c. AreChanges c.schema.now c.set.now c.query.now
        c.reducer (node_trees c.nodes) c.names c.claims c.wholes };
}

impl<'a> Changes<'a> {
    /// Those of the set under the schema, whose query this is. The only error is want of memory.
    pub fn new(
        alloc: Global,
        schema: &'a Schema,
        set: &'a PolicySet,
        query: &'a Query,
    ) -> Result<Changes<'a>, NoMemory>
        requires query { IsQuery (set_plan schema.now set.now) query.now }
        requires sound { IsSound set.now }
        ensures schema { IfOk result (λ c. c.schema ≡ schema.now) }
        ensures set { IfOk result (λ c. c.set ≡ set.now) }
    {
        let Some(asked) = conjuncts(&query.formula) else {
            unreachable!()
        };
        let mut nodes = Nodes::new(alloc);
        let wholes = numbered(alloc, &mut nodes, asked)?;
        let claims = numbered_inside(alloc, &mut nodes, asked)?;
        let count = nodes.len();
        let names = required_names(alloc, set)?;
        let reducer = Reducer::new(alloc, schema, &query.tests)?;
        Ok(Changes {
            alloc,
            schema,
            set,
            query,
            nodes,
            reducer,
            numbered: count,
            names,
            claims,
            wholes,
        })
    }

    /// A query that decides the use of the statement of this name, over the tests of the set's query. Where there is
    /// none, which isn't promised not to come, the change query tells. The only error is want of memory.
    pub fn query_of(&mut self, name: StatementName) -> Result<Option<Query>, NoMemory>
        requires { SchemaFits self.old.schema self.old.set }
        ensures same { self.new ≡ self.old }
        ensures decides { IfOk result (λ found.
            IfSome found (DecidesUse self.old.schema self.old.set name)) }
    {
        tests_of_set_queries_suit();
        let Some(place) = place_of(self.names.as_slice(), name) else {
            return Ok(None);
        };
        let Some(own) = self.claims.get(place.asked) else {
            return Ok(None);
        };
        let Some(one) = own.get(place.index) else {
            return Ok(None);
        };
        let one = *one;
        let others = other_claims(self.alloc, own.as_slice(), self.wholes.as_slice(), place)?;
        let claim = joint(
            self.alloc,
            &mut self.nodes,
            &mut self.reducer,
            self.numbered,
            one,
            others.as_slice(),
        )?;
        let query = query_in(&self.nodes, &self.query.tests, claim)?;
        Ok(Some(query))
    }
}
