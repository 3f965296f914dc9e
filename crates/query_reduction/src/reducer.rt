//! Claims held against one another over one list of tests.
ghost use Rattle.std.specs.Prelude.{◌≡◌, IfOk, IsTrue};
ghost use Rattle.formula_nodes.specs.Claims.{AddsNoTest, Grows, IsClaimOf};
ghost use Rattle.formula_nodes.specs.Standing.{node_trees};
ghost use Rattle.query_reduction.specs.Reducers.{ClaimsAgree, IsImplied};

use crate::implies::{DEPTH, Implications};
use formula_nodes::{Claim, Nodes};
use plain_lists::NoMemory;
use policy_model::{Schema, TestList};
use std::alloc::Global;
use std::marker::Model;

/// What is known of which claims imply which, on the nodes of one numbering over one list of tests: what is found once
/// stays known. Contracts see it as the schema and the tests.
#[derive(Drop)]
pub struct Reducer<'a> {
    implications: Implications<'a>,
}

impl<'a> Model for Reducer<'a> {
    ghost use Rattle.test_relations.specs.Relations.{SchemaTests};

    ghost Value = { SchemaTests };

    ghost view = { λ r. r.implications.relations };
}

impl<'a> Reducer<'a> {
    /// Nothing known yet of claims over these tests.
    pub fn new(
        alloc: Global,
        schema: &'a Schema,
        tests: &'a TestList,
    ) -> Result<Reducer<'a>, NoMemory>
        ensures schema { IfOk result (λ r. r.schema ≡ schema.now) }
        ensures tests { IfOk result (λ r. r.tests ≡ tests.now) }
    {
        let implications = Implications::new(alloc, schema, tests)?;
        Ok(Reducer { implications })
    }

    /// Whether the one claim is known to imply the other.
    pub fn implies(&mut self, nodes: &Nodes, one: Claim, other: Claim) -> bool
        ensures same { self.new ≡ self.old }
        ensures implied { IsTrue result → IsImplied self.old (node_trees nodes.now) one other }
    {
        self.implications.go_on();
        self.implications.implies(nodes, one, other, DEPTH)
    }

    /// A claim of the same value on each valid request, without what other parts of it make needless. Where there is no
    /// memory, or more nodes than `u32` numbers, there may be nodes more, but no such claim.
    pub fn reduced(&mut self, nodes: &mut Nodes, whole: Claim) -> Result<Claim, NoMemory>
        requires { IsClaimOf (node_trees nodes.old) whole }
        ensures same { self.new ≡ self.old }
        ensures grows { Grows (node_trees nodes.old) (node_trees nodes.new) }
        ensures asks { AddsNoTest (node_trees nodes.old) (node_trees nodes.new) }
        ensures there { IfOk result (IsClaimOf (node_trees nodes.new)) }
        ensures agree { IfOk result (
            ClaimsAgree self.old.schema self.old.tests (node_trees nodes.new) whole) }
    {
        self.implications.go_on();
        self.implications.reduced_claim(nodes, whole)
    }
}
