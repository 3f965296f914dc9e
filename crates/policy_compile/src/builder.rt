//! A query in the making.
ghost use Rattle.std.specs.Prelude.{◌≡◌, ◌≤◌, [], IfOk, MatchBool, length};
ghost use Rattle.policy_compile.specs.declared.builder.TheConstants.{MOST_TESTS};
ghost use Rattle.policy_compile.specs.Nodes.{AreEarlier, children};
ghost use Rattle.policy_compile.specs.Plans.{ask};

use crate::nodes::Node;
use crate::outcome::QueryFault;
use indexmap::IndexSet;
use plain_lists::{List, NoMemory};
use policy_model::{Test, TestList};
use std::alloc::Global;

/// The most tests of a query.
pub(crate) const MOST_TESTS: usize = 1000;

// The tests so far in the order of their numbers, and the nodes over them.
#[derive(Drop)]
pub(crate) struct Builder {
    pub(crate) alloc: Global,
    pub(crate) tests: IndexSet<Test>,
    pub(crate) nodes: IndexSet<Node>,
    ghost few: { length tests.keys ≤ MOST_TESTS },
    ghost earlier: { AreEarlier nodes.keys },
}

impl Builder {
    ghost use Rattle.policy_compile.specs.Building.{AreIndices, HasNode, HasNumber, HasRoom, IsBuilt, HasNoRoom};

    pub(crate) fn new(alloc: Global) -> Builder
        ensures tests { result.tests.keys ≡ [] }
    {
        Builder {
            alloc,
            tests: IndexSet::new(alloc),
            nodes: IndexSet::new(alloc),
        }
    }

    // The index of the node, which gets the next one where it is new.
    pub(crate) fn insert(&mut self, node: Node) -> Result<usize, NoMemory>
        requires { AreIndices self.now (children node) }
        ensures { IfOk result (HasNode self.old self.new node) }
    {
        let (index, _) = self.nodes.insert_full(node)?;
        Ok(index)
    }

    // Whether the test is had, or one more may be.
    fn has_room(&self, test: &Test) -> bool
        ensures { MatchBool result (HasRoom self.now test.now) (HasNoRoom self.now test.now) }
    {
        if self.tests.len() < MOST_TESTS {
            return true;
        }
        self.tests.contains(test)
    }

    // The number of the test, which gets the next one where it is new.
    fn number(&mut self, test: Test) -> Result<u32, NoMemory>
        requires { HasRoom self.now test }
        ensures { IfOk result (HasNumber self.old self.new test) }
    {
        let (number, _) = self.tests.insert_full(test)?;
        Ok(number as u32)
    }

    // The index of the node that asks the test.
    pub(crate) fn ask(&mut self, test: Test) -> Result<usize, QueryFault>
        ensures { IsBuilt self.old self.new (ask test) result }
    {
        if !self.has_room(&test) {
            return Err(QueryFault::TooManyTests);
        }
        let number = self.number(test)?;
        let index = self.insert(Node::Test(number))?;
        Ok(index)
    }

    // The tests in the order of their numbers.
    pub(crate) fn into_tests(self) -> Result<TestList, NoMemory>
        ensures { IfOk result (λ tests. tests ≡ self.tests.keys) }
    {
        let tests: Vec<Test> = self.tests.into_iter().collect(self.alloc)?;
        Ok(List::from_vec(tests))
    }
}
