//! The single tests that a policy makes of a request.
ghost use Rattle.std.specs.Prelude.{◌↔◌, IsTrue, Any};
ghost use Rattle.std.proofs.Common.{rules};
ghost use Rattle.policy_model.specs.Conds.{CondMeets, MeetsSome};
ghost use Rattle.policy_model.specs.Tests.{TestHolds};

use crate::cond::{Cond, CondList, cond_meets, meets_some};
use crate::principal::{Entry, entry_holds};
use crate::request::Request;
use crate::validity::has_value;
use crate::value::Value;
use plain_lists::{EqualClone, List};
use wildcard_lang::{Pattern, Text, matches};

/// A test of a request.
#[derive(Clone, Drop, PartialEq, Eq, Hash)]
pub enum Test {
    /// The principal is one of the entry.
    Principal(Entry),
    /// The action matches.
    Action(Pattern),
    /// The resource matches.
    Resource(Pattern),
    /// The condition key of this name, with its ASCII letters lowered, has a value.
    Present(Text),
    /// Some value of the key meets what is asked.
    SomeMeets(Text, Cond),
    /// Some value of the key meets none of what is asked.
    SomeMeetsNone(Text, CondList),
}

impl EqualClone for Test {
    ghost clones_are_equal = { Prim.search rules };
}

/// A list of tests.
pub type TestList = List<Test>;

/// A part of a request that tests are on.
#[derive(Clone, Drop, PartialEq, Eq)]
pub enum Slot {
    Principal,
    Action,
    Resource,
    /// The condition key of this name, with its ASCII letters lowered.
    Key(Text),
}

impl EqualClone for Slot {
    ghost clones_are_equal = { Prim.search rules };
}

/// A list of slots.
pub type SlotList = List<Slot>;

/// What a test answers on a request. It takes no memory.
pub fn test_holds(test: &Test, request: &Request) -> bool
    ensures { IsTrue result ↔ TestHolds request.now test.now }
{
    match test {
        Test::Principal(entry) => entry_holds(entry, request),
        Test::Action(pattern) => matches(pattern, &request.action),
        Test::Resource(pattern) => matches(pattern, &request.resource),
        Test::Present(key) => has_value(&request.context, key),
        Test::SomeMeets(key, cond) => some_meets(request.values_at(key), cond),
        Test::SomeMeetsNone(key, conds) => some_meets_none(request.values_at(key), conds),
    }
}

fn some_meets(values: &[Value], cond: &Cond) -> bool
    ensures { IsTrue result ↔ Any (λ v. CondMeets v cond.now) values.now }
{
    values.iter().any(|value| cond_meets(value, cond))
}

fn some_meets_none(values: &[Value], conds: &CondList) -> bool
    ensures { IsTrue result ↔ Any (λ v. ¬ MeetsSome conds.now v) values.now }
{
    values.iter().any(|value| !meets_some(value, conds))
}
