//! Two tests compared with one another. Yes is certain, no says nothing.
ghost use Rattle.std.specs.Prelude.{IsTrue};
ghost use Rattle.test_relations.specs.Relations.{AlwaysHolds, TestExcludes, TestLeads};

use crate::conds::{cond_excludes, cond_leads};
use crate::entries::entry_leads;
use crate::keys::{is_met_by_each, is_one_key, is_one_single_key, is_required};
use crate::lists::{each_leads_to_some, excludes_each, leads_to_some};
use crate::places::Places;
use crate::words::matches_each;
use policy_model::{Entry, Schema, Test, are_entries_apart};
use wildcard_lang::{clashes, covers};

/// Whether it is known that every valid request that meets the one test meets the other. It takes no
/// memory.
pub fn leads(schema: &Schema, one: &Test, other: &Test) -> bool
    ensures { IsTrue result → TestLeads schema.now one.now other.now }
{
    leads_by(schema, one, other, None)
}

/// The same where the places of the first one's values may be known.
pub(crate) fn leads_by(
    schema: &Schema,
    one: &Test,
    other: &Test,
    places: Option<&Places<'_>>,
) -> bool
    ensures { IsTrue result → TestLeads schema.now one.now other.now }
{
    match (one, other) {
        (Test::Principal(first), Test::Principal(second)) => entry_leads(first, second),
        (Test::Action(first), Test::Action(second)) => covers(second, first),
        (Test::Resource(first), Test::Resource(second)) => covers(second, first),
        (Test::Present(key), Test::Present(also)) => is_one_key(key, also),
        (Test::Present(key), Test::SomeMeets(also, second)) => {
            is_one_key(key, also) && is_met_by_each(schema, key, second)
        }
        (Test::SomeMeets(key, _), Test::Present(also)) => is_one_key(key, also),
        (Test::SomeMeetsNone(key, _), Test::Present(also)) => is_one_key(key, also),
        (Test::SomeMeets(key, first), Test::SomeMeets(also, second)) => {
            is_one_key(key, also) && cond_leads(first, second)
        }
        (Test::SomeMeets(key, first), Test::SomeMeetsNone(also, seconds)) => {
            is_one_key(key, also) && excludes_each(first, seconds)
        }
        (Test::SomeMeetsNone(key, firsts), Test::SomeMeetsNone(also, seconds)) => {
            is_one_key(key, also) && each_leads_to_some(seconds, firsts, places)
        }
        _ => false,
    }
}

/// Whether it is known that no valid request meets both tests. It takes no memory.
pub fn excludes(schema: &Schema, one: &Test, other: &Test) -> bool
    ensures { IsTrue result → TestExcludes schema.now one.now other.now }
{
    match (one, other) {
        (Test::Principal(first), Test::Principal(second)) => are_entries_apart(first, second),
        (Test::Action(first), Test::Action(second)) => clashes(first, second),
        (Test::Resource(first), Test::Resource(second)) => clashes(first, second),
        (Test::SomeMeets(key, first), Test::SomeMeets(also, second)) => {
            is_one_single_key(schema, key, also) && cond_excludes(first, second)
        }
        (Test::SomeMeets(key, first), Test::SomeMeetsNone(also, seconds)) => {
            is_one_single_key(schema, key, also) && leads_to_some(first, seconds)
        }
        (Test::SomeMeetsNone(key, firsts), Test::SomeMeets(also, second)) => {
            is_one_single_key(schema, key, also) && leads_to_some(second, firsts)
        }
        _ => false,
    }
}

/// Whether it is known that every valid request meets the test. It takes no memory.
pub fn always(schema: &Schema, test: &Test) -> bool
    ensures { IsTrue result → AlwaysHolds schema.now test.now }
{
    match test {
        Test::Principal(Entry::All) => true,
        Test::Action(pattern) => matches_each(pattern, &schema.shapes.action),
        Test::Resource(pattern) => matches_each(pattern, &schema.shapes.resource),
        Test::Present(key) => is_required(schema, key),
        Test::SomeMeets(key, cond) => is_required(schema, key) && is_met_by_each(schema, key, cond),
        _ => false,
    }
}
