//! Queries of sets.
ghost use Rattle.std.specs.Prelude.{◌≡◌, ◌≤◌, ◌<◌, ◌↔◌, IsTrue, length, sum_by};
ghost use Rattle.policy_compile.specs.declared.compile.TheConstants.{MOST_PIECES};
ghost use Rattle.policy_compile.specs.Building.{Makes};
ghost use Rattle.policy_compile.specs.Plans.{Plan};
ghost use Rattle.policy_compile.specs.Queries.{IsQueryOf, IsRoomAfter, IsSmallFormula, cond_pieces, entry_pieces, test_pieces};
ghost use Rattle.policy_compile.specs.Sets.{query_plan, set_plan};

use crate::builder::Builder;
use crate::nodes::formulas_of;
use crate::outcome::{Query, QueryFault};
use crate::sets::{pair_node, set_node};
use formula_tree::Formula;
use policy_model::{Cond, Entry, PolicySet, Schema, Test};
use std::alloc::Global;
use std::rc::Rc;

/// The most pieces that the patterns of a query's tests have together.
const MOST_PIECES: usize = 65_536;

/// How many pieces the form of an account's ARNs has.
const ACCOUNT_PIECES: usize = 24;

// How many pieces an entry is matched by.
fn entry_pieces(entry: &Entry) -> usize
    ensures { result ≡ entry_pieces entry.now }
{
    match entry {
        Entry::Account(_) => ACCOUNT_PIECES,
        Entry::Exact(_, id) => id.len(),
        _ => 0,
    }
}

// The room that is left of so many pieces, or none where the condition has more.
fn room_after_cond(room: usize, cond: &Cond) -> Option<usize>
    ensures { IsRoomAfter room (cond_pieces cond.now) result }
{
    match cond {
        Cond::Matches(pattern) => room.checked_sub(pattern.len()),
        _ => Some(room),
    }
}

// The room after a list of conditions, which may have more pieces than a number holds.
fn room_after_conds(room: usize, conds: &[Cond]) -> Option<usize>
    ensures { IsRoomAfter room (sum_by cond_pieces conds.now) result }
{
    let mut left = room;
    for cond in conds {
        left = room_after_cond(left, cond)?;
    }
    Some(left)
}

// The room after a test's patterns.
fn room_after(room: usize, test: &Test) -> Option<usize>
    ensures { IsRoomAfter room (test_pieces test.now) result }
{
    match test {
        Test::Principal(entry) => room.checked_sub(entry_pieces(entry)),
        Test::Action(pattern) => room.checked_sub(pattern.len()),
        Test::Resource(pattern) => room.checked_sub(pattern.len()),
        Test::Present(_) => Some(room),
        Test::SomeMeets(_, cond) => room_after_cond(room, cond),
        Test::SomeMeetsNone(_, conds) => room_after_conds(room, conds.as_slice()),
    }
}

// Whether the patterns of the tests have few enough pieces together.
fn are_small(tests: &[Test]) -> bool
    ensures { IsTrue result ↔ (sum_by test_pieces tests.now ≤ MOST_PIECES) }
{
    let mut room = MOST_PIECES;
    for test in tests {
        let Some(left) = room_after(room, test) else {
            return false;
        };
        room = left;
    }
    true
}

// The formula of a node, where the patterns of the tests have few enough pieces.
fn small_formula(builder: &Builder, index: usize) -> Result<Rc<Formula>, QueryFault>
    requires { index < length builder.now.nodes.keys }
    ensures { IsSmallFormula builder.now index result }
{
    if !are_small(builder.tests.as_slice()) {
        return Err(QueryFault::TooManyPieces);
    }
    let formulas = formulas_of(builder.alloc, builder.nodes.as_slice())?;
    let formula = formulas[index].clone()?;
    Ok(formula)
}

fn finished(builder: Builder, index: usize) -> Result<Query, QueryFault>
    requires { index < length builder.nodes.keys }
    ensures { (plan : Plan) → Makes builder plan index → IsQueryOf plan result }
{
    let formula = small_formula(&builder, index)?;
    let tests = builder.into_tests()?;
    Ok(Query { formula, tests })
}

/// The query 'the first set allows the request and the second doesn't'. `TooManyTests` comes exactly
/// where it has more than 1,000 different tests. `TooManyPieces` comes exactly where it has fewer and
/// their patterns have more than 65,536 pieces together. For this an account has 24 pieces, an exact
/// id one for each character, and a condition on values that aren't texts none.
pub fn query(
    alloc: Global,
    schema: &Schema,
    first: &PolicySet,
    second: &PolicySet,
) -> Result<Query, QueryFault>
    ensures { IsQueryOf (query_plan schema.now first.now second.now) result }
{
    let mut builder = Builder::new(alloc);
    let index = pair_node(&mut builder, schema, first, second)?;
    finished(builder, index)
}

/// The query 'the set allows the request', with the limits of `query`.
pub fn set_query(alloc: Global, schema: &Schema, set: &PolicySet) -> Result<Query, QueryFault>
    ensures { IsQueryOf (set_plan schema.now set.now) result }
{
    let mut builder = Builder::new(alloc);
    let index = set_node(&mut builder, schema, set)?;
    finished(builder, index)
}
