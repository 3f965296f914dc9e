//! Whether the statements of a set matter to what it allows.
ghost use Rattle.std.specs.Prelude.{◌≡◌, IfOk, if◌then◌else◌};
ghost use Rattle.policy_model.specs.Soundness.{SchemaFits, SchemaIsSound};
ghost use Rattle.policy_compile.specs.Limits.{IsWithinLimits};
ghost use Rattle.policy_compile.specs.Queries.{IsQuery, IsQueryOf};
ghost use Rattle.policy_compile.specs.Sets.{query_plan, set_plan};
ghost use Rattle.set_questions.specs.Idle.{IsNameIn, EachNamed};
ghost use Rattle.set_questions.specs.Uses.{AreLimitsMet, AreUsesWithin, IsUseAt, change_plan, limits_told, use_told};

use crate::names::{is_allow, names_of};
use crate::outcome::{Use, UseFault, UseList};
use crate::removal::without;
use crate::settling::{Settle, Settled};
use plain_lists::{List, NoMemory};
use policy_compile::{Query, QueryFault, query, set_query};
use policy_model::{PolicySet, Schema, StatementName};
use std::alloc::{AllocError, Global};

// What a query, or why there is none, says of its limits.
fn limits_told(query: &Result<Query, QueryFault>) -> Result<(), UseFault>
    ensures { result ≡ limits_told query.now }
{
    match query {
        Ok(_) => Ok(()),
        Err(QueryFault::TooManyTests) => Err(UseFault::TooManyTests),
        Err(QueryFault::TooManyPieces) => Err(UseFault::TooManyPieces),
        Err(QueryFault::NoMemory) => Err(UseFault::NoMemory),
    }
}

// Whether the set's query is within its limits, and so each change query of a statement of the set; else the limit that
// it is past, as by `set_query`.
fn meet_limits(alloc: Global, schema: &Schema, set: &PolicySet) -> Result<(), UseFault>
    ensures { AreLimitsMet (set_plan schema.now set.now) result }
{
    let query = set_query(alloc, schema, set);
    limits_told(&query)
}

// The query whether the set allows a request that the part doesn't, or for a Deny the part one that the set
// doesn't.
fn directed_query(
    alloc: Global,
    schema: &Schema,
    set: &PolicySet,
    part: &PolicySet,
    allow: bool,
) -> Result<Query, QueryFault>
    ensures { IsQueryOf (if allow then query_plan schema.now set.now part.now
        else query_plan schema.now part.now set.now) result }
{
    if allow {
        query(alloc, schema, set, part)
    } else {
        query(alloc, schema, part, set)
    }
}

/// The change query of the statement of this name: of an Allow statement whether the set allows a valid request
/// that it doesn't allow without the statement, of a Deny statement the other way round. The set's query is within
/// its limits, and so is this one. The only error is want of memory.
pub fn change_query(
    alloc: Global,
    schema: &Schema,
    set: &PolicySet,
    name: StatementName,
) -> Result<Query, NoMemory>
    requires named { IsNameIn set.now name }
    requires within { IsWithinLimits (set_plan schema.now set.now) }
    ensures { IfOk result (λ query. EachNamed set.now name
        (λ s. IsQuery (change_plan schema.now set.now (name, s)) query)) }
{
    let part = without(alloc, set, name)?;
    match directed_query(alloc, schema, set, &part, is_allow(set, name)) {
        Ok(query) => Ok(query),
        Err(QueryFault::TooManyTests) => unreachable!(),
        Err(QueryFault::TooManyPieces) => unreachable!(),
        Err(QueryFault::NoMemory) => Err(AllocError),
    }
}

// What was settled of the change query, as the use of its statement.
fn use_told(settled: Settled) -> Use
    ensures { result ≡ use_told settled }
{
    match settled {
        Settled::Met(request) => Use::Used(request),
        Settled::Nobody(refutation) => Use::Idle(refutation),
        Settled::OutOfSplits => Use::OutOfSplits,
        Settled::OutOfStates(wide) => Use::OutOfStates(wide),
    }
}

/// Whether the statement of this name is used or idle in the set, all others left as they are. The schema
/// is sound and fits the set, it is that of `by`, and the set's query is within its limits. `OutOfSplits`
/// and `OutOfStates` come only where the numbers of `by` are too small for the change query. The only error
/// is want of memory.
pub fn use_of<S: Settle>(
    alloc: Global,
    schema: &Schema,
    set: &PolicySet,
    name: StatementName,
    by: &mut S,
) -> Result<Use, NoMemory>
    requires fits { SchemaFits schema.now set.now }
    requires sound { SchemaIsSound schema.now }
    requires own { S.schema by.old ≡ schema.now }
    requires named { IsNameIn set.now name }
    requires within { IsWithinLimits (set_plan schema.now set.now) }
    ensures found { IfOk result
        (IsUseAt schema.now (S.splits by.old) (S.states by.old) set.now name) }
    ensures schema { S.schema by.new ≡ S.schema by.old }
    ensures splits { S.splits by.new ≡ S.splits by.old }
    ensures states { S.states by.new ≡ S.states by.old }
{
    let query = change_query(alloc, schema, set, name)?;
    let settled = by.settle(alloc, &query)?;
    Ok(use_told(settled))
}

/// Of each statement of the set whether it is used or idle, in reading order, one at a time: of two equal
/// statements of the grants each is idle, since the other stays. The schema is sound and fits the set, and it is
/// that of `by`. There are none where the set's query is past a limit, and then it says which.
pub fn uses<S: Settle>(
    alloc: Global,
    schema: &Schema,
    set: &PolicySet,
    by: &mut S,
) -> Result<UseList, UseFault>
    requires fits { SchemaFits schema.now set.now }
    requires sound { SchemaIsSound schema.now }
    requires own { S.schema by.old ≡ schema.now }
    ensures found { AreUsesWithin schema.now (S.splits by.old) (S.states by.old) set.now result }
    ensures schema { S.schema by.new ≡ S.schema by.old }
    ensures splits { S.splits by.new ≡ S.splits by.old }
    ensures states { S.states by.new ≡ S.states by.old }
{
    meet_limits(alloc, schema, set)?;
    let names = names_of(alloc, set)?;
    let mut found = List::new(alloc);
    'names: for name in names.as_slice() {
        found.push(use_of(alloc, schema, set, *name, by)?)?;
    }
    Ok(found)
}
