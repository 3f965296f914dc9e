//! The two sets.
ghost use Rattle.std.specs.Prelude.{◌≡◌, ◌<◌, List, [], ◌∷◌, IfOk};
ghost use Rattle.policy_model.specs.Soundness.{IsSound};
ghost use Rattle.policy_load.specs.declared.keys.TheConstants.{KEY_NUMBERS};
ghost use Rattle.policy_load.specs.Loads.{any_of, first_load, load_statement, loads, of_one, second_load};

use crate::keys::load_conditions;
use crate::patterns::glob;
use plain_lists::{List, NoMemory};
use policy_model::{ConditionList, Document, Entry, Matcher, PolicySet, Statement};
use std::alloc::Global;
use wildcard_lang::Pattern;

// The element of one item.
fn any_of<T: Drop>(alloc: Global, item: T) -> Result<Matcher<T>, NoMemory>
    ensures { IfOk result (λ element. element ≡ any_of item) }
{
    let mut items = List::new(alloc);
    items.push(item)?;
    Ok(Matcher { not: false, items })
}

// The statement that allows everybody to read the resources, where the conditions hold.
fn load_statement(
    alloc: Global,
    resource: Pattern,
    conditions: ConditionList,
) -> Result<Statement, NoMemory>
    ensures { IfOk result (λ statement. statement ≡ load_statement resource conditions) }
{
    let action = glob(alloc, "load:Read", true)?;
    Ok(Statement {
        allow: true,
        principal: Some(any_of(alloc, Entry::All)?),
        action: any_of(alloc, action)?,
        resource: Some(any_of(alloc, resource)?),
        conditions,
    })
}

// The set of one document with one statement.
fn of_one(alloc: Global, statement: Statement) -> Result<PolicySet, NoMemory>
    ensures { IfOk result (λ set. set ≡ of_one statement) }
{
    let mut statements = List::new(alloc);
    statements.push(statement)?;
    let mut grants = List::new(alloc);
    grants.push(Document { statements })?;
    Ok(PolicySet {
        grants,
        guards: List::new(alloc),
    })
}

// The set with conditions.
fn first_load(alloc: Global, count: u32) -> Result<PolicySet, NoMemory>
    requires { count < KEY_NUMBERS }
    ensures { IfOk result (λ set. set ≡ first_load count) }
{
    let resource = glob(alloc, "arn:aws:s3:::load/x", false)?;
    let conditions = load_conditions(alloc, count)?;
    of_one(alloc, load_statement(alloc, resource, conditions)?)
}

// The set without conditions.
fn second_load(alloc: Global) -> Result<PolicySet, NoMemory>
    ensures { IfOk result (λ set. set ≡ second_load) }
{
    let resource = glob(alloc, "arn:aws:s3:::load/*", false)?;
    of_one(alloc, load_statement(alloc, resource, List::new(alloc))?)
}

/// Two sets, each of one document with one statement, which allows everybody the action `load:Read`. That
/// of the first allows it on the resource `arn:aws:s3:::load/x`, under the operator `StringEquals` with so
/// many keys, `load:k001`, `load:k002` and so on, each with the values `a` and `b`. That of the second
/// allows it on each resource `arn:aws:s3:::load/*`, without a condition.
pub fn load_pair(alloc: Global, count: u32) -> Result<(PolicySet, PolicySet), NoMemory>
    requires { count < KEY_NUMBERS }
    ensures value { IfOk result (λ pair. pair ≡ loads count) }
    ensures sound { IfOk result (λ pair. IsSound pair.0 × IsSound pair.1) }
{
    let first = first_load(alloc, count)?;
    let second = second_load(alloc)?;
    Ok((first, second))
}
