//! The nodes of statements and their elements.
ghost use Rattle.std.specs.Prelude.{◌≡◌};
ghost use Rattle.policy_compile.specs.Building.{AreIndices, IsAdded, IsBuilt, MakesElement};
ghost use Rattle.policy_compile.specs.Plans.{yes};
ghost use Rattle.policy_compile.specs.Sets.{element_plans, entries_plan, entry_plans, pattern_plans, pattern_test, patterns_plan, principal_plan, resource_plan, statement_plan};

use crate::builder::Builder;
use crate::conditions::conditions;
use crate::nodes::Node;
use crate::outcome::QueryFault;
use plain_lists::{EqualClone, List};
use policy_model::{Entry, Matcher, Schema, Statement, Test};
use wildcard_lang::Pattern;

/// The words of a request that patterns are of.
#[derive(Clone, Copy)]
pub(crate) enum RequestWord {
    Action,
    Resource,
}

fn add_entries(
    builder: &mut Builder,
    indices: &mut List<usize>,
    items: &[Entry],
) -> Result<(), QueryFault>
    ensures { IsAdded builder.old builder.new (entry_plans items.now)
        indices.old indices.new result }
{
    for item in items {
        let index = builder.ask(Test::Principal(item.copy()?))?;
        indices.push(index)?;
    }
    Ok(())
}

fn pattern_test(word: RequestWord, pattern: Pattern) -> Test
    ensures { result ≡ pattern_test word pattern }
{
    match word {
        RequestWord::Action => Test::Action(pattern),
        RequestWord::Resource => Test::Resource(pattern),
    }
}

fn add_patterns(
    builder: &mut Builder,
    indices: &mut List<usize>,
    word: RequestWord,
    items: &[Pattern],
) -> Result<(), QueryFault>
    ensures { IsAdded builder.old builder.new (pattern_plans word items.now)
        indices.old indices.new result }
{
    for item in items {
        let index = builder.ask(pattern_test(word, item.copy()?))?;
        indices.push(index)?;
    }
    Ok(())
}

// Some of the nodes holds, or with `not` none does.
fn some_or_none(builder: &mut Builder, not: bool, indices: List<usize>) -> Result<usize, QueryFault>
    requires { AreIndices builder.now indices }
    ensures { MakesElement builder.old builder.new not indices result }
{
    let some = builder.insert(Node::OneOf(indices))?;
    if !not {
        return Ok(some);
    }
    let none = builder.insert(Node::Not(some))?;
    Ok(none)
}

fn entries(builder: &mut Builder, matcher: &Matcher<Entry>) -> Result<usize, QueryFault>
    ensures { IsBuilt builder.old builder.new (entries_plan matcher.now) result }
{
    let mut indices = List::new(builder.alloc);
    add_entries(builder, &mut indices, matcher.items.as_slice())?;
    some_or_none(builder, matcher.not, indices)
}

fn patterns(
    builder: &mut Builder,
    word: RequestWord,
    matcher: &Matcher<Pattern>,
) -> Result<usize, QueryFault>
    ensures { IsBuilt builder.old builder.new (patterns_plan word matcher.now) result }
{
    let mut indices = List::new(builder.alloc);
    add_patterns(builder, &mut indices, word, matcher.items.as_slice())?;
    some_or_none(builder, matcher.not, indices)
}

// An absent element always holds.
fn absent(builder: &mut Builder) -> Result<usize, QueryFault>
    ensures { IsBuilt builder.old builder.new yes result }
{
    let index = builder.insert(Node::Yes)?;
    Ok(index)
}

fn principal(builder: &mut Builder, matcher: &Option<Matcher<Entry>>) -> Result<usize, QueryFault>
    ensures { IsBuilt builder.old builder.new (principal_plan matcher.now) result }
{
    match matcher {
        None => absent(builder),
        Some(matcher) => entries(builder, matcher),
    }
}

fn resource(builder: &mut Builder, matcher: &Option<Matcher<Pattern>>) -> Result<usize, QueryFault>
    ensures { IsBuilt builder.old builder.new (resource_plan matcher.now) result }
{
    match matcher {
        None => absent(builder),
        Some(matcher) => patterns(builder, RequestWord::Resource, matcher),
    }
}

// Adds the statement's principal, action, resource and conditions.
fn add_elements(
    builder: &mut Builder,
    indices: &mut List<usize>,
    schema: &Schema,
    statement: &Statement,
) -> Result<(), QueryFault>
    ensures { IsAdded builder.old builder.new (element_plans schema.now statement.now)
        indices.old indices.new result }
{
    let principal = principal(builder, &statement.principal)?;
    indices.push(principal)?;
    let action = patterns(builder, RequestWord::Action, &statement.action)?;
    indices.push(action)?;
    let resource = resource(builder, &statement.resource)?;
    indices.push(resource)?;
    let conditions = conditions(builder, schema, statement.conditions.as_slice())?;
    indices.push(conditions)?;
    Ok(())
}

// Each element of the statement holds.
pub(crate) fn statement(
    builder: &mut Builder,
    schema: &Schema,
    statement: &Statement,
) -> Result<usize, QueryFault>
    ensures { IsBuilt builder.old builder.new (statement_plan schema.now statement.now) result }
{
    let mut indices = List::new(builder.alloc);
    add_elements(builder, &mut indices, schema, statement)?;
    let index = builder.insert(Node::All(indices))?;
    Ok(index)
}
