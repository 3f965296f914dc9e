//! The nodes of sets.
ghost use Rattle.std.specs.Prelude.{[], ◌∷◌, true, false};
ghost use Rattle.policy_compile.specs.Building.{IsAdded, IsBuilt};
ghost use Rattle.policy_compile.specs.Plans.{not};
ghost use Rattle.policy_compile.specs.Sets.{document_plans, grants_plan, guard_deny_plans, guard_plans, no_deny_plan, query_plan, set_plan, set_plans, statement_plan, statement_plans, where_same};

use crate::builder::Builder;
use crate::elements::statement;
use crate::nodes::Node;
use crate::outcome::QueryFault;
use plain_lists::List;
use policy_model::{Document, DocumentList, PolicySet, Schema, Statement};

fn add_statement(
    builder: &mut Builder,
    indices: &mut List<usize>,
    schema: &Schema,
    allow: bool,
    item: &Statement,
) -> Result<(), QueryFault>
    ensures { IsAdded builder.old builder.new
        (where_same allow item.now.allow (statement_plan schema.now item.now ∷ []))
        indices.old indices.new result }
{
    if item.allow != allow {
        return Ok(());
    }
    let index = statement(builder, schema, item)?;
    indices.push(index)?;
    Ok(())
}

fn add_statements(
    builder: &mut Builder,
    indices: &mut List<usize>,
    schema: &Schema,
    allow: bool,
    items: &[Statement],
) -> Result<(), QueryFault>
    ensures { IsAdded builder.old builder.new (statement_plans schema.now allow items.now)
        indices.old indices.new result }
{
    for item in items {
        add_statement(builder, indices, schema, allow, item)?;
    }
    Ok(())
}

fn add_documents(
    builder: &mut Builder,
    indices: &mut List<usize>,
    schema: &Schema,
    allow: bool,
    items: &[Document],
) -> Result<(), QueryFault>
    ensures { IsAdded builder.old builder.new (document_plans schema.now allow items.now)
        indices.old indices.new result }
{
    for item in items {
        add_statements(builder, indices, schema, allow, item.statements.as_slice())?;
    }
    Ok(())
}

// Some Allow statement of the documents applies.
fn grants(
    builder: &mut Builder,
    schema: &Schema,
    documents: &[Document],
) -> Result<usize, QueryFault>
    ensures { IsBuilt builder.old builder.new (grants_plan schema.now documents.now) result }
{
    let mut indices = List::new(builder.alloc);
    add_documents(builder, &mut indices, schema, true, documents)?;
    let index = builder.insert(Node::OneOf(indices))?;
    Ok(index)
}

fn add_guards(
    builder: &mut Builder,
    indices: &mut List<usize>,
    schema: &Schema,
    items: &[DocumentList],
) -> Result<(), QueryFault>
    ensures { IsAdded builder.old builder.new (guard_plans schema.now items.now)
        indices.old indices.new result }
{
    for item in items {
        let index = grants(builder, schema, item.as_slice())?;
        indices.push(index)?;
    }
    Ok(())
}

fn add_guard_denies(
    builder: &mut Builder,
    indices: &mut List<usize>,
    schema: &Schema,
    items: &[DocumentList],
) -> Result<(), QueryFault>
    ensures { IsAdded builder.old builder.new (guard_deny_plans schema.now items.now)
        indices.old indices.new result }
{
    for item in items {
        add_documents(builder, indices, schema, false, item.as_slice())?;
    }
    Ok(())
}

// No Deny statement of the grants or of a guard applies.
fn no_deny(builder: &mut Builder, schema: &Schema, set: &PolicySet) -> Result<usize, QueryFault>
    ensures { IsBuilt builder.old builder.new (no_deny_plan schema.now set.now) result }
{
    let mut indices = List::new(builder.alloc);
    add_documents(builder, &mut indices, schema, false, set.grants.as_slice())?;
    add_guard_denies(builder, &mut indices, schema, set.guards.as_slice())?;
    let some = builder.insert(Node::OneOf(indices))?;
    let index = builder.insert(Node::Not(some))?;
    Ok(index)
}

// Adds what a set asks for: a grant, each guard, and no Deny statement.
fn add_parts(
    builder: &mut Builder,
    indices: &mut List<usize>,
    schema: &Schema,
    set: &PolicySet,
) -> Result<(), QueryFault>
    ensures { IsAdded builder.old builder.new (set_plans schema.now set.now)
        indices.old indices.new result }
{
    let granted = grants(builder, schema, set.grants.as_slice())?;
    indices.push(granted)?;
    add_guards(builder, indices, schema, set.guards.as_slice())?;
    let denied = no_deny(builder, schema, set)?;
    indices.push(denied)?;
    Ok(())
}

// The set allows.
pub(crate) fn set_node(
    builder: &mut Builder,
    schema: &Schema,
    set: &PolicySet,
) -> Result<usize, QueryFault>
    ensures { IsBuilt builder.old builder.new (set_plan schema.now set.now) result }
{
    let mut indices = List::new(builder.alloc);
    add_parts(builder, &mut indices, schema, set)?;
    let index = builder.insert(Node::All(indices))?;
    Ok(index)
}

// The set doesn't allow.
fn refused(builder: &mut Builder, schema: &Schema, set: &PolicySet) -> Result<usize, QueryFault>
    ensures { IsBuilt builder.old builder.new (not (set_plan schema.now set.now)) result }
{
    let allowed = set_node(builder, schema, set)?;
    let index = builder.insert(Node::Not(allowed))?;
    Ok(index)
}

// The first set allows and the second doesn't.
pub(crate) fn pair_node(
    builder: &mut Builder,
    schema: &Schema,
    first: &PolicySet,
    second: &PolicySet,
) -> Result<usize, QueryFault>
    ensures { IsBuilt builder.old builder.new (query_plan schema.now first.now second.now) result }
{
    let mut indices = List::new(builder.alloc);
    let allowed = set_node(builder, schema, first)?;
    indices.push(allowed)?;
    let denied = refused(builder, schema, second)?;
    indices.push(denied)?;
    let index = builder.insert(Node::All(indices))?;
    Ok(index)
}
