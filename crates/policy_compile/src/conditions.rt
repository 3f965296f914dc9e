//! The nodes of conditions.
ghost use Rattle.policy_compile.specs.Building.{IsAdded, IsBuilt};
ghost use Rattle.policy_compile.specs.Plans.{not, of_plans, one_of};
ghost use Rattle.policy_compile.specs.Conditions.{absent_plan, condition_plan, conditions_plan, group_plan, group_plans, meets_plan, meets_plans, null_plan, null_plans, nulls_plans, operator_plan, operator_plans, optional_plans, presence_plan, present_plan, quantified_plan, some_meets, some_meets_none};

use crate::builder::Builder;
use crate::nodes::Node;
use crate::outcome::QueryFault;
use plain_lists::{EqualClone, List};
use policy_model::{Condition, Kind, Operand, Quantifier, Schema, Test, cond_of, conds_of};

// The node of whether the key has a value.
fn present(builder: &mut Builder, condition: &Condition) -> Result<usize, QueryFault>
    ensures { IsBuilt builder.old builder.new (present_plan condition.now) result }
{
    builder.ask(Test::Present(condition.key.copy()?))
}

fn absent(builder: &mut Builder, condition: &Condition) -> Result<usize, QueryFault>
    ensures { IsBuilt builder.old builder.new (absent_plan condition.now) result }
{
    let present = present(builder, condition)?;
    let index = builder.insert(Node::Not(present))?;
    Ok(index)
}

// The node of whether some value of the key meets what a value of the policy asks.
fn meets(
    builder: &mut Builder,
    kind: Kind,
    condition: &Condition,
    operand: &Operand,
) -> Result<usize, QueryFault>
    ensures { IsBuilt builder.old builder.new (meets_plan kind condition.now operand.now) result }
{
    let cond = cond_of(builder.alloc, kind, condition.operator.base, operand)?;
    builder.ask(Test::SomeMeets(condition.key.copy()?, cond))
}

fn add_meets(
    builder: &mut Builder,
    indices: &mut List<usize>,
    kind: Kind,
    condition: &Condition,
) -> Result<(), QueryFault>
    ensures { IsAdded builder.old builder.new (meets_plans kind condition.now)
        indices.old indices.new result }
{
    for operand in condition.values.as_slice() {
        let index = meets(builder, kind, condition, operand)?;
        indices.push(index)?;
    }
    Ok(())
}

fn some_meets(builder: &mut Builder, kind: Kind, condition: &Condition) -> Result<usize, QueryFault>
    ensures { IsBuilt builder.old builder.new (some_meets kind condition.now) result }
{
    let mut indices = List::new(builder.alloc);
    add_meets(builder, &mut indices, kind, condition)?;
    let index = builder.insert(Node::OneOf(indices))?;
    Ok(index)
}

fn no_meets(builder: &mut Builder, kind: Kind, condition: &Condition) -> Result<usize, QueryFault>
    ensures { IsBuilt builder.old builder.new (not (some_meets kind condition.now)) result }
{
    let some = some_meets(builder, kind, condition)?;
    let index = builder.insert(Node::Not(some))?;
    Ok(index)
}

// The node of whether some value of the key meets nothing that the policy asks.
fn some_meets_none(
    builder: &mut Builder,
    kind: Kind,
    condition: &Condition,
) -> Result<usize, QueryFault>
    ensures { IsBuilt builder.old builder.new (some_meets_none kind condition.now) result }
{
    let conds = conds_of(builder.alloc, kind, condition)?;
    builder.ask(Test::SomeMeetsNone(condition.key.copy()?, conds))
}

fn no_meets_none(
    builder: &mut Builder,
    kind: Kind,
    condition: &Condition,
) -> Result<usize, QueryFault>
    ensures { IsBuilt builder.old builder.new (not (some_meets_none kind condition.now)) result }
{
    let some = some_meets_none(builder, kind, condition)?;
    let index = builder.insert(Node::Not(some))?;
    Ok(index)
}

// The node of the condition by the prefix of its operator, and by whether that is negated.
fn quantified(
    builder: &mut Builder,
    quantifier: Quantifier,
    negated: bool,
    kind: Kind,
    condition: &Condition,
) -> Result<usize, QueryFault>
    ensures { IsBuilt builder.old builder.new
        (quantified_plan quantifier negated kind condition.now) result }
{
    match (quantifier, negated) {
        (Quantifier::Plain, false) => some_meets(builder, kind, condition),
        (Quantifier::Plain, true) => no_meets(builder, kind, condition),
        (Quantifier::ForAll, false) => no_meets_none(builder, kind, condition),
        (Quantifier::ForAll, true) => no_meets(builder, kind, condition),
        (Quantifier::ForAny, false) => some_meets(builder, kind, condition),
        (Quantifier::ForAny, true) => some_meets_none(builder, kind, condition),
    }
}

// The node of what a `Null` asks with a truth value.
fn presence(
    builder: &mut Builder,
    condition: &Condition,
    is_absent: bool,
) -> Result<usize, QueryFault>
    ensures { IsBuilt builder.old builder.new (presence_plan condition.now is_absent) result }
{
    if is_absent {
        absent(builder, condition)
    } else {
        present(builder, condition)
    }
}

// Adds the node of one value of a `Null`. Values that aren't truth values ask nothing.
fn add_null(
    builder: &mut Builder,
    indices: &mut List<usize>,
    condition: &Condition,
    operand: &Operand,
) -> Result<(), QueryFault>
    ensures { IsAdded builder.old builder.new (null_plans condition.now operand.now)
        indices.old indices.new result }
{
    let Operand::Truth(is_absent) = operand else {
        return Ok(());
    };
    let index = presence(builder, condition, *is_absent)?;
    indices.push(index)?;
    Ok(())
}

fn add_nulls(
    builder: &mut Builder,
    indices: &mut List<usize>,
    condition: &Condition,
) -> Result<(), QueryFault>
    ensures { IsAdded builder.old builder.new (nulls_plans condition.now)
        indices.old indices.new result }
{
    for truth in condition.values.as_slice() {
        add_null(builder, indices, condition, truth)?;
    }
    Ok(())
}

fn null(builder: &mut Builder, condition: &Condition) -> Result<usize, QueryFault>
    ensures { IsBuilt builder.old builder.new (null_plan condition.now) result }
{
    let mut indices = List::new(builder.alloc);
    add_nulls(builder, &mut indices, condition)?;
    let index = builder.insert(Node::OneOf(indices))?;
    Ok(index)
}

// The node of what the operator says without `IfExists`.
fn operator(builder: &mut Builder, kind: Kind, condition: &Condition) -> Result<usize, QueryFault>
    ensures { IsBuilt builder.old builder.new (operator_plan kind condition.now) result }
{
    let base = condition.operator.base;
    if base.is_null() {
        return null(builder, condition);
    }
    let quantifier = condition.operator.quantifier;
    quantified(builder, quantifier, base.is_negated(), kind, condition)
}

fn add_optional(
    builder: &mut Builder,
    indices: &mut List<usize>,
    kind: Kind,
    condition: &Condition,
) -> Result<(), QueryFault>
    ensures { IsAdded builder.old builder.new (optional_plans kind condition.now)
        indices.old indices.new result }
{
    let absent = absent(builder, condition)?;
    indices.push(absent)?;
    let holds = operator(builder, kind, condition)?;
    indices.push(holds)?;
    Ok(())
}

// The node of what the operator says with `IfExists`: the key may be absent.
fn optional(builder: &mut Builder, kind: Kind, condition: &Condition) -> Result<usize, QueryFault>
    ensures { IsBuilt builder.old builder.new
        (one_of (of_plans (optional_plans kind condition.now))) result }
{
    let mut indices = List::new(builder.alloc);
    add_optional(builder, &mut indices, kind, condition)?;
    let index = builder.insert(Node::OneOf(indices))?;
    Ok(index)
}

fn condition(
    builder: &mut Builder,
    schema: &Schema,
    condition: &Condition,
) -> Result<usize, QueryFault>
    ensures { IsBuilt builder.old builder.new (condition_plan schema.now condition.now) result }
{
    let kind = schema.kind_at(&condition.key);
    if !condition.operator.if_exists {
        return operator(builder, kind, condition);
    }
    optional(builder, kind, condition)
}

fn add_keys(
    builder: &mut Builder,
    indices: &mut List<usize>,
    schema: &Schema,
    group: &[Condition],
) -> Result<(), QueryFault>
    ensures { IsAdded builder.old builder.new (group_plans schema.now group.now)
        indices.old indices.new result }
{
    for item in group {
        let index = condition(builder, schema, item)?;
        indices.push(index)?;
    }
    Ok(())
}

// The node of one operator over its keys.
fn group(builder: &mut Builder, schema: &Schema, group: &[Condition]) -> Result<usize, QueryFault>
    ensures { IsBuilt builder.old builder.new (group_plan schema.now group.now) result }
{
    let mut indices = List::new(builder.alloc);
    add_keys(builder, &mut indices, schema, group)?;
    let index = builder.insert(Node::All(indices))?;
    Ok(index)
}

fn add_operators(
    builder: &mut Builder,
    indices: &mut List<usize>,
    schema: &Schema,
    conditions: &[Condition],
) -> Result<(), QueryFault>
    ensures { IsAdded builder.old builder.new (operator_plans schema.now conditions.now)
        indices.old indices.new result }
{
    for keys in conditions.chunk_by(|a, b| a.operator == b.operator) {
        let index = group(builder, schema, keys)?;
        indices.push(index)?;
    }
    Ok(())
}

// The node of each operator of the statement.
pub(crate) fn conditions(
    builder: &mut Builder,
    schema: &Schema,
    conditions: &[Condition],
) -> Result<usize, QueryFault>
    ensures { IsBuilt builder.old builder.new (conditions_plan schema.now conditions.now) result }
{
    let mut indices = List::new(builder.alloc);
    add_operators(builder, &mut indices, schema, conditions)?;
    let index = builder.insert(Node::All(indices))?;
    Ok(index)
}
