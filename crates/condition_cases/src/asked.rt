//! The requests that a row is tried on, and the schema that they are valid under.
ghost use Rattle.std.specs.Prelude.{◌≢◌, [], IfOk};
ghost use Rattle.policy_model.specs.Keys.{IsFolded};

use crate::lists::short_lists;
use crate::row::{Row, part_of, parts_in};
use policy_model::{
    Context, KeyRule, Kind, List, PrincipalKind, Request, Schema, Value, ValueList,
};
use request_schema::value_written;
use std::alloc::Global;
use std::io;
use std::io::ErrorKind;
use wildcard_lang::Text;

/// The name of the key, as the conditions write it.
pub(crate) const KEY: &str = "App:Key";

/// A request, with the numbers of the key's values among those of its row.
#[derive(Drop)]
pub(crate) struct Asked {
    pub(crate) values: Vec<usize>,
    pub(crate) request: Request,
}

fn key(alloc: Global) -> io::Result<Text>
    ensures { IfOk result IsFolded }
{
    Ok(Text::of(alloc, KEY)?.folded()?)
}

fn add_rule(alloc: Global, schema: &mut Schema, kind: Kind, many: bool) -> io::Result<()> {
    let key = key(alloc)?;
    let rule = KeyRule {
        kind,
        many,
        required: false,
        among: None,
        shape: None,
    };
    schema.insert(key, rule)?;
    Ok(())
}

/// The schema that has the key alone.
pub(crate) fn schema_with_key(alloc: Global, kind: Kind, many: bool) -> io::Result<Schema> {
    let mut schema = Schema::new(alloc);
    add_rule(alloc, &mut schema, kind, many)?;
    Ok(schema)
}

fn value_of(alloc: Global, kind: Kind, text: &str) -> io::Result<Value> {
    match value_written(alloc, kind, text)? {
        Some(value) => Ok(value),
        None => Err(ErrorKind::InvalidData.into()),
    }
}

fn add_value(alloc: Global, values: &mut ValueList, kind: Kind, text: &str) -> io::Result<()> {
    values.push(value_of(alloc, kind, text)?)?;
    Ok(())
}

fn values_of(alloc: Global, row: &Row, numbers: &[usize]) -> io::Result<ValueList> {
    let mut values = List::new(alloc);
    for number in numbers {
        add_value(alloc, &mut values, row.kind, part_of(row.values, *number))?;
    }
    Ok(values)
}

fn context_with(alloc: Global, values: ValueList) -> io::Result<Context>
    requires { values ≢ [] }
{
    let mut context = Context::new(alloc);
    context.insert(key(alloc)?, values)?;
    Ok(context)
}

fn context_of(alloc: Global, row: &Row, numbers: &[usize]) -> io::Result<Context> {
    let values = values_of(alloc, row, numbers)?;
    if values.is_empty() {
        return Ok(Context::new(alloc));
    }
    context_with(alloc, values)
}

fn request_with(alloc: Global, context: Context) -> io::Result<Request> {
    let id = Text::of(alloc, "id")?;
    let action = Text::of(alloc, "action")?;
    let resource = Text::of(alloc, "resource")?;
    Ok(Request {
        kind: PrincipalKind::Aws,
        id,
        action,
        resource,
        context,
    })
}

fn add_request(
    alloc: Global,
    asked: &mut Vec<Asked>,
    row: &Row,
    values: Vec<usize>,
) -> io::Result<()> {
    let context = context_of(alloc, row, values.as_slice())?;
    let request = request_with(alloc, context)?;
    asked.push(Asked { values, request })?;
    Ok(())
}

/// The requests of a row: with the key absent, with one of its values, and with `many` with two.
pub(crate) fn requests_of(alloc: Global, row: &Row, many: bool) -> io::Result<Vec<Asked>> {
    let mut asked = Vec::new(alloc);
    for values in short_lists(alloc, parts_in(row.values), many)? {
        add_request(alloc, &mut asked, row, values)?;
    }
    Ok(asked)
}
