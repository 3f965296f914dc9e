//! Elements of a statement that have a Not element, such as `Action` and `NotAction`.
ghost use Rattle.serde_json.specs.View.{view};
ghost use Rattle.policy_json.specs.Elements.{IsElementOf, both_checks};
ghost use Rattle.json_shapes.specs.Checks.{IsReadOf};

use crate::fault::{PolicyAnswer, PolicyCode, refusal};
use crate::location::Location;
use serde_json::Value;
use std::alloc::Global;

/// An element, or with `not` a Not element, by its name and its value.
#[derive(Clone, Copy)]
pub(crate) struct Element<'a> {
    pub(crate) not: bool,
    pub(crate) name: &'a str,
    pub(crate) value: &'a Value,
}

/// A fault where an element and its Not element stand together.
pub(crate) fn not_both(
    alloc: Global,
    location: Location,
    name: &str,
    not_name: &str,
    statement: &Value,
) -> Result<(), PolicyAnswer>
    ensures { IsReadOf (both_checks location name.now not_name.now (view statement.now)) tt result }
{
    if statement.get(name).is_some() && statement.get(not_name).is_some() {
        return Err(refusal(alloc, location, PolicyCode::P6BothElements, name));
    }
    Ok(())
}

/// The element, or else the Not element, or none where the statement has neither.
pub(crate) fn element_of<'a>(
    name: &'a str,
    not_name: &'a str,
    statement: &'a Value,
) -> Option<Element<'a>>
    ensures { IsElementOf name.now not_name.now (view statement.now) result }
{
    if let Some(value) = statement.get(name) {
        return Some(Element {
            not: false,
            name,
            value,
        });
    }
    match statement.get(not_name) {
        Some(value) => Some(Element {
            not: true,
            name: not_name,
            value,
        }),
        None => None,
    }
}
