//! Reads actions and resources.
ghost use Rattle.serde_json.specs.View.{view};
ghost use Rattle.json_shapes.specs.Json.{views};
ghost use Rattle.policy_json.specs.Statements.{IsActionRead, IsResourceRead};
ghost use Rattle.policy_json.specs.Texts.{ArePatternsRead, IsElementRead, IsPatternRead};

use crate::element::{element_of, not_both};
use crate::fault::{PolicyAnswer, PolicyCode, refusal};
use crate::location::Location;
use json_shapes::{are_strings, members, text_of};
use plain_lists::List;
use policy_model::Matcher;
use serde_json::Value;
use std::alloc::Global;
use wildcard_lang::{Pattern, PatternFault, PatternList, read_glob};

// The pattern of a string.
fn read_pattern(
    alloc: Global,
    location: Location,
    name: &str,
    fold: bool,
    escapes: bool,
    value: &Value,
) -> Result<Pattern, PolicyAnswer>
    ensures { IsPatternRead location name.now fold escapes (view value.now) result }
{
    match read_glob(alloc, text_of(value), fold, escapes) {
        Ok(pattern) => Ok(pattern),
        Err(PatternFault::PolicyVariable) => {
            Err(refusal(alloc, location, PolicyCode::P11PolicyVariable, name))
        }
        Err(PatternFault::NoMemory) => Err(PolicyAnswer::NoMemory),
        Err(_) => Err(refusal(alloc, location, PolicyCode::P17Limit, name)),
    }
}

// The patterns of strings.
fn read_each(
    alloc: Global,
    location: Location,
    name: &str,
    fold: bool,
    escapes: bool,
    values: &[Value],
) -> Result<PatternList, PolicyAnswer>
    ensures { ArePatternsRead location name.now fold escapes (views values.now) result }
{
    let mut patterns = List::new(alloc);
    for value in values {
        let pattern = read_pattern(alloc, location, name, fold, escapes, value)?;
        patterns.push(pattern)?;
    }
    Ok(patterns)
}

// The patterns of an element.
fn read_patterns(
    alloc: Global,
    location: Location,
    name: &str,
    fold: bool,
    escapes: bool,
    element: &Value,
) -> Result<PatternList, PolicyAnswer>
    ensures { IsElementRead location name.now fold escapes (view element.now) result }
{
    let values = members(element);
    if !are_strings(values) {
        return Err(refusal(alloc, location, PolicyCode::P4WrongShape, name));
    }
    read_each(alloc, location, name, fold, escapes, values)
}

/// The actions of a statement, or the first fault of its elements of actions. One element is needed.
pub(crate) fn read_action(
    alloc: Global,
    location: Location,
    statement: &Value,
) -> Result<Matcher<Pattern>, PolicyAnswer>
    ensures { IsActionRead location (view statement.now) result }
{
    not_both(alloc, location, "Action", "NotAction", statement)?;
    match element_of("Action", "NotAction", statement) {
        None => Err(refusal(alloc, location, PolicyCode::P5MissingElement, "Action")),
        Some(element) => {
            let items = read_patterns(alloc, location, element.name, true, false, element.value)?;
            Ok(Matcher {
                not: element.not,
                items,
            })
        }
    }
}

/// The resources of a statement, or none where it has no element of resources, or the first fault of
/// these elements.
pub(crate) fn read_resource(
    alloc: Global,
    location: Location,
    escapes: bool,
    statement: &Value,
) -> Result<Option<Matcher<Pattern>>, PolicyAnswer>
    ensures { IsResourceRead location escapes (view statement.now) result }
{
    not_both(alloc, location, "Resource", "NotResource", statement)?;
    match element_of("Resource", "NotResource", statement) {
        None => Ok(None),
        Some(element) => {
            let items = read_patterns(
                alloc,
                location,
                element.name,
                false,
                escapes,
                element.value,
            )?;
            Ok(Some(Matcher {
                not: element.not,
                items,
            }))
        }
    }
}
