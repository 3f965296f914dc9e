//! The names of an object's members.
ghost use Rattle.serde_json.specs.View.{view};
ghost use Rattle.policy_json.specs.Checks.{name_checks};
ghost use Rattle.json_shapes.specs.Shapes.{texts};
ghost use Rattle.json_shapes.specs.Checks.{IsReadOf};

use crate::fault::{PolicyAnswer, PolicyCode, refusal};
use crate::location::Location;
use json_shapes::is_among;
use serde_json::Value;
use std::alloc::Global;

/// Refuses the first name of the object, in the order of its names, that isn't one of these.
pub(crate) fn check_names(
    alloc: Global,
    location: Location,
    names: &[&str],
    value: &Value,
) -> Result<(), PolicyAnswer>
    ensures { IsReadOf (name_checks location (texts names.now) (view value.now)) tt result }
{
    let Some(members) = value.as_object() else {
        return Ok(());
    };
    for (name, _) in members {
        if !is_among(names, name.as_str()) {
            return Err(refusal(alloc, location, PolicyCode::P3UnknownElement, name.as_str()));
        }
    }
    Ok(())
}
