//! What is checked of a schema file as a whole.
ghost use Rattle.std.specs.Prelude.{◌≡◌, codes};
ghost use Rattle.serde_json.specs.Find.{get};
ghost use Rattle.serde_json.specs.View.{view};
ghost use Rattle.json_shapes.specs.Shapes.{is_object, is_there_and, where_there, is_object_of};
ghost use Rattle.request_schema.specs.SchemaHeads.{are_word_shapes, file_checks, file_names, is_schema_version, is_second, word_names};
ghost use Rattle.json_shapes.specs.Checks.{IsReadOf};

use crate::requirement::{is_whole, require};
use crate::schema_fault::{SchemaAnswer, SchemaCode};
use json_shapes::{has_strings, is_object, is_object_of};
use serde_json::Value;
use std::alloc::Global;

/// Whether the file is of version 2.
pub(crate) fn is_second(file: &Value) -> bool
    ensures { result ≡ is_second (view file.now) }
{
    match file.get("Version") {
        Some(version) => is_whole(2, version),
        None => false,
    }
}

// Whether the file has a version that schema files have.
fn has_version(file: &Value) -> bool
    ensures { result ≡ is_there_and is_schema_version (get (codes "Version") (view file.now)) }
{
    match file.get("Version") {
        Some(version) => is_whole(1, version) || is_whole(2, version),
        None => false,
    }
}

// Whether the file is an object, of the names that files of its version may have.
fn has_names(file: &Value) -> bool
    ensures { result ≡ is_object_of (file_names (is_second (view file.now))) (view file.now) }
{
    if is_second(file) {
        is_object_of(&["Version", "Keys", "Shapes"], file)
    } else {
        is_object_of(&["Version", "Keys"], file)
    }
}

// Whether the file has an object of keys.
fn has_keys(file: &Value) -> bool
    ensures { result ≡ is_there_and is_object (get (codes "Keys") (view file.now)) }
{
    match file.get("Keys") {
        Some(keys) => is_object(keys),
        None => false,
    }
}

// Whether the value is an object in which some of these names stand, no other, and each has a string.
fn are_word_shapes(shapes: &Value) -> bool
    ensures { result ≡ are_word_shapes (view shapes.now) }
{
    let names = [
        "AWS",
        "Action",
        "CanonicalUser",
        "Federated",
        "Resource",
        "Service",
    ];
    is_object_of(&names, shapes) && has_strings(shapes)
}

// Whether the shapes of words, where they are given, are of their form.
fn has_word_shapes(file: &Value) -> bool
    ensures { result ≡ where_there are_word_shapes (get (codes "Shapes") (view file.now)) }
{
    match file.get("Shapes") {
        Some(shapes) => are_word_shapes(shapes),
        None => true,
    }
}

/// All that is checked of a file before its keys.
pub(crate) fn check_file(alloc: Global, file: &Value) -> Result<(), SchemaAnswer>
    ensures { IsReadOf (file_checks (view file.now)) tt result }
{
    require(alloc, has_names(file), SchemaCode::S2Shape, "")?;
    require(alloc, has_version(file), SchemaCode::S2Shape, "")?;
    require(alloc, has_keys(file), SchemaCode::S2Shape, "")?;
    require(alloc, has_word_shapes(file), SchemaCode::S2Shape, "")
}
