//! The words of a request file: its principal, its action and its resource.
ghost use Rattle.std.specs.Prelude.{◌≡◌, IfOk, IsTrue, OnOk};
ghost use Rattle.serde_json.specs.View.{members_view, view};
ghost use Rattle.json_shapes.specs.Json.{pairs_of};
ghost use Rattle.policy_model.specs.Requests.{IsWord, WordsAreValid};
ghost use Rattle.request_json.specs.RequestFiles.{first_pair, is_word, principal_named, request_with, word_at, word_checks_of};
ghost use Rattle.request_json.specs.RequestKeys.{fits_shape};
ghost use Rattle.request_json.specs.RequestShapes.{kind_of_name};
ghost use Rattle.json_shapes.specs.Checks.{IsReadOf};

use crate::fault::{RequestAnswer, RequestCode, require};
use crate::keys::string_in;
use plain_lists::NoMemory;
use policy_model::{Context, PrincipalKind, Request, Shapes, shape_of};
use serde_json::{Map, Value};
use std::alloc::Global;
use wildcard_lang::{Pattern, Text, matches};

// The kind of principals of a name.
fn kind_of_name(name: &str) -> PrincipalKind
    ensures { result ≡ kind_of_name name.now }
{
    match name {
        "AWS" => PrincipalKind::Aws,
        "Service" => PrincipalKind::Service,
        "Federated" => PrincipalKind::Federated,
        _ => PrincipalKind::CanonicalUser,
    }
}

// The first member's name, and the string that it is.
fn first_pair(members: &Map<String, Value>) -> (&str, &str)
    ensures { (result.0.now, result.1.now) ≡
        first_pair (pairs_of (members_view members.now.entries)) }
{
    match members.iter().next() {
        Some((name, value)) => (name.as_str(), string_in(value)),
        None => ("", ""),
    }
}

// The name of the principal's kind, and its id.
fn principal_named(file: &Value) -> (&str, &str)
    ensures { (result.0.now, result.1.now) ≡ principal_named (view file.now) }
{
    match file.get("Principal").and_then(Value::as_object) {
        Some(members) => first_pair(members),
        None => ("", ""),
    }
}

// The string under a name.
fn word_at<'a>(file: &'a Value, name: &str) -> &'a str
    ensures { result.now ≡ word_at name.now (view file.now) }
{
    match file.get(name) {
        Some(value) => string_in(value),
        None => "",
    }
}

/// The request of the file's words and of this context.
pub(crate) fn request_with(
    alloc: Global,
    file: &Value,
    context: Context,
) -> Result<Request, NoMemory>
    ensures { IfOk result (λ request. request ≡ request_with (view file.now) context) }
{
    let (kind, id) = principal_named(file);
    let id = Text::of(alloc, id)?;
    let action = Text::of(alloc, word_at(file, "Action"))?;
    let resource = Text::of(alloc, word_at(file, "Resource"))?;
    Ok(Request {
        kind: kind_of_name(kind),
        id,
        action,
        resource,
        context,
    })
}

// Whether the text matches the shape, where one is given.
fn fits_shape(shape: &Option<Pattern>, text: &Text) -> bool
    ensures { result ≡ fits_shape shape.now text.now }
{
    match shape {
        Some(pattern) => matches(pattern, text),
        None => true,
    }
}

// Whether the text isn't empty and matches the shape.
fn is_word(shape: &Option<Pattern>, text: &Text) -> bool
    ensures value { result ≡ is_word shape.now text.now }
    ensures word { IsTrue result → IsWord shape.now text.now }
{
    text.len() >= 1 && fits_shape(shape, text)
}

/// Passes where the words aren't empty and match their shapes.
pub(crate) fn check_words(
    alloc: Global,
    shapes: &Shapes,
    request: &Request,
) -> Result<(), RequestAnswer>
    ensures read { IsReadOf (word_checks_of shapes.now request.now) tt result }
    ensures valid { OnOk result (WordsAreValid shapes.now request.now) }
{
    let id = is_word(shape_of(shapes, request.kind), &request.id);
    let action = is_word(&shapes.action, &request.action);
    let resource = is_word(&shapes.resource, &request.resource);
    require(alloc, id, RequestCode::Q4NotValid, "Principal")?;
    require(alloc, action, RequestCode::Q4NotValid, "Action")?;
    require(alloc, resource, RequestCode::Q4NotValid, "Resource")
}
