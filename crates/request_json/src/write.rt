//! The writer of requests.
ghost use Rattle.std.specs.Prelude.{◌≡◌, Some, IfOk, OnOk, string_bytes};
ghost use Rattle.std.specs.Str.{encode_utf8_all};
ghost use Rattle.serde_json.specs.Data.{object, put, string};
ghost use Rattle.serde_json.specs.Read.{read};
ghost use Rattle.serde_json.specs.View.{members_view, view};
ghost use Rattle.policy_model.specs.Operators.{truth_word};
ghost use Rattle.request_json.specs.RequestTexts.{context_members, principal_data, request_data, request_text, value_data, value_text, values_data, with_parts};

use base64::engine::general_purpose::STANDARD;
use cidr_bits::write_address;
use intervals::write_decimal;
use plain_lists::NoMemory;
use policy_model::{Context, Request, Value, ValueList};
use serde_json::{Map, Value as Json};
use std::alloc::Global;
use wildcard_lang::Text;

// The word of a truth value.
fn truth_word(truth: bool) -> &'static str
    ensures { result.now ≡ truth_word truth }
{
    if truth { "true" } else { "false" }
}

// The text of a value.
fn value_text(alloc: Global, value: &Value) -> Result<String, NoMemory>
    ensures { IfOk result (λ s. string_bytes s ≡ value_text value.now) }
{
    match value {
        Value::Word(text) => text.to_utf8(),
        Value::Truth(truth) => String::from_str(alloc, truth_word(*truth)),
        Value::Number(number) => write_decimal(alloc, *number),
        Value::Address(address) => write_address(alloc, address),
        Value::Bytes(bytes) => STANDARD.encode(alloc, bytes.as_slice()),
    }
}

// A value as JSON.
fn value_json(alloc: Global, value: &Value) -> Result<Json, NoMemory>
    ensures { IfOk result (λ v. view v ≡ value_data value.now) }
{
    Ok(Json::String(value_text(alloc, value)?))
}

// The values of a key as JSON.
fn values_json(alloc: Global, values: &ValueList) -> Result<Json, NoMemory>
    ensures { IfOk result (λ v. view v ≡ values_data values.now) }
{
    let mut items = Vec::new(alloc);
    for value in values.as_slice() {
        items.push(value_json(alloc, value)?)?;
    }
    Ok(Json::Array(items))
}

// Puts the values of a key at its name.
fn add_key(
    alloc: Global,
    members: &mut Map<String, Json>,
    key: &Text,
    values: &ValueList,
) -> Result<(), NoMemory>
    ensures { OnOk result (members_view members.new.entries ≡
        put (encode_utf8_all key.now) (values_data values.now) (members_view members.old.entries)) }
{
    members.insert(key.to_utf8()?, values_json(alloc, values)?)?;
    Ok(())
}

// The keys that have values, each with them, as JSON.
fn context_json(alloc: Global, context: &Context) -> Result<Json, NoMemory>
    ensures { IfOk result (λ v. view v ≡ object (context_members context.now)) }
{
    let mut members = Map::new(alloc);
    for (key, values) in context.iter() {
        add_key(alloc, &mut members, key, values)?;
    }
    Ok(Json::Object(members))
}

// A text as JSON.
fn text_json(text: &Text) -> Result<Json, NoMemory>
    ensures { IfOk result (λ v. view v ≡ string (encode_utf8_all text.now)) }
{
    Ok(Json::String(text.to_utf8()?))
}

// Puts a value at a name.
fn put_at(
    alloc: Global,
    members: &mut Map<String, Json>,
    name: &str,
    value: Json,
) -> Result<(), NoMemory>
    ensures { OnOk result (members_view members.new.entries ≡
        put name.now (view value) (members_view members.old.entries)) }
{
    let name = String::from_str(alloc, name)?;
    members.insert(name, value)?;
    Ok(())
}

fn principal_json(alloc: Global, request: &Request) -> Result<Json, NoMemory>
    ensures { IfOk result (λ v. view v ≡ principal_data request.now) }
{
    let mut members = Map::new(alloc);
    put_at(
        alloc,
        &mut members,
        request.kind.word(),
        text_json(&request.id)?,
    )?;
    Ok(Json::Object(members))
}

// Puts the parts of a request at their names.
fn put_parts(
    alloc: Global,
    request: &Request,
    members: &mut Map<String, Json>,
) -> Result<(), NoMemory>
    ensures { OnOk result (members_view members.new.entries ≡
        with_parts request.now (members_view members.old.entries)) }
{
    put_at(alloc, members, "Action", text_json(&request.action)?)?;
    put_at(
        alloc,
        members,
        "Context",
        context_json(alloc, &request.context)?,
    )?;
    put_at(alloc, members, "Principal", principal_json(alloc, request)?)?;
    put_at(alloc, members, "Resource", text_json(&request.resource)?)
}

fn request_json(alloc: Global, request: &Request) -> Result<Json, NoMemory>
    ensures { IfOk result (λ v. view v ≡ request_data request.now) }
{
    let mut members = Map::new(alloc);
    put_parts(alloc, request, &mut members)?;
    Ok(Json::Object(members))
}

/// The request as one line of compact JSON (RFC 8259), without a line feed. Its names stand in the order
/// of their bytes. `Context` is always there. It has each key that has values, by its folded name, and the
/// list of its values in their order: a text as it is, `true` or `false`, a number in decimal, an address
/// in its one form, bytes in Base64 with padding (RFC 4648). Read as JSON it is `request_data` again.
///
/// The only error is want of memory.
pub fn write_request(alloc: Global, request: &Request) -> Result<String, NoMemory>
    ensures text { IfOk result (λ s. string_bytes s ≡ request_text request.now) }
    ensures read_again { IfOk result (λ s.
        read (string_bytes s) ≡ Some (request_data request.now)) }
{
    request_json(alloc, request)?.to_string(alloc)
}
