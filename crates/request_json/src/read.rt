//! Reads request files.
ghost use Rattle.std.specs.Prelude.{◌≡◌, IfOk};
ghost use Rattle.serde_json.specs.View.{view};
ghost use Rattle.policy_model.specs.Requests.{IsValid};
ghost use Rattle.policy_model.specs.RequiredKeys.{required_keys};
ghost use Rattle.request_json.specs.RequestFiles.{IsRequestFrom, request_checks, request_of, whole_checks};
ghost use Rattle.json_shapes.specs.Checks.{IsReadOf};

use crate::fault::{RequestAnswer, RequestCode, refusal, require};
use crate::keys::read_keys;
use crate::required::require_values;
use crate::shape::is_request;
use crate::words::{check_words, request_with};
use json_shapes::read_json;
use plain_lists::NoMemory;
use policy_model::{Request, Schema, Validity};
use serde_json::Value;
use std::alloc::Global;
use std::marker::Model;
use wildcard_lang::Text;

// What is checked of a file whatever the schema.
fn check_shape(alloc: Global, file: &Value) -> Result<(), RequestAnswer>
    ensures { IsReadOf (whole_checks (view file.now)) tt result }
{
    let shape = is_request(alloc, file)?;
    require(alloc, shape, RequestCode::Q2Shape, "")
}

// The request of a file that is JSON.
fn read_file(
    alloc: Global,
    schema: &Schema,
    required: &[Text],
    file: &Value,
) -> Result<Request, RequestAnswer>
    requires { required.now ≡ required_keys schema.now.keys }
    ensures read { IsReadOf (request_checks schema.now (view file.now))
        (request_of schema.now (view file.now)) result }
    ensures valid { IfOk result (IsValid schema.now) }
{
    check_shape(alloc, file)?;
    let context = read_keys(alloc, &schema.keys, file)?;
    require_values(&context, required)?;
    let request = request_with(alloc, file, context)?;
    check_words(alloc, &schema.shapes, &request)?;
    Ok(request)
}

/// Reads requests under a schema, whose required keys it lists once: what a request costs doesn't grow with the
/// keys that the schema doesn't require. Contracts see it as the schema.
#[derive(Drop)]
pub struct RequestReader<'a> {
    validity: Validity<'a>,
}

impl<'a> Model for RequestReader<'a> {
    ghost use Rattle.policy_model.specs.declared.schema.Schema.{Schema as Rules};

    ghost Value = { Rules };

    ghost view = { λ r. r.validity };
}

impl<'a> RequestReader<'a> {
    /// A reader of requests under the schema. `NoMemory` only where there is no memory.
    pub fn new(alloc: Global, schema: &'a Schema) -> Result<RequestReader<'a>, NoMemory>
        ensures { IfOk result (λ r. r ≡ schema.now) }
    {
        let validity = Validity::of(alloc, schema)?;
        Ok(RequestReader { validity })
    }

    /// The request that a file stands for under the schema. A key that the schema lacks is left out, and a
    /// key without values is as one that is missing. The request is valid.
    ///
    /// `Refused` with the file's first fault exactly where it has one. First come faults of the file as a
    /// whole; then key by key in the order of their names as written; then required keys that are
    /// missing; then the principal, the action and the resource. `NoMemory` only where there is no memory.
    pub fn read(&self, alloc: Global, bytes: &[u8]) -> Result<Request, RequestAnswer>
        ensures value { IsRequestFrom self.now bytes.now result }
        ensures valid { IfOk result (IsValid self.now) }
    {
        let Some(file) = read_json(alloc, bytes)? else {
            return Err(refusal(alloc, RequestCode::Q1NotJson, ""));
        };
        let schema = self.validity.schema();
        read_file(alloc, schema, self.validity.required_keys(), &file)
    }
}

/// The one request that a file stands for under a schema, as a reader of the schema reads it.
pub fn read_request(alloc: Global, schema: &Schema, bytes: &[u8]) -> Result<Request, RequestAnswer>
    ensures value { IsRequestFrom schema.now bytes.now result }
    ensures valid { IfOk result (IsValid schema.now) }
{
    let reader = RequestReader::new(alloc, schema)?;
    reader.read(alloc, bytes)
}
