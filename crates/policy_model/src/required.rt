//! Which of many requests are valid under a schema.
ghost use Rattle.std.specs.Prelude.{◌≡◌, ◌↔◌, All, IfOk, IsTrue};
ghost use Rattle.policy_model.specs.Requests.{HasValue, IsValid, KeysAreValid};
ghost use Rattle.policy_model.specs.RequiredKeys.{required_keys};

use crate::context::Context;
use crate::request::Request;
use crate::schema::{KeyRules, Schema};
use crate::validity::{entries_are_valid, has_value, words_are_valid};
use plain_lists::{EqualClone, List, NoMemory};
use std::alloc::Global;
use std::marker::Model;
use wildcard_lang::Text;

/// A schema, whose required keys are listed once: what a request costs doesn't grow with the keys that the
/// schema doesn't require. Contracts see it as the schema.
#[derive(Drop)]
pub struct Validity<'a> {
    schema: &'a Schema,
    required: List<Text>,
}

impl<'a> Model for Validity<'a> {
    ghost use Rattle.std.specs.Prelude.{◌≡◌};
    ghost use Rattle.policy_model.specs.declared.schema.Schema.{Schema as Rules};
    ghost use Rattle.policy_model.specs.RequiredKeys.{required_keys};

    ghost Value = { Rules };

    ghost view = { λ v. v.schema.now };

    ghost invariant = { λ v. v.required ≡ required_keys v.schema.now.keys };
}

fn required_keys(alloc: Global, schema: &Schema) -> Result<List<Text>, NoMemory>
    ensures { IfOk result (λ names. names ≡ required_keys schema.now.keys) }
{
    let mut names = List::new(alloc);
    for (key, rule) in schema.iter() {
        if rule.required {
            names.push(key.copy()?)?;
        }
    }
    Ok(names)
}

fn has_values(context: &Context, names: &[Text]) -> bool
    ensures { IsTrue result ↔ All (HasValue context.now) names.now }
{
    'names: for name in names {
        if !has_value(context, name) {
            return false;
        }
    }
    true
}

// Whether the keys are valid, where these are the names of those that are required.
fn keys_are_valid_by(keys: &KeyRules, required: &[Text], context: &Context) -> bool
    requires { required.now ≡ required_keys keys.now }
    ensures { IsTrue result ↔ KeysAreValid keys.now context.now }
{
    if !has_values(context, required) {
        return false;
    }
    entries_are_valid(keys, context)
}

impl<'a> Validity<'a> {
    /// The schema, with its required keys listed. `NoMemory` only where there is no memory.
    pub fn of(alloc: Global, schema: &'a Schema) -> Result<Validity<'a>, NoMemory>
        ensures { IfOk result (λ validity. validity ≡ schema.now) }
    {
        let required = required_keys(alloc, schema)?;
        Ok(Validity { schema, required })
    }

    /// The schema.
    pub fn schema(&self) -> &'a Schema
        ensures { result.now ≡ self.now }
    {
        self.schema
    }

    /// The names of the keys that the schema requires, in the order of its keys.
    pub fn required_keys(&self) -> &[Text]
        ensures { result.now ≡ required_keys self.now.keys }
    {
        self.required.as_slice()
    }

    /// Whether the request is valid under the schema. It takes no memory.
    pub fn holds(&self, request: &Request) -> bool
        ensures { IsTrue result ↔ IsValid self.now request.now }
    {
        words_are_valid(&self.schema.shapes, request)
            && keys_are_valid_by(
                &self.schema.keys,
                self.required.as_slice(),
                &request.context,
            )
    }
}
