//! Schemas with one shape, and schemas with two keys.
ghost use Rattle.std.specs.Prelude.{IfOk, OnOk};
ghost use Rattle.policy_model.specs.Soundness.{SchemaIsSound, WordShapeIsSound};

use crate::keys::rule_of;
use policy_model::{KeyRules, Schema, Shapes};
use std::alloc::Global;
use std::io;
use std::io::ErrorKind;
use wildcard_lang::{Pattern, Text, read_glob};

// A shape of words, which isn't the empty pattern.
fn shape_of(alloc: Global, text: &str) -> io::Result<Option<Pattern>>
    ensures { IfOk result WordShapeIsSound }
{
    if text == "-" {
        return Ok(None);
    }
    let Ok(pattern) = read_glob(alloc, text, false, false) else {
        return Err(ErrorKind::InvalidData.into());
    };
    if pattern.len() == 0 {
        return Err(ErrorKind::InvalidData.into());
    }
    Ok(Some(pattern))
}

/// The schema that gives this shape to actions and to the ids of `AWS` principals.
pub(crate) fn schema_of(alloc: Global, text: &str) -> io::Result<Schema>
    ensures { IfOk result SchemaIsSound }
{
    let action = shape_of(alloc, text)?;
    let aws = shape_of(alloc, text)?;
    Ok(Schema {
        version: 2,
        keys: KeyRules::new(alloc),
        shapes: Shapes {
            action,
            resource: None,
            aws,
            service: None,
            federated: None,
            canonical_user: None,
        },
    })
}

// Adds a key with the rule of three words to the schema.
fn add_key(alloc: Global, schema: &mut Schema, name: &str, rule: [&str; 3]) -> io::Result<()>
    requires { SchemaIsSound schema.old }
    ensures { OnOk result (SchemaIsSound schema.new) }
{
    let key = Text::of(alloc, name)?.folded()?;
    let rule = rule_of(alloc, rule)?;
    schema.insert(key, rule)?;
    Ok(())
}

fn add_keys(alloc: Global, schema: &mut Schema, rule: [&str; 3]) -> io::Result<()>
    requires { SchemaIsSound schema.old }
    ensures { OnOk result (SchemaIsSound schema.new) }
{
    add_key(alloc, schema, "k", rule)?;
    add_key(alloc, schema, "j", ["text", "-", "-"])
}

/// The schema of which the key `k` has the rule of three words, and `j` is a text key with at most one
/// value.
pub(crate) fn key_schema_of(alloc: Global, rule: [&str; 3]) -> io::Result<Schema>
    ensures { IfOk result SchemaIsSound }
{
    let mut schema = Schema::new(alloc);
    add_keys(alloc, &mut schema, rule)?;
    Ok(schema)
}
