//! Keys that are inferred from two sets.
ghost use Rattle.std.specs.Prelude.{IfOk, IfSome};
ghost use Rattle.policy_model.specs.Soundness.{IsSound};

use crate::schemas::named_schema;
use crate::texts::quoted;
use policy_json::{PolicyAnswer, read_set};
use policy_model::{KeyRule, Kind, PolicySet, Schema};
use request_schema::{InferAnswer, InferFault, infer};
use std::alloc::{AllocError, Global};
use wildcard_lang::Text;

fn kind_word(kind: Kind) -> &'static str {
    match kind {
        Kind::Text => "text",
        Kind::Truth => "truth",
        Kind::Number => "number",
        Kind::Address => "address",
        Kind::Bytes => "bytes",
    }
}

fn push_key(out: &mut String, key: &Text, rule: &KeyRule) -> Result<(), AllocError> {
    let key = key.to_utf8()?;
    let kind = kind_word(rule.kind);
    let several = if rule.many { " several" } else { "" };
    write!(out, "; {key} {kind}{several}")
}

fn push_keys(out: &mut String, named: &Schema, schema: &Schema) -> Result<(), AllocError> {
    out.push_str("keys")?;
    for (key, rule) in schema.iter() {
        if named.get(key).is_none() {
            push_key(out, key, rule)?;
        }
    }
    Ok(())
}

/// The keys that the named schema lacks.
fn keys_line(alloc: Global, named: &Schema, schema: &Schema) -> Result<String, AllocError> {
    let mut out = String::new(alloc);
    push_keys(&mut out, named, schema)?;
    Ok(out)
}

fn fault_line(alloc: Global, fault: &InferFault) -> Result<String, AllocError> {
    let role = if fault.second { "second" } else { "first" };
    let code = if fault.plural {
        "PluralKey"
    } else {
        "KindClash"
    };
    let name = fault.name;
    let document = name.document;
    let statement = name.statement;
    let key = quoted(alloc, &fault.key)?;
    format!(in alloc; "{role} {code} {document} {statement} {key}")
}

/// The set of a file, or none where it is refused.
fn set_of(alloc: Global, file: &str) -> Result<Option<PolicySet>, AllocError>
    ensures { IfOk result (λ set. IfSome set IsSound) }
{
    match read_set(alloc, file.as_bytes()) {
        Ok(set) => Ok(Some(set)),
        Err(PolicyAnswer::Refused(_)) => Ok(None),
        Err(PolicyAnswer::NoMemory) => Err(AllocError),
    }
}

fn inferred(
    alloc: Global,
    named: &Schema,
    first: &PolicySet,
    second: &PolicySet,
) -> Result<String, AllocError>
    requires first { IsSound first.now }
    requires second { IsSound second.now }
{
    match infer(alloc, named, first, Some(second)) {
        Ok(schema) => keys_line(alloc, named, &schema),
        Err(InferAnswer::Refused(fault)) => fault_line(alloc, &fault),
        Err(InferAnswer::NoMemory) => Err(AllocError),
    }
}

fn answer_of(
    alloc: Global,
    named: &Schema,
    first: &PolicySet,
    second: &str,
) -> Result<String, AllocError>
    requires { IsSound first.now }
{
    match set_of(alloc, second)? {
        Some(second) => inferred(alloc, named, first, &second),
        None => String::from_str(alloc, "no second set"),
    }
}

fn answer_under(
    alloc: Global,
    named: &Schema,
    first: &str,
    second: &str,
) -> Result<String, AllocError> {
    match set_of(alloc, first)? {
        Some(first) => answer_of(alloc, named, &first, second),
        None => String::from_str(alloc, "no first set"),
    }
}

/// What is inferred from two sets under a schema file, the three files with tabs between them: the further
/// keys with their kinds, or the first use of a key that is refused.
pub(crate) fn inferred_answer(alloc: Global, files: &str) -> Result<String, AllocError> {
    let Some((first, others)) = files.split_once('\t') else {
        return String::from_str(alloc, "no second set");
    };
    let Some((second, file)) = others.split_once('\t') else {
        return String::from_str(alloc, "no schema");
    };
    match named_schema(alloc, file)? {
        Some(named) => answer_under(alloc, &named, first, second),
        None => String::from_str(alloc, "no schema"),
    }
}
