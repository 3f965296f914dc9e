//! The set of a condition, and what evaluation says of it.
ghost use Rattle.std.specs.Prelude.{IfOk};
ghost use Rattle.policy_model.specs.Soundness.{IsSound, SchemaFits};

use crate::asked::KEY;
use crate::definition::Case;
use crate::row::part_of;
use policy_eval::allows;
use policy_json::{PolicyAnswer, read_set};
use policy_model::{PolicySet, Request, Schema, valid};
use request_schema::{InferAnswer, infer};
use std::alloc::{AllocError, Global};
use std::io;
use std::io::ErrorKind;

fn push_operands(text: &mut String, case: &Case) -> Result<(), AllocError> {
    for (i, operand) in case.operands.iter().enumerate() {
        let before = if i == 0 { "[" } else { "," };
        text.push_str(before)?;
        text.push_str(part_of(case.row.operands, *operand))?;
    }
    text.push_str(if case.operands.is_empty() { "[]" } else { "]" })
}

/// The list of the condition's operands, as JSON.
pub(crate) fn operands_text(alloc: Global, case: &Case) -> Result<String, AllocError> {
    let mut text = String::new(alloc);
    push_operands(&mut text, case)?;
    Ok(text)
}

/// What stands before the operator in a file.
const HEAD: &str =
    "{\"Version\":\"2012-10-17\",\"Statement\":{\"Effect\":\"Allow\",\"Action\":\"*\",\"Condition\":{\"";

// A file that allows all requests of which the condition holds.
fn file_of(alloc: Global, case: &Case) -> Result<String, AllocError> {
    let operands = operands_text(alloc, case)?;
    let (prefix, base, suffix) = (case.prefix, case.row.base, case.suffix);
    format!(in alloc; "{HEAD}{prefix}{base}{suffix}\":{{\"{KEY}\":{operands}}}}}}}}}")
}

/// The set of a file.
pub(crate) fn set_read(alloc: Global, file: &str) -> io::Result<PolicySet>
    ensures { IfOk result IsSound }
{
    match read_set(alloc, file.as_bytes()) {
        Ok(set) => Ok(set),
        Err(PolicyAnswer::Refused(_)) => Err(ErrorKind::InvalidData.into()),
        Err(PolicyAnswer::NoMemory) => Err(ErrorKind::OutOfMemory.into()),
    }
}

/// The set that allows all requests of which the condition holds.
pub(crate) fn set_of(alloc: Global, case: &Case) -> io::Result<PolicySet>
    ensures { IfOk result IsSound }
{
    let file = file_of(alloc, case)?;
    set_read(alloc, file.as_str())
}

/// The schema of a run on the set, where it is the named one.
pub(crate) fn schema_of(alloc: Global, named: &Schema, set: &PolicySet) -> io::Result<Schema>
    requires { IsSound set.now }
    ensures { IfOk result (λ schema. SchemaFits schema set.now) }
{
    match infer(alloc, named, set, None) {
        Ok(schema) => Ok(schema),
        Err(InferAnswer::Refused(_)) => Err(ErrorKind::InvalidData.into()),
        Err(InferAnswer::NoMemory) => Err(ErrorKind::OutOfMemory.into()),
    }
}

/// Whether evaluation allows the request, which has to be valid.
pub(crate) fn evaluated(schema: &Schema, set: &PolicySet, request: &Request) -> io::Result<bool>
    requires { SchemaFits schema.now set.now }
{
    if valid(schema, request) {
        Ok(allows(set, schema, request))
    } else {
        Err(ErrorKind::InvalidData.into())
    }
}
