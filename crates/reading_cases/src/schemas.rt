//! Schemas of files, and their first faults.
use crate::texts::quoted;
use policy_model::Schema;
use request_schema::{SchemaAnswer, SchemaFault, built_in, read_schema};
use std::alloc::{AllocError, Global};

fn fault_line(alloc: Global, fault: &SchemaFault) -> Result<String, AllocError> {
    let code = fault.code;
    let element = quoted(alloc, &fault.element)?;
    format!(in alloc; "{code:?} {element}")
}

/// The first fault of a schema file: its code and its element; or `none`.
pub(crate) fn schema_answer(alloc: Global, file: &str) -> Result<String, AllocError> {
    match read_schema(alloc, file.as_bytes()) {
        Ok(_) => String::from_str(alloc, "none"),
        Err(SchemaAnswer::Refused(fault)) => fault_line(alloc, &fault),
        Err(SchemaAnswer::NoMemory) => Err(AllocError),
    }
}

/// The schema of a file, or none where it is refused. An empty file stands for the built-in keys alone.
pub(crate) fn named_schema(alloc: Global, file: &str) -> Result<Option<Schema>, AllocError> {
    if file.is_empty() {
        return Ok(Some(built_in(alloc)?));
    }
    match read_schema(alloc, file.as_bytes()) {
        Ok(schema) => Ok(Some(schema)),
        Err(SchemaAnswer::Refused(_)) => Ok(None),
        Err(SchemaAnswer::NoMemory) => Err(AllocError),
    }
}
