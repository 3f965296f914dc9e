//! The first faults of sets.
use crate::texts::quoted;
use policy_json::{PolicyAnswer, PolicyFault, read_set};
use std::alloc::{AllocError, Global};

fn fault_line(alloc: Global, fault: &PolicyFault) -> Result<String, AllocError> {
    let code = fault.code;
    let document = fault.document;
    let statement = fault.statement;
    let element = quoted(alloc, &fault.element)?;
    format!(in alloc; "{code:?} {document} {statement} {element}")
}

/// The first fault of a file as a set: its code, the numbers of its document and its statement, and its
/// element; or `none`.
pub(crate) fn set_answer(alloc: Global, file: &str) -> Result<String, AllocError> {
    match read_set(alloc, file.as_bytes()) {
        Ok(_) => String::from_str(alloc, "none"),
        Err(PolicyAnswer::Refused(fault)) => fault_line(alloc, &fault),
        Err(PolicyAnswer::NoMemory) => Err(AllocError),
    }
}
