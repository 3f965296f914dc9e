//! Sets as they were read.
use crate::showing::{push_set, push_text};
use policy_json::{PolicyAnswer, PolicyFault, read_set};
use std::alloc::{AllocError, Global};

fn push_fault(alloc: Global, out: &mut String, fault: &PolicyFault) -> Result<(), AllocError> {
    let code = fault.code;
    let document = fault.document;
    let statement = fault.statement;
    let numbers = format!(in alloc; "{code:?} {document} {statement} ")?;
    out.push_str(numbers.as_str())?;
    push_text(out, &fault.element)
}

fn push_answer(alloc: Global, out: &mut String, file: &str) -> Result<(), AllocError> {
    match read_set(alloc, file.as_bytes()) {
        Ok(set) => push_set(alloc, out, &set),
        Err(PolicyAnswer::Refused(fault)) => push_fault(alloc, out, &fault),
        Err(PolicyAnswer::NoMemory) => Err(AllocError),
    }
}

/// The set that a file stands for, or its first fault.
pub(crate) fn shown_answer(alloc: Global, file: &str) -> Result<String, AllocError> {
    let mut out = String::new(alloc);
    push_answer(alloc, &mut out, file)?;
    Ok(out)
}
