//! The first faults of request files, and requests as they are written.
use crate::schemas::named_schema;
use crate::texts::quoted;
use policy_model::{Request, Schema};
use request_json::{RequestAnswer, RequestFault, read_request, write_request};
use std::alloc::{AllocError, Global};

fn fault_line(alloc: Global, fault: &RequestFault) -> Result<String, AllocError> {
    let code = fault.code;
    let element = quoted(alloc, &fault.element)?;
    format!(in alloc; "{code:?} {element}")
}

// The request of a text, as it is written, or its first fault.
fn written_again(alloc: Global, schema: &Schema, text: &str) -> Result<String, AllocError> {
    match read_request(alloc, schema, text.as_bytes()) {
        Ok(request) => write_request(alloc, &request),
        Err(RequestAnswer::Refused(fault)) => fault_line(alloc, &fault),
        Err(RequestAnswer::NoMemory) => Err(AllocError),
    }
}

// The text of a request, with a word before it where it isn't read again as itself.
fn text_line(alloc: Global, schema: &Schema, text: &str) -> Result<String, AllocError> {
    let again = written_again(alloc, schema, text)?;
    if again.as_str() == text {
        Ok(again)
    } else {
        format!(in alloc; "another: {text}")
    }
}

// The request as it is written.
fn request_line(alloc: Global, schema: &Schema, request: &Request) -> Result<String, AllocError> {
    let text = write_request(alloc, request)?;
    text_line(alloc, schema, text.as_str())
}

fn file_answer(alloc: Global, schema: &Schema, file: &str) -> Result<String, AllocError> {
    match read_request(alloc, schema, file.as_bytes()) {
        Ok(request) => request_line(alloc, schema, &request),
        Err(RequestAnswer::Refused(fault)) => fault_line(alloc, &fault),
        Err(RequestAnswer::NoMemory) => Err(AllocError),
    }
}

/// The first fault of a request file under a schema file, a tab between them: its code and its element; or
/// the request as it is written. A request whose text isn't read again as itself has a word before it.
pub(crate) fn request_answer(alloc: Global, files: &str) -> Result<String, AllocError> {
    let Some((schema, file)) = files.split_once('\t') else {
        return String::from_str(alloc, "no request");
    };
    match named_schema(alloc, schema)? {
        Some(schema) => file_answer(alloc, &schema, file),
        None => String::from_str(alloc, "no schema"),
    }
}
