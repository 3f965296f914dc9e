//! Requests as JSON: they are written, and read again.
#![tactic(auto)]

mod fault;
mod keys;
mod read;
mod required;
mod round_trip;
mod shape;
mod words;
mod write;

pub use fault::{RequestAnswer, RequestCode, RequestFault};
pub use plain_lists::NoMemory;
pub use read::{RequestReader, read_request};
pub use round_trip::written_requests_are_read_again;
pub use write::write_request;
