//! A valid request from one value for each slot that tests are on.
#![tactic(auto)]

mod context;
mod existence;
mod request;

pub use existence::sound_schemas_have_requests;
pub use request::{SlotValues, build};
