//! One slot of a request at a time: a value that answers the slot's tests as a path does, or a proof
//! that there is none.
#![tactic(auto)]

mod acceptance;
mod attempt;
mod bounds;
mod check;
mod cores;
mod cutting;
mod entries;
mod keys;
mod kinds;
mod outcome;
mod question;
mod search;
mod slots;
mod steps;
mod together;
mod trial;
mod unasked;
mod wants;

pub use acceptance::{accepted_cores_are_impossible, accepts_by_the_core_alone};
pub use check::accepts;
pub use outcome::{Core, KindProof, Possible, SlotProof, SlotValue};
pub use search::possible;
pub use slots::{is_on, meets, slot_of};
pub use unasked::{sample, stated_value, stated_values};
