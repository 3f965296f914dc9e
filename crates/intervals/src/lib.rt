//! Numbers of condition values: decimals and moments, as whole numbers of 10^-9.
#![tactic(auto)]

mod civil;
mod clock;
mod compare;
mod decimal;
mod digits;
mod fields;
mod meanings;
mod moment;
mod scaled;
mod units;
mod write;

pub use compare::{Compare, satisfies};
pub use decimal::read_decimal;
pub use meanings::{
    decimal_of_is_the_form, moment_of_is_the_forms, stands_to_is_computed, written_is_read_again,
};
pub use moment::{BadDate, read_moment};
use plain_lists::List;
pub use plain_lists::NoMemory;
pub use scaled::{BadNumber, Scaled, from_whole};
pub use units::{UNITS, units_are_plain_numbers};
pub use write::write_decimal;

/// A list of bytes, as a binary value has.
pub type ByteList = List<u8>;
