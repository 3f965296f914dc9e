//! The unit in which numbers and moments are counted, and how many there may be.
ghost use Rattle.intervals.specs.Limits.{SizesOfNumbers, TimesInUnits};

/// How many units a whole number has, and a second: one is 10^-9.
pub const UNITS: u64 = 1_000_000_000;

/// The units of a minute.
pub(crate) const UNITS_OF_MINUTE: u64 = 60 * UNITS;

/// The units of a day.
pub(crate) const UNITS_OF_DAY: u64 = 24 * 60 * UNITS_OF_MINUTE;

/// 10^18, which a whole number is less than in size.
pub(crate) const WHOLE_LIMIT: u128 = 1_000_000_000_000_000_000;

/// 10^27, which a number of units is less than in size.
pub(crate) const SIZE_LIMIT: u128 = WHOLE_LIMIT * UNITS as u128;

/// The constants of units as plain numbers: a law without a body.
pub fn units_are_plain_numbers()
    ensures times { TimesInUnits }
    ensures sizes { SizesOfNumbers }
{}
