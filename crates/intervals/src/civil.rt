//! Civil dates in a moment's text.
ghost use Rattle.std.specs.Prelude.{◌≡◌, ◌<◌, IfSome, pos, ◌*ℤ◌, unsigned_abs};
ghost use Rattle.jiff_core.specs.Calendar.{IsEpochDay};
ghost use Rattle.intervals.specs.Moments.{units_of_day};
ghost use Rattle.intervals.specs.MomentTexts.{midnight_of, after_day, after_month, civil_of};

use crate::clock::time;
use crate::fields::{field, four_digits};
use crate::units::UNITS_OF_DAY;
use jiff_core::civil::Date;

/// The units of a text with a date since 1970-01-01T00:00:00Z.
#[tactic(auto, unfolding(crate::specs::MomentTexts::civil_of))]
pub(crate) fn civil(text: &[u8]) -> Option<i128>
    ensures value { result ≡ civil_of text.now }
    ensures small { IfSome result (λ units. unsigned_abs units < 10_000_000_000_000_000_000_000) }
{
    let (year, text) = four_digits(text)?;
    let (month, text) = field(text, b'-')?;
    after_month(year, month, text)
}

// A year and a month and what stands behind them: nothing, or a day and what may stand behind it.
fn after_month(year: u16, month: u8, text: &[u8]) -> Option<i128>
    requires year_in { year < 10_000 }
    requires month_in { month < 100 }
    ensures value { result ≡ after_month year month text.now }
    ensures small { IfSome result (λ units. unsigned_abs units < 10_000_000_000_000_000_000_000) }
{
    match text {
        [] => midnight_of(year, month, 1),
        _ => {
            let (day, rest) = field(text, b'-')?;
            let start = midnight_of(year, month, day)?;
            after_day(start, rest)
        }
    }
}

// The first instant of a day and what stands behind its date: nothing, or a time of day.
fn after_day(start: i128, text: &[u8]) -> Option<i128>
    requires { unsigned_abs start < 1_000_000_000_000_000_000_000 }
    ensures value { result ≡ after_day start text.now }
    ensures small { IfSome result (λ units. unsigned_abs units < 10_000_000_000_000_000_000_000) }
{
    match text {
        [] => Some(start),
        _ => Some(start + time(text)?),
    }
}

// The first instant in UTC of a date, where the calendar has it.
fn midnight_of(year: u16, month: u8, day: u8) -> Option<i128>
    requires year_in { year < 10_000 }
    requires month_in { month < 100 }
    requires day_in { day < 100 }
    ensures value { result ≡ midnight_of year month day }
    ensures small { IfSome result (λ units. unsigned_abs units < 1_000_000_000_000_000_000_000) }
{
    match Date::new(year as i16, month as i8, day as i8) {
        Ok(date) => Some(first_instant(date.to_unix_epoch_day())),
        Err(_) => None,
    }
}

// The first instant of the day with this number.
fn first_instant(day: i32) -> i128
    requires { IsEpochDay day }
    ensures value { result ≡ day *ℤ pos units_of_day }
    ensures small { unsigned_abs result < 1_000_000_000_000_000_000_000 }
{
    i128::from(day) * i128::from(UNITS_OF_DAY)
}
