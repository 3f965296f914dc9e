//! The time of day in a moment's text.
ghost use Rattle.std.specs.Prelude.{◌≡◌, ◌<◌, IfSome, pos, ◌-ℤ◌, ◌*ℤ◌, unsigned_abs};
ghost use Rattle.intervals.specs.declared.units.TheConstants.{UNITS_OF_MINUTE};
ghost use Rattle.intervals.specs.Moments.{units_of_minute};
ghost use Rattle.intervals.specs.MomentTexts.{read_view, fraction_after, after_second, second_of, seconds_of, whole_clock, offset_of, time_of};

use crate::digits::{digit_run, fraction};
use crate::fields::{clock, two_digits};
use crate::units::{UNITS, UNITS_OF_MINUTE};

/// The units of a time of day, with its mark and its offset, since the day's first instant in UTC.
#[tactic(auto, unfolding(crate::specs::MomentTexts::time_of))]
pub(crate) fn time(text: &[u8]) -> Option<i128>
    ensures value { result ≡ time_of text.now }
    ensures small { IfSome result (λ units. unsigned_abs units < 1_000_000_000_000_000) }
{
    let (minutes, text) = clock(text, b'T')?;
    let (within, text) = seconds(text)?;
    let ahead = offset(text)?;
    Some(offset_taken_off(u64::from(minutes) * UNITS_OF_MINUTE + within, ahead))
}

// A local time of day in units, less the minutes that it is ahead of UTC.
fn offset_taken_off(local: u64, ahead: i32) -> i128
    requires local_in { local < 100_000_000_000_000 }
    requires ahead_in { unsigned_abs ahead < 1440 }
    ensures value { result ≡ pos local -ℤ (ahead *ℤ pos units_of_minute) }
    ensures small { unsigned_abs result < 1_000_000_000_000_000 }
{
    i128::from(local) - i128::from(ahead) * i128::from(UNITS_OF_MINUTE)
}

// The units of what may stand behind the minutes: a second, and digits behind its point.
#[tactic(auto, unfolding(crate::specs::MomentTexts::seconds_of))]
fn seconds(text: &[u8]) -> Option<(u64, &[u8])>
    ensures value { read_view result ≡ seconds_of text.now }
    ensures small { IfSome result (λ p. p.0 < UNITS_OF_MINUTE) }
{
    match text {
        [b':', rest @ ..] => {
            let (second, rest) = two_digits(rest)?;
            if second >= 60 {
                return None;
            }
            behind_second(second, rest)
        }
        _ => Some((0, text)),
    }
}

fn behind_second(second: u8, text: &[u8]) -> Option<(u64, &[u8])>
    requires { second < 60 }
    ensures value { read_view result ≡ after_second second text.now }
    ensures small { IfSome result (λ p. p.0 < UNITS_OF_MINUTE) }
{
    let units = u64::from(second) * UNITS;
    match text {
        [b'.', rest @ ..] => {
            let (digits, rest) = rest.split_at(digit_run(rest));
            Some((units + fraction(digits)?, rest))
        }
        _ => Some((units, text)),
    }
}

// The minutes that the local time is ahead of UTC: none for `Z`.
#[tactic(auto, unfolding(crate::specs::MomentTexts::offset_of))]
fn offset(text: &[u8]) -> Option<i32>
    ensures value { result ≡ offset_of text.now }
    ensures small { IfSome result (λ ahead. unsigned_abs ahead < 1440) }
{
    match text {
        [b'Z'] => Some(0),
        [b'-', ..] => Some(-(whole_clock(text, b'-')? as i32)),
        _ => Some(whole_clock(text, b'+')? as i32),
    }
}

// A clock that nothing stands behind.
fn whole_clock(text: &[u8], mark: u8) -> Option<u32>
    ensures value { result ≡ whole_clock mark text.now }
    ensures small { IfSome result (λ minutes. minutes < 1440) }
{
    match clock(text, mark)? {
        (minutes, []) => Some(minutes),
        _ => None,
    }
}
