//! Moments read from text.
ghost use Rattle.std.specs.Prelude.{◌≡◌, ℤ, IfOk, OnErr};
ghost use Rattle.std.specs.Result.{result_ok};
ghost use Rattle.intervals.specs.Moments.{WritesMoment};
ghost use Rattle.intervals.specs.MomentTexts.{moment_of};

use crate::civil::civil;
use crate::digits::number;
use crate::scaled::{Scaled, from_whole};

/// The answer where a text is no moment.
#[derive(Clone, Copy, Drop)]
pub struct BadDate;

/// The moment that the text stands for, in units of 10^-9 s since 1970-01-01T00:00:00Z. `BadDate`
/// exactly where the text has none of these forms:
///
/// - one to eighteen digits, which are seconds;
/// - `YYYY-MM` or `YYYY-MM-DD`;
/// - `YYYY-MM-DDThh:mm`; then optionally `:ss`, and behind that optionally a point and one to nine digits;
///   and then `Z` or an offset `+hh:mm` or `-hh:mm`.
///
/// It takes no memory.
pub fn read_moment(text: &str) -> Result<Scaled, BadDate>
    ensures stands_for { IfOk result (λ moment. WritesMoment text.now moment) }
    ensures refused { OnErr result ((units : ℤ) → ¬ WritesMoment text.now units) }
    ensures value { result_ok result ≡ moment_of text.now }
{
    match moment(text.as_bytes()) {
        Some(moment) => Ok(moment),
        None => Err(BadDate),
    }
}

#[tactic(auto, unfolding(crate::specs::MomentTexts::moment_of))]
fn moment(text: &[u8]) -> Option<Scaled>
    ensures { result ≡ moment_of text.now }
{
    match number(text, 18) {
        Some(seconds) => from_whole(i128::from(seconds)).ok(),
        None => Scaled::from_units(civil(text)?).ok(),
    }
}
