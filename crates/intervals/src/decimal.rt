//! Decimals read from text.
ghost use Rattle.std.specs.Prelude.{◌≡◌, ◌<◌, ℤ, IfSome, IfOk, OnErr};
ghost use Rattle.std.specs.Result.{result_ok};
ghost use Rattle.intervals.specs.declared.units.TheConstants.{SIZE_LIMIT, UNITS};
ghost use Rattle.intervals.specs.Decimals.{WritesDecimal};
ghost use Rattle.intervals.specs.DecimalTexts.{has_sign, after_sign, size_of, tail_of, decimal_of};

use crate::digits::{digit_run, fraction, number};
use crate::scaled::{BadNumber, Scaled};
use crate::units::UNITS;

/// The number that the text stands for. `BadNumber` exactly where the text isn't of the decimal form:
/// an optional `-`, one to eighteen digits, and optionally a point with one to nine digits. It takes
/// no memory.
pub fn read_decimal(text: &str) -> Result<Scaled, BadNumber>
    ensures stands_for { IfOk result (λ number. WritesDecimal text.now number) }
    ensures refused { OnErr result ((units : ℤ) → ¬ WritesDecimal text.now units) }
    ensures value { result_ok result ≡ decimal_of text.now }
{
    match signed(text.as_bytes()) {
        Some(number) => Ok(number),
        None => Err(BadNumber),
    }
}

fn signed(text: &[u8]) -> Option<Scaled>
    ensures { result ≡ decimal_of text.now }
{
    let (negative, unsigned) = split_sign(text);
    let size = size(unsigned)?;
    Some(Scaled::of_size(size, negative))
}

// Whether the text begins with the sign, and what stands behind it.
fn split_sign(text: &[u8]) -> (bool, &[u8])
    ensures sign { result.0 ≡ has_sign text.now }
    ensures rest { result.1.now ≡ after_sign text.now }
{
    match text {
        [b'-', rest @ ..] => (true, rest),
        _ => (false, text),
    }
}

// The units of a text without a sign.
#[tactic(auto, unfolding(crate::specs::DecimalTexts::size_of))]
fn size(text: &[u8]) -> Option<u128>
    ensures value { result ≡ size_of text.now }
    ensures small { IfSome result (λ n. n < SIZE_LIMIT) }
{
    let (digits, rest) = text.split_at(digit_run(text));
    let whole = number(digits, 18)?;
    let units = tail(rest)?;
    Some(u128::from(whole) * u128::from(UNITS) + u128::from(units))
}

// The units of what stands behind the whole digits.
fn tail(text: &[u8]) -> Option<u64>
    ensures value { result ≡ tail_of text.now }
    ensures small { IfSome result (λ n. n < UNITS) }
{
    match text {
        [] => Some(0),
        [b'.', digits @ ..] => fraction(digits),
        _ => None,
    }
}
