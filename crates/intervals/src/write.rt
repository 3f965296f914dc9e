//! Decimals written as text.
ghost use Rattle.std.specs.Prelude.{◌≡◌, ◌<◌, ◌+◌, ◌-◌, ◌*◌, ◌/◌, ◌^◌, ◌++◌, IfOk, OnOk, string_bytes};
ghost use Rattle.intervals.specs.declared.units.TheConstants.{UNITS};
ghost use Rattle.intervals.specs.Decimals.{WritesDecimal};
ghost use Rattle.intervals.specs.DecimalTexts.{fraction_text, fraction_digits, sign_text, written_decimal};

use crate::scaled::Scaled;
use crate::units::UNITS;
use plain_lists::NoMemory;
use std::alloc::Global;

/// The text of the number: `-` in front of a negative one, digits without leading zeros, and where the
/// fraction isn't zero a point and its digits without last zeros. Zero is `0`.
pub fn write_decimal(alloc: Global, value: Scaled) -> Result<String, NoMemory>
    ensures value { IfOk result (λ text. string_bytes text ≡ written_decimal value) }
    ensures read_again { IfOk result (λ text. WritesDecimal (string_bytes text) value) }
{
    let size = value.units().unsigned_abs();
    let sign = sign(value);
    let whole = size / u128::from(UNITS);
    let mut text = format!(in alloc; "{sign}{whole}")?;
    push_fraction(&mut text, (size % u128::from(UNITS)) as u32)?;
    Ok(text)
}

fn sign(value: Scaled) -> &'static str
    ensures { result.now ≡ sign_text value }
{
    if value.units() < 0 { "-" } else { "" }
}

// Adds a point and the digits of a fraction that isn't zero.
fn push_fraction(text: &mut String, units: u32) -> Result<(), NoMemory>
    requires { units < UNITS }
    ensures { OnOk result (string_bytes text.new ≡ string_bytes text.old ++ fraction_text units) }
{
    if units == 0 {
        return Ok(());
    }
    text.push('.')?;
    let mut rest = units;
    for done in 0..9 {
        if rest == 0 {
            break;
        }
        let worth = digit_worth(done);
        text.push(digit(rest, worth))?;
        rest %= worth;
    }
    Ok(())
}

// What a digit behind the point is worth in units, where this many stand before it: the last of nine
// is worth one.
fn digit_worth(before: u32) -> u32
    requires { before < 9 }
    ensures value { result ≡ 10 ^ (8 - before) }
    ensures positive { 0 < result }
{
    10u32.pow(8 - before)
}

fn digit(units: u32, worth: u32) -> char
    requires positive { 0 < worth }
    requires below { units < worth * 10 }
    ensures value { result ≡ 48 + units / worth }
    ensures ascii { result < 58 }
{
    char::from(b'0' + (units / worth) as u8)
}
