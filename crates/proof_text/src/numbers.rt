//! Numbers in the lines of a certificate: decimal digits without zeros in front.
ghost use Rattle.std.specs.Prelude.{◌≡◌, ◌<◌, ◌≤◌, true, nat_lt, MatchOption, decimal};
ghost use Rattle.std.specs.List.{list_all};
ghost use Rattle.std.specs.Option.{option_copied};
ghost use Rattle.std.specs.Str.{all_ascii_digits};
ghost use Rattle.std.specs.Str.Parse.{digits_value};
ghost use Rattle.pattern_automata.specs.Closed.{rises_from};
ghost use Rattle.proof_text.specs.LineForms.{is_number, number_said, numbers_of, one_number, some_numbers};
ghost use Rattle.proof_text.specs.Reads.{IsNoDecimal};
ghost use Rattle.proof_text.specs.Steps.{IsSmallRead, are_small, is_small, parts_left};

use crate::fault::{LineAnswer, ProofCode};
use crate::limits::MOST_NUMBER;
use crate::parts::cut;
use plain_lists::List;
use std::alloc::Global;

fn all_digits(part: &[u8]) -> bool
    ensures { result ≡ all_ascii_digits part.now }
{
    for b in part {
        if !b.is_ascii_digit() {
            return false;
        }
    }
    true
}

// Whether the part is decimal digits, at least one, without zeros in front.
fn is_number(part: &[u8]) -> bool
    ensures { result ≡ is_number part.now }
{
    if part.is_empty() {
        return false;
    }
    if part.len() > 1 && part[0] == b'0' {
        return false;
    }
    all_digits(part)
}

// The number of digits, or none where it is above the greatest. It may stop at the first digit at which it is, since
// more digits make it no smaller.
fn value_of(digits: &[u8]) -> Option<u32>
    requires { all_ascii_digits digits.now ≡ true }
    ensures { MatchOption result (MOST_NUMBER < digits_value 10 digits.now)
        (λ n. (n ≡ digits_value 10 digits.now) × (n ≤ MOST_NUMBER)) }
{
    let mut value: u64 = 0;
    for digit in digits {
        value = value * 10 + u64::from(*digit - b'0');
        if value > u64::from(MOST_NUMBER) {
            return None;
        }
    }
    Some(value as u32)
}

/// The number whose decimal digits the text is, without zeros in front; none where it is that of no number up
/// to 4,294,967,295.
pub fn decimal_in(text: &[u8]) -> Option<u32>
    ensures { MatchOption result (IsNoDecimal text.now) (λ n. text.now ≡ decimal n) }
{
    if !is_number(text) {
        return None;
    }
    value_of(text)
}

/// The number that the part is, or none where it is too large.
pub(crate) fn number_in(part: &[u8]) -> Result<Option<u32>, LineAnswer>
    ensures { IsSmallRead is_small (number_said part.now) result }
{
    if !is_number(part) {
        return Err(LineAnswer::Fails(ProofCode::C1Syntax));
    }
    Ok(value_of(part))
}

/// The one number behind a word, or none where it is too large.
pub(crate) fn one_number(behind: Option<&[u8]>) -> Result<Option<u32>, LineAnswer>
    ensures { IsSmallRead is_small
        (one_number (parts_left 32 (option_copied behind.entry))) result }
{
    let Some(text) = behind else {
        return Err(LineAnswer::Fails(ProofCode::C1Syntax));
    };
    let (part, more) = cut(text, b' ');
    if more.is_some() {
        return Err(LineAnswer::Fails(ProofCode::C1Syntax));
    }
    number_in(part)
}

/// The numbers that all parts are, or none where one is too large.
pub(crate) fn numbers_in(
    alloc: Global,
    behind: Option<&[u8]>,
    between: u8,
) -> Result<Option<List<u32>>, LineAnswer>
    ensures { IsSmallRead are_small
        (numbers_of (parts_left between (option_copied behind.entry))) result }
{
    let mut numbers = List::new(alloc);
    let mut large = false;
    let mut rest = behind;
    while let Some(text) = rest {
        let (part, more) = cut(text, between);
        match number_in(part)? {
            Some(number) => numbers.push(number)?,
            None => large = true,
        }
        rest = more;
    }
    if large {
        return Ok(None);
    }
    Ok(Some(numbers))
}

/// The numbers behind a word, at least one, or none where one is too large.
pub(crate) fn some_numbers(
    alloc: Global,
    behind: Option<&[u8]>,
) -> Result<Option<List<u32>>, LineAnswer>
    ensures { IsSmallRead are_small
        (some_numbers (parts_left 32 (option_copied behind.entry))) result }
{
    let Some(text) = behind else {
        return Err(LineAnswer::Fails(ProofCode::C1Syntax));
    };
    numbers_in(alloc, Some(text), b' ')
}

/// Whether the numbers strictly rise.
pub(crate) fn rises(numbers: &[u32]) -> bool
    ensures { result ≡ rises_from 0 numbers.now }
{
    let mut least: u64 = 0;
    for number in numbers {
        if u64::from(*number) < least {
            return false;
        }
        least = u64::from(*number) + 1;
    }
    true
}

/// Whether all of the numbers are less than the count.
pub(crate) fn are_below(numbers: &[u32], count: u32) -> bool
    ensures { result ≡ list_all (λ n. nat_lt n count) numbers.now }
{
    for number in numbers {
        if *number >= count {
            return false;
        }
    }
    true
}
