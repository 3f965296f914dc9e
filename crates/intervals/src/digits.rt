//! Numbers written in decimal digits.
ghost use Rattle.std.specs.Prelude.{◌≡◌, ◌<◌, ◌≤◌, ◌^◌, length, IfSome};
ghost use Rattle.intervals.specs.declared.units.TheConstants.{UNITS};
ghost use Rattle.intervals.specs.Digits.{number_of, digit_run};
ghost use Rattle.intervals.specs.DecimalTexts.{fraction_of};

/// The number that the text writes where it is one to `most` digits, and none otherwise.
pub(crate) fn number(text: &[u8], most: usize) -> Option<u64>
    requires { most ≤ 18 }
    ensures value { result ≡ number_of most text.now }
    ensures small { IfSome result (λ n. n < 10 ^ length text.now) }
    ensures below { IfSome result (λ n. n < 10 ^ most) }
    ensures fits { IfSome result (λ n. length text.now ≤ most) }
{
    if text.is_empty() || text.len() > most {
        return None;
    }
    let mut number: u64 = 0;
    for digit in text {
        if !digit.is_ascii_digit() {
            return None;
        }
        number = number * 10 + u64::from(*digit - b'0');
    }
    Some(number)
}

/// The units of 10^-9 that one to nine digits behind a point write, and none for any other text.
pub(crate) fn fraction(text: &[u8]) -> Option<u64>
    ensures value { result ≡ fraction_of text.now }
    ensures small { IfSome result (λ n. n < UNITS) }
{
    let digits = number(text, 9)?;
    Some(digits * 10u64.pow(9 - text.len() as u32))
}

/// How many digits the text begins with.
pub(crate) fn digit_run(text: &[u8]) -> usize
    ensures value { result ≡ digit_run text.now }
    ensures within { result ≤ length text.now }
{
    text.iter().take_while(|b| b.is_ascii_digit()).count()
}
