//! The parts of a moment's text. Each reader takes the front of a text, and gives the value and the
//! rest.
ghost use Rattle.std.specs.Prelude.{◌≡◌, ◌<◌, ◌≤◌, IfSome};
ghost use Rattle.std.specs.Int.{IsInRange};
ghost use Rattle.intervals.specs.MomentTexts.{read_view, two_of, four_of, field_of, clock_of};

/// Two digits.
pub(crate) fn two_digits(text: &[u8]) -> Option<(u8, &[u8])>
    ensures value { read_view result ≡ two_of text.now }
    ensures small { IfSome result (λ p. p.0 < 100) }
{
    match text {
        [tens @ b'0'..=b'9', ones @ b'0'..=b'9', rest @ ..] => {
            Some(((*tens - b'0') * 10 + (*ones - b'0'), rest))
        }
        _ => None,
    }
}

/// Four digits.
#[tactic(auto, unfolding(crate::specs::MomentTexts::four_of))]
pub(crate) fn four_digits(text: &[u8]) -> Option<(u16, &[u8])>
    ensures value { read_view result ≡ four_of text.now }
    ensures small { IfSome result (λ p. p.0 < 10_000) }
{
    let (hundreds, text) = two_digits(text)?;
    let (ones, text) = two_digits(text)?;
    Some((u16::from(hundreds) * 100 + u16::from(ones), text))
}

/// The mark and two digits.
pub(crate) fn field(text: &[u8], mark: u8) -> Option<(u8, &[u8])>
    ensures value { read_view result ≡ field_of mark text.now }
    ensures small { IfSome result (λ p. p.0 < 100) }
{
    match text {
        [first, rest @ ..] if *first == mark => two_digits(rest),
        _ => None,
    }
}

/// The mark, an hour, a colon and a minute, as minutes.
#[tactic(auto, unfolding(crate::specs::MomentTexts::clock_of))]
pub(crate) fn clock(text: &[u8], mark: u8) -> Option<(u32, &[u8])>
    ensures value { read_view result ≡ clock_of mark text.now }
    ensures small { IfSome result (λ p. p.0 < 1440) }
{
    let (hour, text) = field(text, mark)?;
    let (minute, text) = field(text, b':')?;
    if hour >= 24 || minute >= 60 {
        return None;
    }
    Some((u32::from(hour) * 60 + u32::from(minute), text))
}
