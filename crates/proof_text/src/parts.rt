//! The parts of a line.
ghost use Rattle.std.specs.Prelude.{◌≡◌, ◌<◌, ◌≤◌, ◌==◌, ◌∷◌, length, IfSome};
ghost use Rattle.std.specs.List.{position_or_len, slice_split};
ghost use Rattle.std.specs.Option.{option_copied};
ghost use Rattle.proof_text.specs.LineForms.{content_of};
ghost use Rattle.proof_text.specs.Steps.{parts_left};

/// Where the byte stands first, or how many bytes there are where it doesn't.
pub(crate) fn first_at(text: &[u8], byte: u8) -> usize
    ensures within { result ≤ length text.now }
    ensures first { result ≡ position_or_len (λ b. b == byte) text.now }
{
    for (i, b) in text.iter().enumerate() {
        if *b == byte {
            return i;
        }
    }
    text.len()
}

/// The part before the first of these bytes, and what stands behind that byte, where there is one.
pub(crate) fn cut(text: &[u8], between: u8) -> (&[u8], Option<&[u8]>)
    ensures parts { slice_split (λ b. b == between) text.now ≡
        result.0.now ∷ parts_left between (option_copied result.1) }
    ensures shorter { IfSome result.1 (λ rest. length rest.now < length text.now) }
{
    let at = first_at(text, between);
    if at == text.len() {
        return (text, None);
    }
    let (part, _) = text.split_at(at);
    let (_, rest) = text.split_at(at + 1);
    (part, Some(rest))
}

/// A line without its end, or none where no line feed ends it.
pub fn content_of(line: &[u8]) -> Option<&[u8]>
    ensures { option_copied result ≡ content_of line.now }
{
    let Some((last, content)) = line.split_last() else {
        return None;
    };
    if *last == b'\n' {
        return Some(content);
    }
    None
}
