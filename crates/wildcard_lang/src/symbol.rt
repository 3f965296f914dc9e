//! The symbols of a pattern's text: its characters, where an escape stands for one.
ghost use Rattle.std.specs.Prelude.{◌≡◌, ◌<◌, ℕ, zero, None, Some, length, MatchOption, IfOk, map};
ghost use Rattle.wildcard_lang.specs.Symbols.{IsNext, opens_brace, is_mark, escaped_character, symbols_after, symbols};
ghost use Rattle.wildcard_lang.specs.SymbolFaults.{AreSymbols};

use crate::fault::PatternFault;
use crate::text::Text;
use plain_lists::List;
use std::alloc::{AllocError, Global};

/// One symbol of a pattern's text.
#[derive(Clone, Copy)]
pub enum Symbol {
    /// A character that stands as it is written.
    Written(char),
    /// A plain character for which an escape stands.
    Escaped(char),
}

// Whether an escape may stand for the character.
pub(crate) fn is_mark(c: char) -> bool
    ensures { result ≡ is_mark c }
{
    matches!(c, '*' | '?' | '$')
}

// Whether a `{` stands at the front.
fn opens_brace(rest: &[char]) -> bool
    ensures { result ≡ opens_brace rest.now }
{
    matches!(rest, ['{', ..])
}

// The plain character for which a `$` and what is behind it stand.
fn escaped_character(rest: &[char]) -> Option<char>
    ensures { result ≡ escaped_character rest.now }
{
    match rest {
        ['{', c, '}', ..] if is_mark(*c) => Some(*c),
        _ => None,
    }
}

// The symbol at the front, and how many characters it takes, or none where a policy variable stands there.
fn next_symbol(chars: &[char]) -> Option<(Symbol, usize)>
    requires { 0 < length chars.now }
    ensures { MatchOption result (symbols_after zero chars.now ≡ None) (IsNext chars.now) }
{
    let c = chars[0];
    let rest = &chars[1..];
    if c == '$' && opens_brace(rest) {
        let plain = escaped_character(rest)?;
        return Some((Symbol::Escaped(plain), 4));
    }
    Some((Symbol::Written(c), 1))
}

// The symbols of a text with escapes.
fn unescape(alloc: Global, chars: &[char]) -> Result<List<Symbol>, PatternFault>
    ensures { AreSymbols (symbols_after zero chars.now) result }
{
    let mut symbols = List::new(alloc);
    let mut rest = chars;
    while !rest.is_empty() {
        let Some((symbol, taken)) = next_symbol(rest) else {
            return Err(PatternFault::PolicyVariable);
        };
        symbols.push(symbol)?;
        rest = &rest[taken..];
    }
    Ok(symbols)
}

// The symbols of a text in which each character is plain.
fn written(alloc: Global, chars: &[char]) -> Result<Vec<Symbol>, AllocError>
    ensures { IfOk result (λ v. v.items ≡ map Symbol.Written chars.now) }
{
    chars.iter().map(|c| Symbol::Written(*c)).collect(alloc)
}

// The symbols of a text.
pub(crate) fn symbols_of(
    alloc: Global,
    text: &Text,
    escapes: bool,
) -> Result<List<Symbol>, PatternFault>
    ensures { AreSymbols (symbols escapes text.now) result }
{
    if escapes {
        unescape(alloc, text.as_slice())
    } else {
        let symbols = written(alloc, text.as_slice())?;
        Ok(List::from_vec(symbols))
    }
}
