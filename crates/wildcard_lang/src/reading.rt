//! Reading patterns.
ghost use Rattle.std.specs.Prelude.{◌≡◌, ◌<◌, List, None, Some, length, map, option_map, IfOk, chars};
ghost use Rattle.std.specs.Bool.{OnFalse};
ghost use Rattle.wildcard_lang.specs.Symbols.{symbols};
ghost use Rattle.wildcard_lang.specs.Reading.{literal, literal_of, wildcard, wildcard_of, literal_pieces, glob_pieces, IsRead, IsPlainRead};

use crate::fault::PatternFault;
use crate::pattern::{MOST_PIECES, Pattern};
use crate::piece::Piece;
use crate::symbol::{Symbol, symbols_of};
use crate::text::Text;
use std::alloc::{AllocError, Global};

// The piece of a plain character.
fn literal(fold: bool, c: char) -> Piece
    ensures { result ≡ literal fold c }
{
    if fold && c.is_ascii_alphabetic() {
        Piece::LitFold(c.to_ascii_lowercase())
    } else {
        Piece::Lit(c)
    }
}

// The symbol's piece in a literal pattern.
fn literal_of(fold: bool, symbol: Symbol) -> Piece
    ensures { result ≡ literal_of fold symbol }
{
    match symbol {
        Symbol::Written(c) | Symbol::Escaped(c) => literal(fold, c),
    }
}

// The symbol's piece in a pattern with wildcards.
fn wildcard_of(fold: bool, symbol: Symbol) -> Piece
    ensures { result ≡ wildcard_of fold symbol }
{
    match symbol {
        Symbol::Written('*') => Piece::Many,
        Symbol::Written('?') => Piece::One,
        Symbol::Written(c) | Symbol::Escaped(c) => literal(fold, c),
    }
}

fn literals_of(alloc: Global, fold: bool, symbols: &[Symbol]) -> Result<Vec<Piece>, AllocError>
    ensures { IfOk result (λ v. v.items ≡ map (literal_of fold) symbols.now) }
{
    symbols.iter().map(|s| literal_of(fold, *s)).collect(alloc)
}

pub(crate) fn wildcards_of(
    alloc: Global,
    fold: bool,
    symbols: &[Symbol],
) -> Result<Vec<Piece>, AllocError>
    ensures { IfOk result (λ v. v.items ≡ map (wildcard_of fold) symbols.now) }
{
    symbols.iter().map(|s| wildcard_of(fold, *s)).collect(alloc)
}

/// The pattern that takes the characters of the text, one by one; `*` and `?` are plain. With `fold`
/// an ASCII letter takes either case, and every other character itself alone.
///
/// With `escapes` the text may hold the escapes `${*}`, `${?}` and `${$}` of the IAM policy language
/// for the plain characters `*`, `?` and `$`, and any other `${` is a policy variable:
/// `PolicyVariable` comes exactly then. `TooLong` comes exactly where that isn't so and there are more
/// than 2,048 pieces. `ArnParts` never comes.
pub fn read_literal(
    alloc: Global,
    text: &str,
    fold: bool,
    escapes: bool,
) -> Result<Pattern, PatternFault>
    ensures read { IsRead (literal_pieces fold escapes (chars text.now)) result }
    ensures plain { OnFalse escapes (IsPlainRead (literal fold) (chars text.now) result) }
{
    let text = Text::of(alloc, text)?;
    let symbols = symbols_of(alloc, &text, escapes)?;
    if symbols.len() > MOST_PIECES {
        return Err(PatternFault::TooLong);
    }
    let pieces = literals_of(alloc, fold, symbols.as_slice())?;
    Ok(Pattern::from_pieces(pieces))
}

/// The pattern of the text in which `*` takes any number of characters, none included, `?` takes any
/// one, and every other character itself. With `fold` an ASCII letter takes either case, and every
/// other character itself alone.
///
/// With `escapes` the text may hold the escapes `${*}`, `${?}` and `${$}` of the IAM policy language
/// for the plain characters `*`, `?` and `$`, and any other `${` is a policy variable:
/// `PolicyVariable` comes exactly then. `TooLong` comes exactly where that isn't so and there are more
/// than 2,048 pieces. `ArnParts` never comes.
pub fn read_glob(
    alloc: Global,
    text: &str,
    fold: bool,
    escapes: bool,
) -> Result<Pattern, PatternFault>
    ensures read { IsRead (glob_pieces fold escapes (chars text.now)) result }
    ensures plain { OnFalse escapes (IsPlainRead (wildcard fold) (chars text.now) result) }
{
    let text = Text::of(alloc, text)?;
    let symbols = symbols_of(alloc, &text, escapes)?;
    if symbols.len() > MOST_PIECES {
        return Err(PatternFault::TooLong);
    }
    let pieces = wildcards_of(alloc, fold, symbols.as_slice())?;
    Ok(Pattern::from_pieces(pieces))
}
