//! Writing patterns.
ghost use Rattle.std.specs.Prelude.{◌≡◌, ◌++◌, IfOk};
ghost use Rattle.wildcard_lang.specs.Writing.{plain_form, piece_form, written_form, piece_character, action_form};

use crate::pattern::Pattern;
use crate::piece::Piece;
use crate::symbol::is_mark;
use crate::text::Text;
use plain_lists::NoMemory;
use std::alloc::Global;

/// The text of the pattern: a wildcard as `?` or `*`, the plain characters `*`, `?` and `$` as the
/// escapes `${*}`, `${?}` and `${$}` of the IAM policy language, and every other character as itself.
/// A folded letter stands as its lower case.
pub fn write_pattern(alloc: Global, pattern: &Pattern) -> Result<Text, NoMemory>
    ensures { IfOk result (λ t. t ≡ written_form pattern.now) }
{
    let mut written = Vec::new(alloc);
    for piece in pattern.as_slice() {
        write_piece(&mut written, *piece)?;
    }
    Ok(Text::from_chars(written))
}

fn write_piece(written: &mut Vec<char>, piece: Piece) -> Result<(), NoMemory>
    ensures { IfOk result (λ _. written.new.items ≡ written.old.items ++ piece_form piece) }
{
    match piece {
        Piece::Lit(c) => write_plain(written, c),
        Piece::LitFold(c) => Ok(written.push(c)?),
        Piece::One | Piece::OneNoColon => Ok(written.push('?')?),
        Piece::Many | Piece::ManyNoColon => Ok(written.push('*')?),
    }
}

fn write_plain(written: &mut Vec<char>, c: char) -> Result<(), NoMemory>
    ensures { IfOk result (λ _. written.new.items ≡ written.old.items ++ plain_form c) }
{
    if !is_mark(c) {
        return Ok(written.push(c)?);
    }
    written.push('$')?;
    written.push('{')?;
    written.push(c)?;
    written.push('}')?;
    Ok(())
}

/// The text of an action's pattern, in which no escapes are read: a wildcard as `?` or `*`, and every
/// other character as itself. A folded letter stands as its lower case.
pub fn write_action(alloc: Global, pattern: &Pattern) -> Result<Text, NoMemory>
    ensures { IfOk result (λ t. t ≡ action_form pattern.now) }
{
    let chars: Vec<char> = pattern
        .as_slice()
        .iter()
        .map(|piece| piece_character(*piece))
        .collect(alloc)?;
    Ok(Text::from_chars(chars))
}

// The character of a piece where no escapes are read.
fn piece_character(piece: Piece) -> char
    ensures { result ≡ piece_character piece }
{
    match piece {
        Piece::Lit(c) | Piece::LitFold(c) => c,
        Piece::One | Piece::OneNoColon => '?',
        Piece::Many | Piece::ManyNoColon => '*',
    }
}
