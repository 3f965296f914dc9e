//! Reading the patterns of ARNs.
ghost use Rattle.std.specs.Prelude.{◌≡◌, IfOk, chars};
ghost use Rattle.wildcard_lang.specs.Arns.{narrow_piece, is_colon, narrow_before, colons_left, narrowed_pieces, colons, arn_pieces, IsArnRead};

use crate::fault::PatternFault;
use crate::pattern::{MOST_PIECES, Pattern};
use crate::piece::Piece;
use crate::reading::wildcards_of;
use crate::symbol::symbols_of;
use crate::text::Text;
use std::alloc::{AllocError, Global};

// How many colons stand between the six parts of an ARN.
const COLONS: usize = 5;

// The wildcard that takes no colon in place of one that takes any character.
fn narrow_piece(piece: Piece) -> Piece
    ensures { result ≡ narrow_piece piece }
{
    match piece {
        Piece::One => Piece::OneNoColon,
        Piece::Many => Piece::ManyNoColon,
        other => other,
    }
}

// Whether the piece is a plain colon.
fn is_colon(piece: Piece) -> bool
    ensures { result ≡ is_colon piece }
{
    matches!(piece, Piece::Lit(':'))
}

// How many plain colons there are.
fn colons(pieces: &[Piece]) -> usize
    ensures { result ≡ colons pieces.now }
{
    let mut found = 0;
    for piece in pieces {
        if is_colon(*piece) {
            found += 1;
        }
    }
    found
}

// The piece where so many plain colons are still to come.
fn narrow_before(left: usize, piece: Piece) -> Piece
    ensures { result ≡ narrow_before left piece }
{
    if left == 0 {
        piece
    } else {
        narrow_piece(piece)
    }
}

// How many of them are still to come behind the piece.
fn colons_left(left: usize, piece: Piece) -> usize
    ensures { result ≡ colons_left left piece }
{
    if left > 0 && is_colon(piece) {
        left - 1
    } else {
        left
    }
}

// The pieces, narrowed before the fifth plain colon.
fn narrow_parts(alloc: Global, pieces: &[Piece]) -> Result<Vec<Piece>, AllocError>
    ensures { IfOk result (λ v. v.items ≡ narrowed_pieces 5 pieces.now) }
{
    let mut parts = Vec::new(alloc);
    let mut left = COLONS;
    for piece in pieces {
        parts.push(narrow_before(left, *piece))?;
        left = colons_left(left, *piece);
    }
    Ok(parts)
}

/// The pattern of an ARN: `*` takes any number of characters, none included, `?` takes any one, and
/// every other character itself. In the first five of its six parts, which are cut at the first five
/// colons, the wildcards take no colon.
///
/// With `escapes` the text may hold the escapes `${*}`, `${?}` and `${$}` of the IAM policy language
/// for the plain characters `*`, `?` and `$`, and any other `${` is a policy variable:
/// `PolicyVariable` comes exactly then. `ArnParts` comes exactly where that isn't so and there are
/// fewer than five colons. `TooLong` comes exactly where none of these is so and there are more than
/// 2,048 pieces.
pub fn read_arn(alloc: Global, text: &str, escapes: bool) -> Result<Pattern, PatternFault>
    ensures { IsArnRead (arn_pieces escapes (chars text.now)) result }
{
    let text = Text::of(alloc, text)?;
    let symbols = symbols_of(alloc, &text, escapes)?;
    let wide = wildcards_of(alloc, false, symbols.as_slice())?;
    let pieces = narrow_parts(alloc, wide.as_slice())?;
    if colons(pieces.as_slice()) < COLONS {
        return Err(PatternFault::ArnParts);
    }
    if pieces.len() > MOST_PIECES {
        return Err(PatternFault::TooLong);
    }
    Ok(Pattern::from_pieces(pieces))
}
