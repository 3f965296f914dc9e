//! Conditions as text: ` if`, the prefix, the base and the suffix of the operator, the folded key, the key as
//! written, and the values, each behind a comma.
use crate::showing::push_text;
use cidr_bits::{Block, write_block};
use intervals::{Scaled, write_decimal};
use policy_model::{Condition, Operand, Operator, Quantifier};
use std::alloc::{AllocError, Global};
use wildcard_lang::{Pattern, Piece};

fn push_operator(alloc: Global, out: &mut String, operator: Operator) -> Result<(), AllocError> {
    out.push_str(match operator.quantifier {
        Quantifier::Plain => " if ",
        Quantifier::ForAll => " if all ",
        Quantifier::ForAny => " if any ",
    })?;
    let base = operator.base;
    let name = format!(in alloc; "{base:?}")?;
    out.push_str(name.as_str())?;
    out.push_str(if operator.if_exists {
        " or absent "
    } else {
        " "
    })
}

/// A letter in either case has `~` behind it, and a wildcard that takes no colon a `:`.
fn push_piece(out: &mut String, piece: Piece) -> Result<(), AllocError> {
    match piece {
        Piece::Lit(c) => out.push(c),
        Piece::LitFold(c) => {
            out.push(c)?;
            out.push('~')
        }
        Piece::One => out.push_str("⟨?⟩"),
        Piece::Many => out.push_str("⟨*⟩"),
        Piece::OneNoColon => out.push_str("⟨?:⟩"),
        Piece::ManyNoColon => out.push_str("⟨*:⟩"),
    }
}

fn push_pieces(out: &mut String, pattern: &Pattern) -> Result<(), AllocError> {
    for piece in pattern.as_slice() {
        push_piece(out, *piece)?;
    }
    Ok(())
}

fn push_number(alloc: Global, out: &mut String, number: Scaled) -> Result<(), AllocError> {
    let text = write_decimal(alloc, number)?;
    out.push_str(text.as_str())
}

fn push_block(alloc: Global, out: &mut String, block: &Block) -> Result<(), AllocError> {
    let text = write_block(alloc, block)?;
    out.push_str(text.as_str())
}

fn push_bytes(alloc: Global, out: &mut String, bytes: &[u8]) -> Result<(), AllocError> {
    for byte in bytes {
        let byte = *byte;
        let text = format!(in alloc; "<{byte}>")?;
        out.push_str(text.as_str())?;
    }
    Ok(())
}

fn push_operand(alloc: Global, out: &mut String, operand: &Operand) -> Result<(), AllocError> {
    match operand {
        Operand::Pattern(pattern) => push_pieces(out, pattern),
        Operand::Number(number) => push_number(alloc, out, *number),
        Operand::Block(block) => push_block(alloc, out, block),
        Operand::Truth(true) => out.push_str("true"),
        Operand::Truth(false) => out.push_str("false"),
        Operand::Bytes(bytes) => push_bytes(alloc, out, bytes.as_slice()),
    }
}

/// Adds the condition.
pub(crate) fn push_condition(
    alloc: Global,
    out: &mut String,
    condition: &Condition,
) -> Result<(), AllocError> {
    push_operator(alloc, out, condition.operator)?;
    push_text(out, &condition.key)?;
    out.push(' ')?;
    push_text(out, &condition.written)?;
    for operand in condition.values.as_slice() {
        out.push(',')?;
        push_operand(alloc, out, operand)?;
    }
    Ok(())
}
