//! Clauses that a value is to meet. They stand between spaces, and their literals between bars: a
//! condition, behind `!` where it isn't to be met. A truth value's condition is `true`, `false`, or
//! `both`.
use cidr_bits::{read_block, write_address};
use intervals::{Compare, read_decimal, write_decimal};
use plain_lists::List;
use std::alloc::{AllocError, Global};
use std::io;
use std::io::ErrorKind;
use value_theory::{Literal, PlainCond, PlainKind, PlainValue, PlainWants, Solved, solve};

/// The value that is found, or `none`, or that the text is no proper wants.
pub(crate) fn solution(alloc: Global, kind: PlainKind, text: &str) -> io::Result<String> {
    let wants = wants_of(alloc, kind, text)?;
    if !wants.is_proper() {
        return Ok(String::from_str(alloc, "refused")?);
    }
    match solve(alloc, &wants)? {
        Solved::Found(value) => Ok(written(alloc, &value)?),
        Solved::Empty => Ok(String::from_str(alloc, "none")?),
    }
}

fn written(alloc: Global, value: &PlainValue) -> Result<String, AllocError> {
    match value {
        PlainValue::Truth(truth) => String::from_str(alloc, if *truth { "true" } else { "false" }),
        PlainValue::Number(number) => write_decimal(alloc, *number),
        PlainValue::Address(address) => write_address(alloc, address),
        PlainValue::Bytes(bytes) => {
            let count = bytes.len();
            format!(in alloc; "{count} bytes")
        }
    }
}

fn wants_of(alloc: Global, kind: PlainKind, text: &str) -> io::Result<PlainWants> {
    let mut wants = PlainWants {
        kind,
        conds: List::new(alloc),
        clauses: List::new(alloc),
    };
    for clause in text.split(' ') {
        push_clause(alloc, clause, &mut wants)?;
    }
    Ok(wants)
}

// Adds a clause, and a condition for each of its literals.
fn push_clause(alloc: Global, text: &str, wants: &mut PlainWants) -> io::Result<()> {
    let mut clause = List::new(alloc);
    for literal in text.split('|') {
        let Ok(pattern) = u32::try_from(wants.conds.len()) else {
            return Err(ErrorKind::InvalidData.into());
        };
        let (holds, cond) = match literal.strip_prefix('!') {
            Some(cond) => (false, cond),
            None => (true, literal),
        };
        clause.push(Literal { pattern, holds })?;
        wants.conds.push(cond_of(alloc, wants.kind, cond)?)?;
    }
    Ok(wants.clauses.push(clause)?)
}

fn cond_of(alloc: Global, kind: PlainKind, text: &str) -> io::Result<PlainCond> {
    match kind {
        PlainKind::Truth => Ok(PlainCond::Flag(text != "false", text != "true")),
        PlainKind::Number => bound(text),
        PlainKind::Address => match read_block(text) {
            Ok(block) => Ok(PlainCond::Inside(block)),
            Err(_) => Err(ErrorKind::InvalidData.into()),
        },
        PlainKind::Bytes => {
            let bytes = Vec::from_slice(alloc, text.as_bytes())?;
            Ok(PlainCond::Equals(List::from_vec(bytes)))
        }
    }
}

// A sign of comparison and a decimal.
fn bound(text: &str) -> io::Result<PlainCond> {
    let (compare, number) = split_sign(text);
    match read_decimal(number) {
        Ok(number) => Ok(PlainCond::Compares(compare, number)),
        Err(_) => Err(ErrorKind::InvalidData.into()),
    }
}

fn split_sign(text: &str) -> (Compare, &str) {
    if let Some(number) = text.strip_prefix("<=") {
        (Compare::LessOrEqual, number)
    } else if let Some(number) = text.strip_prefix(">=") {
        (Compare::GreaterOrEqual, number)
    } else if let Some(number) = text.strip_prefix('<') {
        (Compare::Less, number)
    } else if let Some(number) = text.strip_prefix('>') {
        (Compare::Greater, number)
    } else {
        (Compare::Equal, text.strip_prefix('=').unwrap_or(text))
    }
}
