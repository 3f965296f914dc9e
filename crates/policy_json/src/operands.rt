//! Reads the values of conditions.
ghost use Rattle.std.specs.Prelude.{◌≡◌, false, true, IfOk, option_map, string_bytes};
ghost use Rattle.std.specs.Fmt.{signed_decimal};
ghost use Rattle.base64.specs.Engines.{standard};
ghost use Rattle.base64.specs.GeneralPurpose.{decoded_of};
ghost use Rattle.serde_json.specs.View.{view};
ghost use Rattle.json_shapes.specs.Json.{views};
ghost use Rattle.policy_json.specs.Operands.{AreOperandsRead, IsOperandRead, IsPatternRefusal, IsPatternUnder, block_in, bytes_in, has_patterns, moment_in, number_in, operand_in, text_in, truth_in, truth_of};
ghost use Rattle.policy_model.specs.Operators.{family_of};

use crate::fault::{PolicyAnswer, PolicyCode, refusal};
use crate::location::Location;
use base64::DecodeAllocError;
use base64::engine::general_purpose::STANDARD;
use cidr_bits::{Block, read_block};
use intervals::{ByteList, Scaled, from_whole, read_decimal, read_moment};
use plain_lists::List;
use policy_model::{Base, Family, Operand, OperandList, Operator};
use serde_json::Value;
use std::alloc::{AllocError, Global};
use wildcard_lang::{Pattern, PatternFault, read_arn, read_glob, read_literal};

/// A key under an operator, by what the faults and the forms of its values need.
#[derive(Clone, Copy)]
pub(crate) struct KeyLocation<'a> {
    pub(crate) location: Location,
    /// The key as written.
    pub(crate) key: &'a str,
    pub(crate) operator: Operator,
    /// Whether escapes and policy variables are read in texts.
    pub(crate) escapes: bool,
}

// The decimal digits of a number, if there is one.
fn digits_of(alloc: Global, number: Option<i128>) -> Result<Option<String>, AllocError>
    ensures { IfOk result
        (λ text. option_map string_bytes text ≡ option_map signed_decimal number) }
{
    match number {
        Some(number) => Ok(Some(format!(in alloc; "{number}")?)),
        None => Ok(None),
    }
}

// The text of a value; a boolean or a whole number may stand for one.
fn text_in(alloc: Global, value: &Value) -> Result<Option<String>, AllocError>
    ensures { IfOk result (λ text. option_map string_bytes text ≡ text_in (view value.now)) }
{
    let text = match value {
        Value::String(text) => text.as_str(),
        Value::Bool(true) => "true",
        Value::Bool(false) => "false",
        Value::Number(number) => return digits_of(alloc, number.as_i128()),
        _ => return Ok(None),
    };
    Ok(Some(String::from_str(alloc, text)?))
}

// The number of a value.
fn number_in(value: &Value) -> Option<Scaled>
    ensures { result ≡ number_in (view value.now) }
{
    match value {
        Value::Number(number) => from_whole(number.as_i128()?).ok(),
        Value::String(text) => read_decimal(text.as_str()).ok(),
        _ => None,
    }
}

// The moment of a value.
fn moment_in(value: &Value) -> Option<Scaled>
    ensures { result ≡ moment_in (view value.now) }
{
    match value {
        Value::Number(number) => from_whole(number.as_u64()? as i128).ok(),
        Value::String(text) => read_moment(text.as_str()).ok(),
        _ => None,
    }
}

// The truth value of a text.
fn truth_of(text: &str) -> Option<bool>
    ensures { result ≡ truth_of text.now }
{
    if text.eq_ignore_ascii_case("true") {
        Some(true)
    } else if text.eq_ignore_ascii_case("false") {
        Some(false)
    } else {
        None
    }
}

// The truth value of a value.
fn truth_in(value: &Value) -> Option<bool>
    ensures { result ≡ truth_in (view value.now) }
{
    match value {
        Value::Bool(truth) => Some(*truth),
        Value::String(text) => truth_of(text.as_str()),
        _ => None,
    }
}

// The bytes of a text, or none where it isn't their base64.
#[tactic(auto, unfolding(base64::specs::GeneralPurpose::decoded_of))]
fn decoded(alloc: Global, text: &str) -> Result<Option<ByteList>, AllocError>
    ensures { IfOk result (λ bytes. bytes ≡ decoded_of standard text.now) }
{
    match STANDARD.decode(alloc, text.as_bytes()) {
        Ok(bytes) => Ok(Some(List::from_vec(bytes))),
        Err(DecodeAllocError::OutOfMemory) => Err(AllocError),
        Err(DecodeAllocError::DecodeError(_)) => Ok(None),
    }
}

// The bytes of a value.
fn bytes_in(alloc: Global, value: &Value) -> Result<Option<ByteList>, AllocError>
    ensures { IfOk result (λ bytes. bytes ≡ bytes_in (view value.now)) }
{
    match value.as_str() {
        Some(text) => decoded(alloc, text),
        None => Ok(None),
    }
}

// The block of a value.
fn block_in(value: &Value) -> Option<Block>
    ensures { result ≡ block_in (view value.now) }
{
    read_block(value.as_str()?).ok()
}

// The operand of a value under a family without patterns, or none where it isn't of the family's form.
fn operand_in(alloc: Global, family: Family, value: &Value) -> Result<Option<Operand>, AllocError>
    ensures { IfOk result (λ o. o ≡ operand_in family (view value.now)) }
{
    Ok(match family {
        Family::Text | Family::Arn => None,
        Family::Numeric => number_in(value).map(Operand::Number),
        Family::Date => moment_in(value).map(Operand::Number),
        Family::Bool | Family::Null => truth_in(value).map(Operand::Truth),
        Family::Binary => bytes_in(alloc, value)?.map(Operand::Bytes),
        Family::Address => block_in(value).map(Operand::Block),
    })
}

// The pattern of a text under a base of texts or of ARNs.
fn read_pieces(
    alloc: Global,
    base: Base,
    escapes: bool,
    text: &str,
) -> Result<Pattern, PatternFault>
    requires { has_patterns (family_of base) ≡ true }
    ensures { IsPatternUnder base escapes text.now result }
{
    match base {
        Base::StringEquals | Base::StringNotEquals => read_literal(alloc, text, false, escapes),
        Base::StringEqualsIgnoreCase | Base::StringNotEqualsIgnoreCase => {
            read_literal(alloc, text, true, escapes)
        }
        Base::StringLike | Base::StringNotLike => read_glob(alloc, text, false, escapes),
        _ => read_arn(alloc, text, escapes),
    }
}

// The fault of a value that is no pattern.
fn refused_pattern(alloc: Global, at: KeyLocation, fault: PatternFault) -> PolicyAnswer
    ensures { IsPatternRefusal at.entry fault result }
{
    let code = match fault {
        PatternFault::PolicyVariable => PolicyCode::P11PolicyVariable,
        PatternFault::ArnParts => PolicyCode::P14ArnParts,
        PatternFault::TooLong => PolicyCode::P17Limit,
        PatternFault::NoMemory => return PolicyAnswer::NoMemory,
    };
    refusal(alloc, at.location, code, at.key)
}

// The pattern of a value of texts or of ARNs.
fn read_text(alloc: Global, at: KeyLocation, value: &Value) -> Result<Operand, PolicyAnswer>
    requires { has_patterns (family_of at.operator.base) ≡ true }
    ensures { IsOperandRead at.entry (view value.now) result }
{
    let Some(text) = text_in(alloc, value)? else {
        return Err(refusal(alloc, at.location, PolicyCode::P13BadValue, at.key));
    };
    match read_pieces(alloc, at.operator.base, at.escapes, text.as_str()) {
        Ok(pattern) => Ok(Operand::Pattern(pattern)),
        Err(fault) => Err(refused_pattern(alloc, at, fault)),
    }
}

// The operand of a value that isn't of texts or of ARNs.
fn read_plain(alloc: Global, at: KeyLocation, value: &Value) -> Result<Operand, PolicyAnswer>
    requires { has_patterns (family_of at.operator.base) ≡ false }
    ensures { IsOperandRead at.entry (view value.now) result }
{
    match operand_in(alloc, at.operator.base.family(), value)? {
        Some(operand) => Ok(operand),
        None => Err(refusal(alloc, at.location, PolicyCode::P13BadValue, at.key)),
    }
}

// The operand of a value.
fn read_operand(alloc: Global, at: KeyLocation, value: &Value) -> Result<Operand, PolicyAnswer>
    ensures { IsOperandRead at.entry (view value.now) result }
{
    match at.operator.base.family() {
        Family::Text | Family::Arn => read_text(alloc, at, value),
        _ => read_plain(alloc, at, value),
    }
}

/// The operands of values, or the first fault.
pub(crate) fn read_operands(
    alloc: Global,
    at: KeyLocation,
    values: &[Value],
) -> Result<OperandList, PolicyAnswer>
    ensures { AreOperandsRead at.entry (views values.now) result }
{
    let mut operands = List::new(alloc);
    for value in values {
        let operand = read_operand(alloc, at, value)?;
        operands.push(operand)?;
    }
    Ok(operands)
}
