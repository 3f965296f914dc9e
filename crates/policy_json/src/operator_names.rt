//! The names of condition operators.
ghost use Rattle.std.specs.Prelude.{◌≡◌, find, bytes_eq};
ghost use Rattle.policy_json.specs.OperatorNames.{base_text, operator_of};
ghost use Rattle.policy_json.specs.OperatorParts.{base_named, operator_by_parts, without_prefix, without_suffix};

use policy_model::{Base, Operator, Quantifier};

// The bases that take prefixes and the suffix: all but `Null`.
const COMPARING: [Base; 26] = [
    Base::StringEquals,
    Base::StringNotEquals,
    Base::StringEqualsIgnoreCase,
    Base::StringNotEqualsIgnoreCase,
    Base::StringLike,
    Base::StringNotLike,
    Base::NumericEquals,
    Base::NumericNotEquals,
    Base::NumericLessThan,
    Base::NumericLessThanEquals,
    Base::NumericGreaterThan,
    Base::NumericGreaterThanEquals,
    Base::DateEquals,
    Base::DateNotEquals,
    Base::DateLessThan,
    Base::DateLessThanEquals,
    Base::DateGreaterThan,
    Base::DateGreaterThanEquals,
    Base::Bool,
    Base::BinaryEquals,
    Base::IpAddress,
    Base::NotIpAddress,
    Base::ArnEquals,
    Base::ArnLike,
    Base::ArnNotEquals,
    Base::ArnNotLike,
];

// How a base is written.
fn base_text(base: Base) -> &'static str
    ensures { result.now ≡ base_text base }
{
    match base {
        Base::StringEquals => "StringEquals",
        Base::StringNotEquals => "StringNotEquals",
        Base::StringEqualsIgnoreCase => "StringEqualsIgnoreCase",
        Base::StringNotEqualsIgnoreCase => "StringNotEqualsIgnoreCase",
        Base::StringLike => "StringLike",
        Base::StringNotLike => "StringNotLike",
        Base::NumericEquals => "NumericEquals",
        Base::NumericNotEquals => "NumericNotEquals",
        Base::NumericLessThan => "NumericLessThan",
        Base::NumericLessThanEquals => "NumericLessThanEquals",
        Base::NumericGreaterThan => "NumericGreaterThan",
        Base::NumericGreaterThanEquals => "NumericGreaterThanEquals",
        Base::DateEquals => "DateEquals",
        Base::DateNotEquals => "DateNotEquals",
        Base::DateLessThan => "DateLessThan",
        Base::DateLessThanEquals => "DateLessThanEquals",
        Base::DateGreaterThan => "DateGreaterThan",
        Base::DateGreaterThanEquals => "DateGreaterThanEquals",
        Base::Bool => "Bool",
        Base::BinaryEquals => "BinaryEquals",
        Base::IpAddress => "IpAddress",
        Base::NotIpAddress => "NotIpAddress",
        Base::ArnEquals => "ArnEquals",
        Base::ArnLike => "ArnLike",
        Base::ArnNotEquals => "ArnNotEquals",
        Base::ArnNotLike => "ArnNotLike",
        Base::Null => "Null",
    }
}

// The first of these bases that is written so, or none.
fn base_among(bases: &[Base], name: &[u8]) -> Option<Base>
    ensures { result ≡ find (λ b. bytes_eq (base_text b) name.now) bases.now }
{
    for base in bases {
        if base_text(*base).as_bytes() == name {
            return Some(*base);
        }
    }
    None
}

// The base of a name, `Null` aside, or none where no base has it.
fn base_named(name: &[u8]) -> Option<Base>
    ensures { result ≡ base_named name.now }
{
    base_among(&COMPARING, name)
}

// The prefix of a name, and what stands behind it.
fn split_prefix(name: &[u8]) -> (Quantifier, &[u8])
    ensures quantifier { result.0 ≡ (without_prefix name.now).0 }
    ensures rest { result.1.now ≡ (without_prefix name.now).1 }
{
    if let Some(rest) = name.strip_prefix(b"ForAllValues:") {
        return (Quantifier::ForAll, rest);
    }
    match name.strip_prefix(b"ForAnyValue:") {
        Some(rest) => (Quantifier::ForAny, rest),
        None => (Quantifier::Plain, name),
    }
}

// Whether the name ends with the suffix, and what stands before it.
fn split_suffix(name: &[u8]) -> (bool, &[u8])
    ensures if_exists { result.0 ≡ (without_suffix name.now).0 }
    ensures rest { result.1.now ≡ (without_suffix name.now).1 }
{
    match name.strip_suffix(b"IfExists") {
        Some(rest) => (true, rest),
        None => (false, name),
    }
}

// The operator of a name by its parts.
#[tactic(auto, unfolding(crate::specs::OperatorParts::operator_by_parts))]
fn operator_by_parts(name: &[u8]) -> Option<Operator>
    ensures { result ≡ operator_by_parts name.now }
{
    if name == b"Null".as_slice() {
        return Some(Operator {
            base: Base::Null,
            quantifier: Quantifier::Plain,
            if_exists: false,
        });
    }
    let (quantifier, rest) = split_prefix(name);
    let (if_exists, rest) = split_suffix(rest);
    let base = base_named(rest)?;
    Some(Operator {
        base,
        quantifier,
        if_exists,
    })
}

/// The operator of a name, or none where no operator is written so: an optional prefix `ForAllValues:`
/// or `ForAnyValue:`, a base name and an optional suffix `IfExists`. `Null` has neither prefix nor suffix.
pub(crate) fn operator_of(name: &str) -> Option<Operator>
    ensures { result ≡ operator_of name.now }
{
    operator_by_parts(name.as_bytes())
}
