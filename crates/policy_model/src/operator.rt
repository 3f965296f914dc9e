//! Condition operators, and the conditions that statements make with them (IAM JSON policy reference,
//! condition operators).
ghost use Rattle.std.specs.Prelude.{◌≡◌};
ghost use Rattle.std.proofs.Common.{rules};
ghost use Rattle.policy_model.specs.Operators.{compare_of, family_of, is_negated, is_null, takes_family};

use crate::value::Kind;
use cidr_bits::Block;
use intervals::{ByteList, Compare, Scaled};
use plain_lists::{EqualClone, List};
use wildcard_lang::{Pattern, Text};

/// The operators without prefix and suffix, in the names of the IAM policy language.
#[derive(Clone, Copy, Debug, PartialEq, Eq)]
pub enum Base {
    StringEquals,
    StringNotEquals,
    StringEqualsIgnoreCase,
    StringNotEqualsIgnoreCase,
    StringLike,
    StringNotLike,
    NumericEquals,
    NumericNotEquals,
    NumericLessThan,
    NumericLessThanEquals,
    NumericGreaterThan,
    NumericGreaterThanEquals,
    DateEquals,
    DateNotEquals,
    DateLessThan,
    DateLessThanEquals,
    DateGreaterThan,
    DateGreaterThanEquals,
    Bool,
    BinaryEquals,
    IpAddress,
    NotIpAddress,
    ArnEquals,
    ArnLike,
    ArnNotEquals,
    ArnNotLike,
    Null,
}

/// The families of operators, whose values have one form.
#[derive(Clone, Copy)]
pub enum Family {
    Text,
    Numeric,
    Date,
    Bool,
    Binary,
    Address,
    Arn,
    Null,
}

/// How an operator asks of the values of a key.
#[derive(Clone, Copy, PartialEq, Eq)]
pub enum Quantifier {
    /// Without a prefix: of the one value that there may be.
    Plain,
    /// With `ForAllValues:`, of each value.
    ForAll,
    /// With `ForAnyValue:`, of some value.
    ForAny,
}

/// A condition operator.
#[derive(Clone, Copy, PartialEq, Eq)]
pub struct Operator {
    pub base: Base,
    pub quantifier: Quantifier,
    /// Whether the name ends with `IfExists`, so that an absent key makes the condition true.
    pub if_exists: bool,
}

/// A value that a policy gives an operator.
#[derive(Clone, Drop)]
pub enum Operand {
    /// Of texts and ARNs: what a text is to match.
    Pattern(Pattern),
    /// Of numbers and dates: a number, or a moment as the number of seconds since
    /// 1970-01-01T00:00:00Z.
    Number(Scaled),
    /// Of addresses.
    Block(Block),
    /// Of `Bool`, and of `Null`, where true means that the key is absent.
    Truth(bool),
    /// Of `BinaryEquals`.
    Bytes(ByteList),
}

impl EqualClone for Operand {
    ghost clones_are_equal = { Prim.search rules };
}

/// A list of a policy's values.
pub type OperandList = List<Operand>;

/// One key of an operator in a statement, with the values that the policy gives.
#[derive(Clone, Drop)]
pub struct Condition {
    pub operator: Operator,
    /// The name of the key, with its ASCII letters lowered.
    pub key: Text,
    /// The name of the key as the file has it.
    pub written: Text,
    pub values: OperandList,
}

impl EqualClone for Condition {
    ghost clones_are_equal = { Prim.search rules };
}

/// A list of conditions; a statement asks for all of them.
pub type ConditionList = List<Condition>;

impl Base {
    /// The family of the operator.
    pub fn family(self) -> Family
        ensures { result ≡ family_of self }
    {
        match self {
            Base::StringEquals
            | Base::StringNotEquals
            | Base::StringEqualsIgnoreCase
            | Base::StringNotEqualsIgnoreCase
            | Base::StringLike
            | Base::StringNotLike => Family::Text,
            Base::NumericEquals
            | Base::NumericNotEquals
            | Base::NumericLessThan
            | Base::NumericLessThanEquals
            | Base::NumericGreaterThan
            | Base::NumericGreaterThanEquals => Family::Numeric,
            Base::DateEquals
            | Base::DateNotEquals
            | Base::DateLessThan
            | Base::DateLessThanEquals
            | Base::DateGreaterThan
            | Base::DateGreaterThanEquals => Family::Date,
            Base::Bool => Family::Bool,
            Base::BinaryEquals => Family::Binary,
            Base::IpAddress | Base::NotIpAddress => Family::Address,
            Base::ArnEquals | Base::ArnLike | Base::ArnNotEquals | Base::ArnNotLike => Family::Arn,
            Base::Null => Family::Null,
        }
    }

    /// Whether the operator has `Not` in its name, so that no value of the policy may be met.
    pub fn is_negated(self) -> bool
        ensures { result ≡ is_negated self }
    {
        match self {
            Base::StringNotEquals
            | Base::StringNotEqualsIgnoreCase
            | Base::StringNotLike
            | Base::NumericNotEquals
            | Base::DateNotEquals
            | Base::NotIpAddress
            | Base::ArnNotEquals
            | Base::ArnNotLike => true,
            _ => false,
        }
    }

    /// Whether the operator is `Null`, which asks for absence alone.
    pub fn is_null(self) -> bool
        ensures { result ≡ is_null self }
    {
        match self {
            Base::Null => true,
            _ => false,
        }
    }

    /// How a number or a moment is to stand to the policy's, a negated operator read without its
    /// `Not`. It is `Equal` for the operators of other families, which compare nothing.
    pub fn compare(self) -> Compare
        ensures { result ≡ compare_of self }
    {
        match self {
            Base::NumericLessThan | Base::DateLessThan => Compare::Less,
            Base::NumericLessThanEquals | Base::DateLessThanEquals => Compare::LessOrEqual,
            Base::NumericGreaterThan | Base::DateGreaterThan => Compare::Greater,
            Base::NumericGreaterThanEquals | Base::DateGreaterThanEquals => Compare::GreaterOrEqual,
            _ => Compare::Equal,
        }
    }
}

/// Whether keys of the kind take the operators of the family.
pub fn takes_family(kind: Kind, family: Family) -> bool
    ensures { result ≡ takes_family kind family }
{
    match (kind, family) {
        (_, Family::Null) => true,
        (Kind::Text, Family::Text | Family::Arn | Family::Bool) => true,
        (Kind::Truth, Family::Text | Family::Bool) => true,
        (Kind::Number, Family::Numeric | Family::Date) => true,
        (Kind::Address, Family::Address) => true,
        (Kind::Bytes, Family::Binary) => true,
        _ => false,
    }
}
