//! What a policy asks of one value of a condition key.
ghost use Rattle.std.specs.Prelude.{◌≡◌, ◌↔◌, IsTrue};
ghost use Rattle.std.proofs.Common.{rules};
ghost use Rattle.policy_model.specs.Conds.{CondMeets, MeetsSome, SharesNoValue, cond_kind};
ghost use Rattle.policy_model.specs.declared.cond.Cond.TheVariants as cond;

use crate::value::{Kind, Value};
use cidr_bits::{Block, are_disjoint, contains};
use intervals::{ByteList, Compare, Scaled, satisfies};
use plain_lists::{EqualClone, List};
use wildcard_lang::{Pattern, clashes, matches};

/// What is asked of one value.
#[derive(Clone, Drop, PartialEq, Eq, Hash)]
pub enum Cond {
    /// A text matches the pattern.
    Matches(Pattern),
    /// A number stands to this one as named.
    Compares(Compare, Scaled),
    /// An address lies in the block.
    Inside(Block),
    /// True meets it where the first is set, and false where the second is.
    Flag(bool, bool),
    /// A byte string has these bytes.
    Equals(ByteList),
}

impl EqualClone for Cond {
    ghost clones_are_equal = { Prim.search rules };
}

/// A list of what is asked.
pub type CondList = List<Cond>;

impl Cond {
    /// The kind of the values that it is about.
    pub fn kind(&self) -> Kind
        ensures { result ≡ cond_kind self.now }
    {
        match self {
            Cond::Matches(_) => Kind::Text,
            Cond::Compares(_, _) => Kind::Number,
            Cond::Inside(_) => Kind::Address,
            Cond::Flag(_, _) => Kind::Truth,
            Cond::Equals(_) => Kind::Bytes,
        }
    }
}

/// Whether the value meets what is asked. A value of another kind never does. It takes no memory.
pub fn cond_meets(value: &Value, cond: &Cond) -> bool
    ensures { IsTrue result ↔ CondMeets value.now cond.now }
{
    match cond {
        Cond::Matches(pattern) => word_matches(value, pattern),
        Cond::Compares(compare, bound) => number_stands(value, *compare, *bound),
        Cond::Inside(block) => address_is_inside(value, block),
        Cond::Flag(at_true, at_false) => truth_is_taken(value, *at_true, *at_false),
        Cond::Equals(bytes) => bytes_are(value, bytes),
    }
}

pub(crate) fn word_matches(value: &Value, pattern: &Pattern) -> bool
    ensures { IsTrue result ↔ CondMeets value.now (cond.Matches pattern.now) }
{
    match value {
        Value::Word(text) => matches(pattern, text),
        _ => false,
    }
}

pub(crate) fn number_stands(value: &Value, compare: Compare, bound: Scaled) -> bool
    ensures { IsTrue result ↔ CondMeets value.now (cond.Compares compare bound) }
{
    match value {
        Value::Number(number) => satisfies(compare, bound, *number),
        _ => false,
    }
}

pub(crate) fn address_is_inside(value: &Value, block: &Block) -> bool
    ensures { IsTrue result ↔ CondMeets value.now (cond.Inside block.now) }
{
    match value {
        Value::Address(address) => contains(block, address),
        _ => false,
    }
}

pub(crate) fn truth_is_taken(value: &Value, at_true: bool, at_false: bool) -> bool
    ensures { IsTrue result ↔ CondMeets value.now (cond.Flag at_true at_false) }
{
    match value {
        Value::Truth(true) => at_true,
        Value::Truth(false) => at_false,
        _ => false,
    }
}

pub(crate) fn bytes_are(value: &Value, bytes: &ByteList) -> bool
    ensures { IsTrue result ↔ CondMeets value.now (cond.Equals bytes.now) }
{
    match value {
        Value::Bytes(own) => *own == *bytes,
        _ => false,
    }
}

/// Whether the value meets some of what is asked. It takes no memory.
pub fn meets_some(value: &Value, conds: &CondList) -> bool
    ensures { IsTrue result ↔ MeetsSome conds.now value.now }
{
    conds.as_slice().iter().any(|cond| cond_meets(value, cond))
}

/// Whether no value meets both. The answer may be no although none does: for patterns that differ neither in their
/// beginnings nor in their ends, and for two numbers neither of which is to be met exactly. It takes no memory.
pub fn are_conds_apart(one: &Cond, other: &Cond) -> bool
    ensures { IsTrue result → SharesNoValue one.now other.now }
{
    match (one, other) {
        (Cond::Matches(first), Cond::Matches(second)) => clashes(first, second),
        (Cond::Compares(Compare::Equal, number), Cond::Compares(compare, bound)) => {
            !satisfies(*compare, *bound, *number)
        }
        (Cond::Compares(compare, bound), Cond::Compares(Compare::Equal, number)) => {
            !satisfies(*compare, *bound, *number)
        }
        (Cond::Inside(first), Cond::Inside(second)) => are_disjoint(first, second),
        (Cond::Flag(at_true, at_false), Cond::Flag(also_at_true, also_at_false)) => {
            !(*at_true && *also_at_true) && !(*at_false && *also_at_false)
        }
        (Cond::Equals(first), Cond::Equals(second)) => first != second,
        _ => false,
    }
}
