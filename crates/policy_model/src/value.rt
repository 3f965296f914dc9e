//! Values of condition keys.
ghost use Rattle.std.proofs.Common.{rules};

use cidr_bits::Address;
use intervals::{ByteList, Scaled};
use plain_lists::{EqualClone, List};
use wildcard_lang::Text;

/// The kinds of values that a condition key may have.
#[derive(Clone, Copy, Debug, PartialEq, Eq, Hash)]
pub enum Kind {
    Text,
    Truth,
    Number,
    Address,
    Bytes,
}

/// A value of a condition key.
#[derive(Clone, Drop, PartialEq, Eq)]
pub enum Value {
    Word(Text),
    Truth(bool),
    /// A whole number of units of 10^-9, less than 10^27 in size. A moment is one since
    /// 1970-01-01T00:00:00Z.
    Number(Scaled),
    /// An IPv4 or an IPv6 address.
    Address(Address),
    /// A byte string.
    Bytes(ByteList),
}

impl EqualClone for Value {
    ghost clones_are_equal = { Prim.search rules };
}

/// A list of values.
pub type ValueList = List<Value>;
