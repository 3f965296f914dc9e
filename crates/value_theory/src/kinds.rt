//! Values of the plain kinds, and conditions on them.
ghost use Rattle.std.specs.Prelude.{◌≡◌};
ghost use Rattle.value_theory.specs.Meaning.{plain_kind};

use cidr_bits::{Address, Block};
use intervals::{ByteList, Compare, Scaled};
use plain_lists::List;

/// What a value is, other than a text.
#[derive(Clone, Copy, PartialEq, Eq, Hash)]
pub enum PlainKind {
    /// True or false.
    Truth,
    /// A whole number of 10^-9, less than 10^27 in size.
    Number,
    /// An IPv4 or an IPv6 address.
    Address,
    /// A list of bytes.
    Bytes,
}

/// A condition on a value.
#[derive(Drop)]
pub enum PlainCond {
    /// A number stands to the bound as named.
    Compares(Compare, Scaled),
    /// An address lies in the block.
    Inside(Block),
    /// True meets it where the first is set, and false where the second is.
    Flag(bool, bool),
    /// A byte string has these bytes.
    Equals(ByteList),
}

impl PlainCond {
    /// The kind of values that the condition is on.
    pub fn kind(&self) -> PlainKind
        ensures { result ≡ plain_kind self.now }
    {
        match self {
            PlainCond::Compares(_, _) => PlainKind::Number,
            PlainCond::Inside(_) => PlainKind::Address,
            PlainCond::Flag(_, _) => PlainKind::Truth,
            PlainCond::Equals(_) => PlainKind::Bytes,
        }
    }
}

/// A list of conditions.
pub type PlainCondList = List<PlainCond>;

/// A value of one of the kinds.
#[derive(Drop)]
pub enum PlainValue {
    /// True or false.
    Truth(bool),
    /// A number.
    Number(Scaled),
    /// An address.
    Address(Address),
    /// A byte string.
    Bytes(ByteList),
}
