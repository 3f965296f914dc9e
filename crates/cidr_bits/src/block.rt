//! Blocks of addresses.
ghost use Rattle.std.specs.Prelude.{◌≡◌, ◌≤◌, ◌-◌, ◌%◌, ◌^◌};
ghost use Rattle.std.proofs.Common.{rules};
ghost use Rattle.cidr_bits.specs.Numbers.{width, number};

use crate::address::Address;
use plain_lists::EqualClone;

/// The addresses of one family whose first `prefix` bits are those of `first` (RFC 4632 for IPv4,
/// RFC 4291 section 2.3 for IPv6). The prefix length is at most 32 or 128, and the bits of `first`
/// after the prefix are zero, so `first` is the least address of the block.
#[derive(Clone, Copy, PartialEq, Eq, Hash)]
pub struct Block {
    /// The least address of the block.
    pub first: Address,
    /// How many bits the addresses of the block share.
    pub prefix: u8,
    ghost fits: { prefix ≤ width first },
    ghost clear: { number first % 2 ^ (width first - prefix) ≡ 0 },
}

impl EqualClone for Block {
    ghost clones_are_equal = { Prim.search rules };
}
