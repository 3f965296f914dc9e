//! Addresses as numbers.
ghost use Rattle.std.proofs.Common.{rules};

use plain_lists::EqualClone;

/// An IPv4 or an IPv6 address, as the number whose bits are those of the address, the first bit of
/// the address being the highest.
#[derive(Clone, Copy, PartialEq, Eq, Hash)]
pub enum Address {
    /// An IPv4 address: 32 bits.
    V4(u32),
    /// An IPv6 address: 128 bits.
    V6(u128),
}

impl EqualClone for Address {
    ghost clones_are_equal = { Prim.search rules };
}

/// The answer of a reader where the text isn't of its form.
#[derive(Clone, Copy)]
pub struct BadAddress;
