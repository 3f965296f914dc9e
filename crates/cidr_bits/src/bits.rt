//! Which addresses lie in a block.
ghost use Rattle.std.specs.Prelude.{◌≡◌, ◌+◌, ◌-◌, ◌*◌, ◌/◌, ◌%◌, ◌^◌, ◌<◌, ◌≤◌, ◌↔◌, IsTrue, true};
ghost use Rattle.cidr_bits.specs.Numbers.{width, number, same_family, lies_in};
ghost use Rattle.cidr_bits.specs.Blocks.{AreDisjoint, block_size, IsLeast, IsGreatest};

use crate::address::Address;
use crate::block::Block;

/// Whether the address lies in the block: it is of the block's family, and its first `prefix` bits
/// are those of the block.
pub fn contains(block: &Block, address: &Address) -> bool
    ensures { result ≡ lies_in block.now.first block.now.prefix address.now }
{
    is_inside(block.first, block.prefix, *address)
}

/// Whether no address lies in both blocks. Of two blocks that share an address, one lies in the other.
pub fn are_disjoint(one: &Block, other: &Block) -> bool
    ensures { IsTrue result ↔ AreDisjoint one.now other.now }
{
    !contains(one, &other.first) && !contains(other, &one.first)
}

fn is_inside(first: Address, prefix: u8, address: Address) -> bool
    requires { prefix ≤ width first }
    ensures { result ≡ lies_in first prefix address }
{
    match (first, address) {
        (Address::V4(first), Address::V4(number)) => {
            let free = 32 - prefix;
            without_last(number as u128, free) == without_last(first as u128, free)
        }
        (Address::V6(first), Address::V6(number)) => {
            let free = 128 - prefix;
            without_last(number, free) == without_last(first, free)
        }
        _ => false,
    }
}

/// The least and the greatest address of the block. The least is its first, and the block has as many
/// addresses as the bits after the prefix have values.
pub fn bounds(block: &Block) -> (Address, Address)
    ensures least { IsLeast block.now result.0 }
    ensures greatest { IsGreatest block.now result.1 }
    ensures first { result.0 ≡ block.now.first }
    ensures family { same_family block.now.first result.1 ≡ true }
    ensures count { number result.1 + 1 ≡ number block.now.first + block_size block.now }
{
    (block.first, last_address(block.first, block.prefix))
}

// The greatest address with the first `prefix` bits of `first`, in which no later bit is one.
fn last_address(first: Address, prefix: u8) -> Address
    requires fits { prefix ≤ width first }
    requires clear { number first % 2 ^ (width first - prefix) ≡ 0 }
    ensures family { same_family first result ≡ true }
    ensures value { number result + 1 ≡ number first + 2 ^ (width first - prefix) }
{
    match first {
        Address::V4(first) => Address::V4(last_number(first as u128, 32 - prefix, 32) as u32),
        Address::V6(first) => Address::V6(last_number(first, 128 - prefix, 128)),
    }
}

// The number, whose last `free` of `bits` bits are zero, with those bits set to one. Only the clauses
// read `bits`: by it the sum is shown to fit.
fn last_number(first: u128, free: u8, bits: u8) -> u128
    requires free { free ≤ bits }
    requires bits { bits ≤ 128 }
    requires fits { first < 2 ^ bits }
    requires clear { first % 2 ^ free ≡ 0 }
    ensures value { result + 1 ≡ first + 2 ^ free }
    ensures fits { result < 2 ^ bits }
{
    first + number_of_ones(free)
}

// The number without its last `free` bits.
fn without_last(number: u128, free: u8) -> u128
    requires { free ≤ 128 }
    ensures { result ≡ number / 2 ^ free }
{
    if free == 128 { 0 } else { number >> free }
}

// The number with as many bits, each of them one.
fn number_of_ones(bits: u8) -> u128
    requires { bits ≤ 128 }
    ensures { result + 1 ≡ 2 ^ bits }
{
    if bits == 128 {
        u128::MAX
    } else {
        (1u128 << bits) - 1
    }
}
