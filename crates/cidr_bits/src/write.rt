//! Addresses and blocks to texts.
ghost use Rattle.std.specs.Prelude.{◌≡◌, ◌/◌, ◌%◌, [], ◌∷◌, ◌++◌, IfOk, string_bytes, decimal};
ghost use Rattle.std.specs.Net.Text.{dotted_text, groups_text};
ghost use Rattle.cidr_bits.specs.Texts.{address_text, block_text, last_digits};

use crate::address::Address;
use crate::block::Block;
use plain_lists::NoMemory;
use std::alloc::Global;

/// The text of an address: an IPv4 address as its four octets in decimal, and an IPv6 address as its
/// eight groups in lower-case hex, without leading zeros and without `::`.
pub fn write_address(alloc: Global, address: &Address) -> Result<String, NoMemory>
    ensures { IfOk result (λ s. string_bytes s ≡ address_text address.now) }
{
    match *address {
        Address::V4(number) => {
            let [a, b, c, d] = octets_of(number);
            write_octets(alloc, a, b, c, d)
        }
        Address::V6(number) => {
            let [a, b, c, d, e, f, g, h] = groups_of(number);
            let high = write_four_groups(alloc, a, b, c, d)?;
            let low = write_four_groups(alloc, e, f, g, h)?;
            join(alloc, high.as_str(), ":", low.as_str())
        }
    }
}

/// The text of a block: its first address, `/` and its prefix length, which always stands.
pub fn write_block(alloc: Global, block: &Block) -> Result<String, NoMemory>
    ensures { IfOk result (λ s. string_bytes s ≡ block_text block.now.first block.now.prefix) }
{
    let first = write_address(alloc, &block.first)?;
    let prefix = write_number(alloc, block.prefix)?;
    join(alloc, first.as_str(), "/", prefix.as_str())
}

fn join(alloc: Global, first: &str, between: &str, second: &str) -> Result<String, NoMemory>
    ensures { IfOk result (λ s. string_bytes s ≡ first.now ++ between.now ++ second.now) }
{
    format!(in alloc; "{first}{between}{second}")
}

fn write_number(alloc: Global, number: u8) -> Result<String, NoMemory>
    ensures { IfOk result (λ s. string_bytes s ≡ decimal number) }
{
    format!(in alloc; "{number}")
}

fn write_octets(alloc: Global, a: u8, b: u8, c: u8, d: u8) -> Result<String, NoMemory>
    ensures { IfOk result (λ s. string_bytes s ≡ dotted_text a b c d) }
{
    format!(in alloc; "{a}.{b}.{c}.{d}")
}

fn write_four_groups(alloc: Global, a: u16, b: u16, c: u16, d: u16) -> Result<String, NoMemory>
    ensures { IfOk result (λ s. string_bytes s ≡ groups_text (a ∷ b ∷ c ∷ d ∷ [])) }
{
    format!(in alloc; "{a:x}:{b:x}:{c:x}:{d:x}")
}

// The four octets of an IPv4 address, the highest first.
fn octets_of(number: u32) -> [u8; 4]
    ensures { result ≡ last_digits 256 4 number }
{
    let (high, d) = last_octet(number);
    let (high, c) = last_octet(high);
    let (high, b) = last_octet(high);
    let (_, a) = last_octet(high);
    [a, b, c, d]
}

fn last_octet(number: u32) -> (u32, u8)
    ensures rest { result.0 ≡ number / 256 }
    ensures last { result.1 ≡ number % 256 }
{
    (number / 256, (number % 256) as u8)
}

// The eight groups of an IPv6 address, the highest first.
fn groups_of(number: u128) -> [u16; 8]
    ensures { result ≡ last_digits 65536 8 number }
{
    let (high, h) = last_group(number);
    let (high, g) = last_group(high);
    let (high, f) = last_group(high);
    let (high, e) = last_group(high);
    let (high, d) = last_group(high);
    let (high, c) = last_group(high);
    let (high, b) = last_group(high);
    let (_, a) = last_group(high);
    [a, b, c, d, e, f, g, h]
}

fn last_group(number: u128) -> (u128, u16)
    ensures rest { result.0 ≡ number / 65536 }
    ensures last { result.1 ≡ number % 65536 }
{
    (number / 65536, (number % 65536) as u16)
}
