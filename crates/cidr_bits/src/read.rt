//! Texts to addresses and blocks.
ghost use Rattle.std.specs.Prelude.{◌≡◌, ◌+◌, ◌-◌, ◌*◌, ◌/◌, ◌^◌, ◌≤◌, ◌↔◌, IsTrue};
ghost use Rattle.std.specs.Result.{result_ok};
ghost use Rattle.std.specs.Int.Digits.{number_from_digits};
ghost use Rattle.std.specs.Net.Addr.{ipv4_octets, ipv6_segments};
ghost use Rattle.cidr_bits.specs.Numbers.{width, network_address};
ghost use Rattle.cidr_bits.specs.Forms.{IsPlain, ReadsAddress, ReadsBlock, ReadsWhole, ReadsLength};
ghost use Rattle.cidr_bits.specs.Readings.{address_of, block_spelled};

use crate::address::{Address, BadAddress};
use crate::block::Block;
use std::net::{IpAddr, Ipv4Addr, Ipv6Addr};

/// The address that the text spells: an IPv4 address as four decimal numbers joined by points, or
/// an IPv6 address by RFC 4291, section 2.2. `BadAddress` exactly where the text spells none.
pub fn read_address(text: &str) -> Result<Address, BadAddress>
    ensures form { ReadsAddress text.now result }
    ensures value { result_ok result ≡ address_of text.now }
{
    match text.parse::<IpAddr>() {
        Ok(IpAddr::V4(address)) => Ok(Address::V4(number_of_octets(address))),
        Ok(IpAddr::V6(address)) => Ok(Address::V6(number_of_groups(address))),
        Err(_) => Err(BadAddress),
    }
}

fn number_of_octets(address: Ipv4Addr) -> u32
    ensures { result ≡ number_from_digits 256 (ipv4_octets address) }
{
    let [a, b, c, d] = address.octets();
    ((a as u32 * 256 + b as u32) * 256 + c as u32) * 256 + d as u32
}

fn number_of_groups(address: Ipv6Addr) -> u128
    ensures { result ≡ number_from_digits 65536 (ipv6_segments address) }
{
    let [a, b, c, d, e, f, g, h] = address.segments();
    let high = four_groups(a, b, c, d);
    let low = four_groups(e, f, g, h);
    high as u128 * 0x1_0000_0000_0000_0000 + low as u128
}

fn four_groups(a: u16, b: u16, c: u16, d: u16) -> u64
    ensures { result ≡ ((a * 65536 + b) * 65536 + c) * 65536 + d }
{
    ((a as u64 * 65536 + b as u64) * 65536 + c as u64) * 65536 + d as u64
}

/// The block that the text spells: an address, which `/` and a prefix length may follow, a decimal
/// number without leading zeros of at most 32 or 128. A missing prefix length is 32 or 128, and the
/// bits of the address after the prefix are ignored. `BadAddress` exactly where the text spells none.
pub fn read_block(text: &str) -> Result<Block, BadAddress>
    ensures form { ReadsBlock text.now result }
    ensures value { result_ok result ≡ block_spelled text.now }
{
    let Some((front, length)) = text.split_once('/') else {
        return read_whole(text);
    };
    let Ok(address) = read_address(front) else {
        return Err(BadAddress);
    };
    match read_length(length, bits_of(address)) {
        Ok(prefix) => Ok(block_at(address, prefix)),
        Err(_) => Err(BadAddress),
    }
}

// The block of one address.
fn read_whole(text: &str) -> Result<Block, BadAddress>
    ensures { ReadsWhole text.now result }
{
    match read_address(text) {
        Ok(address) => Ok(block_at(address, bits_of(address))),
        Err(_) => Err(BadAddress),
    }
}

// The block of this prefix length that the address lies in.
fn block_at(address: Address, prefix: u8) -> Block
    requires { prefix ≤ width address }
    ensures first { result.first ≡ network_address address prefix }
    ensures prefix { result.prefix ≡ prefix }
{
    let first = network_address(address, prefix);
    Block { first, prefix }
}

// The address with each bit after the first `prefix` ones set to zero.
fn network_address(address: Address, prefix: u8) -> Address
    requires { prefix ≤ width address }
    ensures { result ≡ network_address address prefix }
{
    match address {
        Address::V4(number) => Address::V4(clear_last(number as u128, 32 - prefix) as u32),
        Address::V6(number) => Address::V6(clear_last(number, 128 - prefix)),
    }
}

fn bits_of(address: Address) -> u8
    ensures { result ≡ width address }
{
    match address {
        Address::V4(_) => 32,
        Address::V6(_) => 128,
    }
}

// The number with each of its last `free` bits set to zero.
fn clear_last(number: u128, free: u8) -> u128
    requires { free ≤ 128 }
    ensures { result ≡ number / 2 ^ free * 2 ^ free }
{
    if free == 128 {
        0
    } else {
        number - number % (1u128 << free)
    }
}

// The prefix length that the digits after `/` write.
fn read_length(text: &str, most: u8) -> Result<u8, BadAddress>
    ensures { ReadsLength most text.now result }
{
    if !is_plain(text.as_bytes()) {
        return Err(BadAddress);
    }
    match text.parse::<u8>() {
        Ok(length) if length <= most => Ok(length),
        _ => Err(BadAddress),
    }
}

// Whether the digits have no sign and no leading zero.
fn is_plain(digits: &[u8]) -> bool
    ensures { IsTrue result ↔ IsPlain digits.now }
{
    match digits {
        [b'+', ..] => false,
        [b'0', rest @ ..] => rest.is_empty(),
        _ => true,
    }
}
