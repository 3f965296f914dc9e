//! Texts that are read alone.
use cidr_bits::{
    Address, Block, bounds, contains, read_address, read_block, write_address, write_block,
};
use intervals::{Scaled, read_decimal, read_moment, write_decimal};
use std::alloc::{AllocError, Global};
use std::io;

/// What is printed of a text that a reader refuses.
const REFUSED: &str = "refused";

/// The number of the address in hex, and the address as it is written.
pub(crate) fn address(alloc: Global, text: &str) -> io::Result<String> {
    match read_address(text) {
        Ok(address) => Ok(numbered(alloc, &address)?),
        Err(_) => Ok(String::from_str(alloc, REFUSED)?),
    }
}

fn numbered(alloc: Global, address: &Address) -> Result<String, AllocError> {
    let written = write_address(alloc, address)?;
    let number = match *address {
        Address::V4(number) => number as u128,
        Address::V6(number) => number,
    };
    format!(in alloc; "{number:x} {written}")
}

/// The block as it is written, and its last address.
pub(crate) fn block(alloc: Global, text: &str) -> io::Result<String> {
    match read_block(text) {
        Ok(block) => Ok(bounded(alloc, &block)?),
        Err(_) => Ok(String::from_str(alloc, REFUSED)?),
    }
}

fn bounded(alloc: Global, block: &Block) -> Result<String, AllocError> {
    let (_, last) = bounds(block);
    let written = write_block(alloc, block)?;
    let last = write_address(alloc, &last)?;
    format!(in alloc; "{written} {last}")
}

/// Whether the block of the first word holds the address of the second.
pub(crate) fn inside(alloc: Global, text: &str) -> io::Result<String> {
    let (block, address) = text.split_once(' ').unwrap_or((text, ""));
    Ok(String::from_str(alloc, held(block, address))?)
}

fn held(block: &str, address: &str) -> &'static str {
    let Ok(block) = read_block(block) else {
        return REFUSED;
    };
    let Ok(address) = read_address(address) else {
        return REFUSED;
    };
    if contains(&block, &address) {
        "yes"
    } else {
        "no"
    }
}

/// The units of the decimal, and the decimal as it is written.
pub(crate) fn decimal(alloc: Global, text: &str) -> io::Result<String> {
    match read_decimal(text) {
        Ok(number) => Ok(scaled(alloc, number)?),
        Err(_) => Ok(String::from_str(alloc, REFUSED)?),
    }
}

fn scaled(alloc: Global, number: Scaled) -> Result<String, AllocError> {
    let units = number.units();
    let written = write_decimal(alloc, number)?;
    format!(in alloc; "{units} {written}")
}

/// The units of the moment.
pub(crate) fn moment(alloc: Global, text: &str) -> io::Result<String> {
    match read_moment(text) {
        Ok(moment) => {
            let units = moment.units();
            Ok(format!(in alloc; "{units}")?)
        }
        Err(_) => Ok(String::from_str(alloc, REFUSED)?),
    }
}
