//! IPv4 and IPv6 addresses and blocks of addresses: reading, writing, and which addresses lie in a
//! block.
#![tactic(auto)]

mod address;
mod bits;
mod block;
mod meanings;
mod read;
mod write;

pub use address::{Address, BadAddress};
pub use bits::{are_disjoint, bounds, contains};
pub use block::Block;
pub use meanings::{
    address_is_read_back, address_of_is_the_form, block_is_read_back, block_of_is_the_form,
    text_spells_one_address, text_spells_one_block, written_address_spells, written_block_spells,
};
pub use read::{read_address, read_block};
pub use write::{write_address, write_block};
