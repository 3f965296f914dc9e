//! Laws of reading and writing. The functions do nothing: their contracts are the laws.
ghost use Rattle.cidr_bits.specs.Laws.{OneAddress, OneBlock, AddressOfIsTheForm, BlockOfIsTheForm, AddressIsSpelled, BlockIsSpelled, AddressReadBack, BlockReadBack};

/// A text spells one address at most.
pub fn text_spells_one_address()
    ensures { OneAddress }
{}

/// A text spells one block at most.
pub fn text_spells_one_block()
    ensures { OneBlock }
{}

/// What `address_of` computes is what the forms of an address say.
pub fn address_of_is_the_form()
    ensures { AddressOfIsTheForm }
{}

/// What `block_of` computes is what the form of a block says.
pub fn block_of_is_the_form()
    ensures { BlockOfIsTheForm }
{}

/// What is written for an address is of an address's form, and spells that address.
pub fn written_address_spells()
    ensures { AddressIsSpelled }
{}

/// What is written for a block is of a block's form, and spells that block.
pub fn written_block_spells()
    ensures { BlockIsSpelled }
{}

/// What is written for an address is read as that address.
pub fn address_is_read_back()
    ensures { AddressReadBack }
{}

/// What is written for a block is read as that block.
pub fn block_is_read_back()
    ensures { BlockReadBack }
{}
