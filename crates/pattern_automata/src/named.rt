//! At which marks pieces name characters, as bits: word by word, and of each word only the characters
//! that its pieces name.
ghost use Rattle.std.specs.Prelude.{◌≡◌, ◌*◌, ◌+◌, ◌/◌, ◌<◌, ◌≤◌, ◌||◌, ◌==◌, ℕ, None, length, slice_index_or, IfOk, MatchOption, OnOk};
ghost use Rattle.pattern_automata.specs.Packed.{is_bit_on};
ghost use Rattle.pattern_automata.specs.Named.{bits_of, AddsBit, AddsFront, AddsPiece, HaveNames, HasNamesAt, HasNone, IsPosition};

use plain_lists::NoMemory;
use std::alloc::Global;
use wildcard_lang::Piece;

/// A character, and the marks of one word before which a piece names it, as bits.
#[derive(Clone, Copy)]
pub struct Named {
    pub character: char,
    pub bits: u64,
}

/// The word with the bit set.
fn with_bit(word: u64, bit: usize) -> u64
    requires { bit < 64 }
    ensures { (i : ℕ) → is_bit_on result i ≡ (is_bit_on word i || (i == bit)) }
{
    word | (1 << bit)
}

/// Where the character stands in the list.
fn position(named: &[Named], c: char) -> Option<usize>
    ensures { MatchOption result (HasNone c named.now) (IsPosition c named.now) }
{
    for i in 0..named.len() {
        if named[i].character == c {
            return Some(i);
        }
    }
    None
}

/// The bits of the character.
pub fn bits_of(named: &[Named], c: char) -> u64
    ensures { result ≡ bits_of named.now c }
{
    for own in named {
        if own.character == c {
            return own.bits;
        }
    }
    0
}

/// Adds the bit to those of the character.
fn add_bit(named: &mut Vec<Named>, c: char, bit: usize) -> Result<(), NoMemory>
    requires { bit < 64 }
    ensures { OnOk result (AddsBit named.old.items c bit named.new.items) }
{
    match position(named.as_slice(), c) {
        Some(i) => {
            let bits = with_bit(named[i].bits, bit);
            named[i] = Named { character: c, bits };
        }
        None => {
            let bits = with_bit(0, bit);
            named.push(Named { character: c, bits })?;
        }
    }
    Ok(())
}

/// Adds the bit to those of each character that the piece names.
fn add_piece(named: &mut Vec<Named>, piece: Piece, bit: usize) -> Result<(), NoMemory>
    requires { bit < 64 }
    ensures { OnOk result (AddsPiece named.old.items piece bit named.new.items) }
{
    match piece {
        Piece::Lit(c) => add_bit(named, c, bit),
        Piece::LitFold(c) => {
            add_bit(named, c, bit)?;
            add_bit(named, c.to_ascii_uppercase(), bit)
        }
        _ => Ok(()),
    }
}

/// Adds the character that the first piece names, if there is a piece.
fn add_front(named: &mut Vec<Named>, front: Option<Piece>, bit: usize) -> Result<(), NoMemory>
    requires { bit < 64 }
    ensures { OnOk result (AddsFront named.old.items front bit named.new.items) }
{
    match front {
        Some(piece) => add_piece(named, piece, bit),
        None => Ok(()),
    }
}

/// The piece before a mark, if there is one.
fn front_at(fronts: &[Option<Piece>], mark: usize) -> Option<Piece>
    ensures { result ≡ slice_index_or fronts.now mark None }
{
    match fronts.get(mark) {
        Some(front) => *front,
        None => None,
    }
}

/// What the pieces of one word name.
fn named_at(alloc: Global, fronts: &[Option<Piece>], index: usize) -> Result<Vec<Named>, NoMemory>
    requires { 64 * index ≤ length fronts.now }
    ensures { IfOk result (λ v. HasNamesAt fronts.now index v.items) }
{
    let mut named = Vec::with_capacity(alloc, 32)?;
    for bit in 0..64usize {
        add_front(&mut named, front_at(fronts, 64 * index + bit), bit)?;
    }
    Ok(named)
}

/// What the pieces name, word by word.
pub fn named_by(alloc: Global, fronts: &[Option<Piece>]) -> Result<Vec<Vec<Named>>, NoMemory>
    ensures { IfOk result (λ v. HaveNames fronts.now v.items) }
{
    let mut named = Vec::new(alloc);
    for index in 0..fronts.len() / 64 + 1 {
        named.push(named_at(alloc, fronts, index)?)?;
    }
    Ok(named)
}
