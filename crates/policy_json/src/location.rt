//! Locations in a file.

/// A location in a file: the number of a document and that of a statement in it, both counted from 1, or 0
/// where it is in none.
#[derive(Clone, Copy)]
pub(crate) struct Location {
    pub(crate) document: u32,
    pub(crate) statement: u32,
}

/// The file as a whole.
pub(crate) const NOWHERE: Location = Location {
    document: 0,
    statement: 0,
};
