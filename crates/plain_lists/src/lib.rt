//! The one list type of the workspace: a list that grows at its end. Contracts see it as the plain
//! list of its items.
#![tactic(auto)]

ghost use Rattle.std.specs.Prelude.{◌≡◌, ◌++◌, ◌↔◌, [], ◌∷◌, length, slice_get, IsTrue, OnOk, OnErr};
ghost use Rattle.std.specs.Option.{option_copied};

mod equal;
mod equal_clone;
mod growing;

pub use equal_clone::EqualClone;
pub use growing::fill_to;
use std::alloc::{AllocError, Global};
use std::marker::Model;

/// The answer of a call that found no memory. It is one type in all crates of the workspace.
pub type NoMemory = AllocError;

/// A list of items, in the order in which they were put in. It keeps its allocator.
#[derive(Drop)]
pub struct List<T> {
    items: Vec<T>,
}

impl<T> Model for List<T> {
    ghost use Rattle.std.specs.Prelude.{List};

    ghost Value = { List T };

    ghost view = { λ l. l.items.items };
}

impl<T> List<T> {
    /// The empty list. It takes no memory.
    pub fn new(alloc: Global) -> List<T>
        ensures { result ≡ [] }
    {
        List {
            items: Vec::new(alloc),
        }
    }

    /// The list of a vector's items. It takes no memory.
    pub fn from_vec(items: Vec<T>) -> List<T>
        ensures { result ≡ items.items }
    {
        List { items }
    }

    /// The vector of the list's items. It takes no memory.
    pub fn into_vec(self) -> Vec<T>
        ensures { result.items ≡ self }
    {
        self.items
    }

    /// The items.
    pub fn as_slice(&self) -> &[T]
        ensures { result.now ≡ self.now }
    {
        self.items.as_slice()
    }

    /// How many items there are.
    pub fn len(&self) -> usize
        ensures { result ≡ length self.now }
    {
        self.items.len()
    }

    /// Whether there is no item.
    pub fn is_empty(&self) -> bool
        ensures { IsTrue result ↔ (self.now ≡ []) }
    {
        self.items.is_empty()
    }

    /// The item at an index, counted from 0, or none where the list has no such index.
    pub fn get(&self, i: usize) -> Option<&T>
        ensures { option_copied result ≡ slice_get self.now i }
    {
        self.items.as_slice().get(i)
    }
}

impl<T: Drop> List<T> {
    /// Adds an item at the end. Where there is no memory the list stays as it was, and the item is
    /// dropped.
    pub fn push(&mut self, item: T) -> Result<(), NoMemory>
        ensures ok { OnOk result (self.new ≡ self.old ++ item ∷ []) }
        ensures err { OnErr result (self.new ≡ self.old) }
    {
        self.items.push(item)?;
        Ok(())
    }
}
