//! Product states that wait to be stepped, by how many pieces are left.

use plain_lists::NoMemory;
use std::alloc::Global;

/// The indices of product states that wait: of each number of pieces left those in the order in which
/// they were put in.
#[derive(Drop)]
pub struct Waiting {
    alloc: Global,
    by_left: Vec<Vec<usize>>,
}

impl Waiting {
    pub fn new(alloc: Global) -> Waiting {
        Waiting {
            alloc,
            by_left: Vec::new(alloc),
        }
    }

    /// Puts in the product state at an index.
    pub fn push(&mut self, left: usize, index: usize) -> Result<(), NoMemory> {
        for _ in self.by_left.len()..left.saturating_add(1) {
            self.by_left.push(Vec::new(self.alloc))?;
        }
        if let Some(same) = self.by_left.as_mut_slice().get_mut(left) {
            same.push(index)?;
        }
        Ok(())
    }

    /// Takes out one that has the fewest pieces left, and of those the last.
    pub fn pop(&mut self) -> Option<usize> {
        for left in 0..self.by_left.len() {
            if let Some(index) = self.by_left[left].pop() {
                return Some(index);
            }
        }
        None
    }
}
