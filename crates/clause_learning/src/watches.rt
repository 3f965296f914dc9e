//! In which clauses each literal is watched.
use crate::store::Literal;
use plain_lists::NoMemory;
use std::alloc::Global;

/// A clause in which a literal is watched, and another literal of it: where that one is true the clause needn't be
/// read.
#[derive(Clone, Copy)]
pub(crate) struct Watch {
    pub(crate) number: u32,
    pub(crate) other: Literal,
}

/// By literal the clauses that are to be read where it becomes false: it is one of their first two literals.
#[derive(Drop)]
pub(crate) struct Watches {
    lists: Vec<Vec<Watch>>,
}

/// The number of a literal.
pub(crate) fn index_of(literal: Literal) -> usize {
    (literal.0 as usize)
        .saturating_mul(2)
        .saturating_add(usize::from(literal.1))
}

impl Watches {
    pub(crate) fn new(alloc: Global, variables: usize) -> Result<Watches, NoMemory> {
        let lists = vec![in alloc; Vec::new(alloc); variables.saturating_mul(2)]?;
        Ok(Watches { lists })
    }

    /// In how many clauses the literal is watched.
    pub(crate) fn count(&self, literal: Literal) -> usize {
        match self.lists.as_slice().get(index_of(literal)) {
            Some(watches) => watches.len(),
            None => 0,
        }
    }

    /// The clause at a place of the literal's list.
    pub(crate) fn get(&self, literal: Literal, place: usize) -> Option<Watch> {
        let watches = self.lists.as_slice().get(index_of(literal))?;
        watches.as_slice().get(place).copied()
    }

    /// Watches the literal in one more clause.
    pub(crate) fn push(&mut self, literal: Literal, watch: Watch) -> Result<(), NoMemory> {
        if let Some(watches) = self.lists.get_mut(index_of(literal)) {
            watches.push(watch)?;
        }
        Ok(())
    }

    /// Watches the literal no longer in the clause at the place, which the last one of the list takes.
    pub(crate) fn remove(&mut self, literal: Literal, place: usize) {
        if let Some(watches) = self.lists.get_mut(index_of(literal)) {
            if place < watches.len() {
                watches.swap_remove(place);
            }
        }
    }
}
