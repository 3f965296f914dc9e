//! Values that slots were found to have, which may answer later tests too. They are guesses: nothing rests on them.
use crate::asked::Asked;
use formula_tree::Path;
use plain_lists::NoMemory;
use policy_model::{Slot, Test};
use request_build::SlotValues;
use slot_theory::{SlotValue, meets, slot_of};
use std::alloc::Global;
use text_table::Table;

// Slots that aren't keys have the first numbers.
const FIRST_KEY: usize = 3;

#[derive(Drop)]
pub struct Guesses {
    // The number of each key that is a slot.
    keys: Table<usize>,
    // By test the number of its slot.
    numbers: Vec<usize>,
    // By slot the value that it was found to have last.
    values: Vec<Option<SlotValue>>,
}

impl Guesses {
    /// No value yet, of any slot of the tests.
    pub fn new(alloc: Global, tests: &[Test]) -> Result<Guesses, NoMemory> {
        let mut guesses = Guesses {
            keys: Table::new(alloc),
            numbers: Vec::new(alloc),
            values: Vec::new(alloc),
        };
        for _ in 0..FIRST_KEY {
            guesses.values.push(None)?;
        }
        for test in tests {
            let number = guesses.number_of(slot_of(alloc, test)?)?;
            guesses.numbers.push(number)?;
        }
        Ok(guesses)
    }

    // The number of the slot, a new one where it has none.
    fn number_of(&mut self, slot: Slot) -> Result<usize, NoMemory> {
        match slot {
            Slot::Principal => Ok(0),
            Slot::Action => Ok(1),
            Slot::Resource => Ok(2),
            Slot::Key(key) => {
                if let Some(number) = self.keys.get(&key) {
                    return Ok(*number);
                }
                let number = self.values.len();
                self.keys.insert(key, number)?;
                self.values.push(None)?;
                Ok(number)
            }
        }
    }

    fn number_at(&self, test: u32) -> usize {
        match self.numbers.as_slice().get(test as usize) {
            Some(number) => *number,
            None => 0,
        }
    }

    // Whether the last value of the test's slot gives the test the answer.
    fn gives(&self, tests: &[Test], test: u32, answer: bool) -> bool {
        let Some(Some(value)) = self.values.as_slice().get(self.number_at(test)) else {
            return false;
        };
        match tests.get(test as usize) {
            Some(test) => meets(value, test) == answer,
            None => false,
        }
    }

    /// The answers of those slots whose last value doesn't give all of the path's. Those that are yes come last: a
    /// slot's question begins with the last, and what is to be has fewer values than what isn't.
    pub fn unsettled(&self, asked: &Asked<'_>, path: &Path) -> Result<Path, NoMemory> {
        let tests = asked.query.tests.as_slice();
        let mut settled = vec![in asked.alloc; true; self.values.len()]?;
        for (test, answer) in path.as_slice() {
            if !self.gives(tests, *test, *answer) {
                if let Some(own) = settled.get_mut(self.number_at(*test)) {
                    *own = false;
                }
            }
        }
        let mut open = Path::new(asked.alloc);
        self.add_unsettled(settled.as_slice(), path, false, &mut open)?;
        self.add_unsettled(settled.as_slice(), path, true, &mut open)?;
        Ok(open)
    }

    // Adds the answers of this kind of slots that aren't settled.
    fn add_unsettled(
        &self,
        settled: &[bool],
        path: &Path,
        kind: bool,
        open: &mut Path,
    ) -> Result<(), NoMemory> {
        for (test, answer) in path.as_slice() {
            let is_settled = settled.get(self.number_at(*test)) == Some(&true);
            if *answer == kind && !is_settled && open.answer(*test).is_none() {
                open.push(*test, *answer)?;
            }
        }
        Ok(())
    }

    /// Keeps the values as the last ones of their slots.
    pub fn keep(&mut self, values: &SlotValues) -> Result<(), NoMemory> {
        for (slot, value) in values.as_slice() {
            let number = self.number_of(slot.clone()?)?;
            let value = value.copy()?;
            if let Some(last) = self.values.get_mut(number) {
                *last = Some(value);
            }
        }
        Ok(())
    }
}
