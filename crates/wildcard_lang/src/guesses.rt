//! Numbers that decided something before, kept as guesses of what decides it again. Nothing is promised of them.

// How many guesses are kept.
const MOST_GUESSES: usize = 64;

// Numbers are kept by what is left of them after division by this, so that a ring is small. The places of a run are less.
pub(crate) const NUMBERS: usize = 65_536;

// The numbers that were kept last, as a ring: the oldest gives way to the newest. They are asked from the one that was
// right last, and then in the order in which they were kept, since what comes in turn comes in that order again.
#[derive(Clone, Copy)]
pub(crate) struct Guesses {
    numbers: [u16; MOST_GUESSES],
    kept: usize,
    last: usize,
}

impl Guesses {
    // No number yet.
    pub(crate) fn none() -> Guesses {
        Guesses {
            numbers: [0; MOST_GUESSES],
            kept: 0,
            last: 0,
        }
    }

    // How many there are.
    pub(crate) fn count(&self) -> usize {
        if self.kept < MOST_GUESSES {
            self.kept
        } else {
            MOST_GUESSES
        }
    }

    // The guess that is asked behind so many others.
    pub(crate) fn get(&self, i: usize) -> usize {
        usize::from(self.numbers[self.last.wrapping_add(i) % MOST_GUESSES])
    }

    // Asks this guess first the next time.
    pub(crate) fn prefer(&mut self, i: usize) {
        self.last = self.last.wrapping_add(i) % MOST_GUESSES;
    }

    // Keeps the number, which is asked first the next time.
    pub(crate) fn keep(&mut self, number: usize) {
        let slot = self.kept % MOST_GUESSES;
        self.numbers[slot] = (number % NUMBERS) as u16;
        self.last = slot;
        self.kept = self.kept.wrapping_add(1);
    }
}
