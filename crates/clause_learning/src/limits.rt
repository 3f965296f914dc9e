//! How long a search may go on, in numbers that don't rest on the machine.

/// The most units of work: literals that are looked at, and product states of slots at a price in units. A unit takes
/// some nanoseconds, so that a search takes a second or two: it stands before one whose budgets the user gave. The
/// check of the lines isn't counted, which is made where the search ends with the empty clause.
pub const MOST_WORK: usize = 160_000_000;

// The most literals of learned clauses and hints together, so that their lines take some tens of megabytes.
const MOST_LEARNED: usize = 2_000_000;

// In how many rounds slots may run out of states and none excludes anything.
const MOST_WIDE_ROUNDS: u32 = 8;

// After so many conflicts the first restart comes. Each later one takes longer by this part.
const FIRST_RESTART: u32 = 100;

const RESTART_GROWTH: u32 = 8;

#[derive(Clone, Copy)]
pub struct Limits {
    // How many units of work are left.
    work: usize,
    // How many literals and hints may still be learned.
    learned: usize,
    // How many such rounds may still come.
    wide_rounds: u32,
    // How many conflicts come between two restarts, and how many are left until the next.
    interval: u32,
    left: u32,
}

impl Limits {
    pub(crate) fn new() -> Limits {
        Limits {
            work: MOST_WORK,
            learned: MOST_LEARNED,
            wide_rounds: MOST_WIDE_ROUNDS,
            interval: FIRST_RESTART,
            left: FIRST_RESTART,
        }
    }

    /// So many units of work more.
    pub fn spend(&mut self, units: usize) {
        self.work = self.work.saturating_sub(units);
    }

    /// So many literals and hints more, of lines.
    pub(crate) fn count_literals(&mut self, learned: usize) {
        self.learned = self.learned.saturating_sub(learned);
    }

    /// One more conflict, whose line has so many literals and hints.
    pub(crate) fn count_conflict(&mut self, learned: usize) {
        self.count_literals(learned);
        self.left = self.left.saturating_sub(1);
    }

    /// One more round in which slots ran out of states and none excluded anything.
    pub fn count_wide_round(&mut self) {
        self.wide_rounds = self.wide_rounds.saturating_sub(1);
    }

    /// A proof is in the lines for which there was no room among those that stand once. The search is to end.
    pub(crate) fn end(&mut self) {
        self.work = 0;
    }

    pub fn are_spent(&self) -> bool {
        self.work == 0 || self.learned == 0 || self.wide_rounds == 0
    }

    /// Whether the search is to restart now.
    pub(crate) fn restarts(&mut self) -> bool {
        if self.left > 0 {
            return false;
        }
        self.interval = self.interval.saturating_add(self.interval / RESTART_GROWTH);
        self.left = self.interval;
        true
    }
}
