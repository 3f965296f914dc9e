//! Unit propagation by two watched literals a clause.
use crate::solver::Solver;
use crate::store::Literal;
use crate::watches::Watch;
use plain_lists::NoMemory;

// What comes of a clause one of whose watched literals has become false.
enum Visit {
    // It stays watched there.
    Kept,
    // Another literal is watched in its place.
    Moved,
    // All its literals are false.
    Refuted,
}

impl Solver {
    /// Follows the trail to its end, or to a clause all of whose literals are false.
    pub(crate) fn propagate(&mut self) -> Result<Option<u32>, NoMemory> {
        // Each variable stands at most once in the trail.
        for _ in 0..=self.assignment.variables() {
            let Some((variable, value)) = self.assignment.next() else {
                return Ok(None);
            };
            if let Some(number) = self.follow((variable, !value))? {
                return Ok(Some(number));
            }
        }
        Ok(None)
    }

    // Visits the clauses in which a literal that has become false is watched.
    fn follow(&mut self, falsified: Literal) -> Result<Option<u32>, NoMemory> {
        let mut place: usize = 0;
        let count = self.watches.count(falsified);
        self.limits.spend(count.saturating_mul(2));
        for _ in 0..count {
            let Some(Watch { number, other }) = self.watches.get(falsified, place) else {
                return Ok(None);
            };
            if self.assignment.truth(other) == Some(true) {
                place = place.saturating_add(1);
                continue;
            }
            match self.visit(falsified, number)? {
                Visit::Kept => place = place.saturating_add(1),
                Visit::Moved => self.watches.remove(falsified, place),
                Visit::Refuted => return Ok(Some(number)),
            }
        }
        Ok(None)
    }

    fn visit(&mut self, falsified: Literal, number: u32) -> Result<Visit, NoMemory> {
        if self.store.literal(number, 0) == Some(falsified) {
            self.store.swap(number, 0, 1);
        }
        let Some(first) = self.store.literal(number, 0) else {
            return Ok(Visit::Kept);
        };
        let truth = self.assignment.truth(first);
        if truth == Some(true) {
            return Ok(Visit::Kept);
        }
        if let Some(other) = self.draw(number, 1) {
            self.watches.push(
                other,
                Watch {
                    number,
                    other: first,
                },
            )?;
            return Ok(Visit::Moved);
        }
        if truth == Some(false) {
            return Ok(Visit::Refuted);
        }
        self.assignment.assign(first, Some(number))?;
        Ok(Visit::Kept)
    }
}
