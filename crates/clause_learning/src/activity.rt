//! How much part each variable had in the last conflicts. The most active undecided one is decided next.
use crate::assignment::Assignment;
use plain_lists::NoMemory;
use std::alloc::Global;

// What the first conflict adds.
const FIRST_BUMP: u64 = 1 << 20;

// Each conflict adds more than the one before it by this part, so that older ones count less and less.
const GROWTH: u64 = 16;

// Where a conflict would add more, all activities are made smaller, and with them what is added.
const MOST_BUMP: u64 = 1 << 40;

// A heap of so many levels has room for every variable.
const MOST_DEPTH: u32 = 64;

#[derive(Drop)]
pub(crate) struct Activity {
    scores: Vec<u64>,
    bump: u64,
    // A heap of variables, the most active first, the first of several: each undecided one is there, and some others.
    heap: Vec<u32>,
    // By variable its place in the heap.
    places: Vec<Option<usize>>,
}

impl Activity {
    pub(crate) fn new(alloc: Global, variables: usize) -> Result<Activity, NoMemory> {
        let scores = vec![in alloc; 0u64; variables]?;
        let mut heap = Vec::new(alloc);
        let mut places = Vec::new(alloc);
        for variable in 0..variables {
            heap.push(variable.min(u32::MAX as usize) as u32)?;
            places.push(Some(variable))?;
        }
        Ok(Activity {
            scores,
            bump: FIRST_BUMP,
            heap,
            places,
        })
    }

    /// The variable had part in this conflict.
    pub(crate) fn raise(&mut self, variable: u32) {
        if let Some(score) = self.scores.get_mut(variable as usize) {
            *score = score.saturating_add(self.bump);
        }
        if let Some(place) = self.place_of(variable) {
            self.rise(place);
        }
    }

    /// The next conflict counts more than this one.
    pub(crate) fn decay(&mut self) {
        self.bump = self.bump.saturating_add(self.bump / GROWTH);
        if self.bump > MOST_BUMP {
            self.scale();
        }
    }

    fn scale(&mut self) {
        self.bump /= FIRST_BUMP;
        for score in self.scores.as_mut_slice() {
            *score /= FIRST_BUMP;
        }
    }

    /// The variable that is to be decided next: the most active one that isn't.
    pub(crate) fn next(&mut self, assignment: &Assignment) -> Option<u32> {
        for _ in 0..=self.scores.len() {
            let variable = self.take()?;
            if assignment.value(variable).is_none() {
                return Some(variable);
            }
        }
        None
    }

    /// The variable is undecided again.
    pub(crate) fn put(&mut self, variable: u32) -> Result<(), NoMemory> {
        if self.place_of(variable).is_some() {
            return Ok(());
        }
        let place = self.heap.len();
        self.heap.push(variable)?;
        self.note(place);
        self.rise(place);
        Ok(())
    }

    // Takes the first one out of the heap.
    fn take(&mut self) -> Option<u32> {
        let first = self.heap.as_slice().get(0).copied()?;
        let last = self.heap.len().saturating_sub(1);
        self.exchange(0, last);
        self.heap.pop();
        if let Some(place) = self.places.get_mut(first as usize) {
            *place = None;
        }
        self.sink(0);
        Some(first)
    }

    fn place_of(&self, variable: u32) -> Option<usize> {
        self.places.as_slice().get(variable as usize).copied()?
    }

    fn score_at(&self, place: usize) -> Option<(u64, u32)> {
        let variable = self.heap.as_slice().get(place).copied()?;
        let score = self.scores.as_slice().get(variable as usize).copied()?;
        Some((score, variable))
    }

    // Whether what stands at a place of the heap is more active than what stands at the other, or comes first.
    fn is_before(&self, one: usize, other: usize) -> bool {
        let (Some((score, variable)), Some((least, behind))) = (
            self.score_at(one),
            self.score_at(other),
        ) else {
            return false;
        };
        score > least || (score == least && variable < behind)
    }

    // Brings what stands at the place before all that it is more active than.
    fn rise(&mut self, from: usize) {
        let mut place = from;
        for _ in 0..MOST_DEPTH {
            let above = place.saturating_sub(1) / 2;
            if !self.is_before(place, above) {
                return;
            }
            self.exchange(place, above);
            place = above;
        }
    }

    // Brings what stands at the place behind all that is more active.
    fn sink(&mut self, from: usize) {
        let mut place = from;
        for _ in 0..MOST_DEPTH {
            let below = self.first_below(place);
            if !self.is_before(below, place) {
                return;
            }
            self.exchange(place, below);
            place = below;
        }
    }

    // The place of the more active one of the two below.
    fn first_below(&self, place: usize) -> usize {
        let left = place.saturating_mul(2).saturating_add(1);
        let right = left.saturating_add(1);
        if self.is_before(right, left) {
            right
        } else {
            left
        }
    }

    fn exchange(&mut self, one: usize, other: usize) {
        if one < self.heap.len() && other < self.heap.len() {
            self.heap.swap(one, other);
            self.note(one);
            self.note(other);
        }
    }

    // Writes down the place of what stands there.
    fn note(&mut self, place: usize) {
        if let Some(variable) = self.heap.as_slice().get(place).copied() {
            if let Some(own) = self.places.get_mut(variable as usize) {
                *own = Some(place);
            }
        }
    }
}
