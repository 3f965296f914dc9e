//! Product states and sets of them. All places of a set lie one behind another, so that it takes few
//! blocks of memory, however many states it has.
ghost use Rattle.std.specs.Prelude.{◌≡◌, ◌-◌, ◌<◌, ◌≤◌, ◌++◌, ◌∷◌, [], length, take, drop, slice_index_or, IfOk, IsTrue, OnOk, OnErr};
ghost use Rattle.pattern_automata.specs.Cuts.{AreEndsOf, begin_of, cut_at};

use plain_lists::{List, NoMemory};
use std::alloc::{AllocError, Global};
use std::marker::Model;

/// Places of one pattern: numbers of first pieces.
pub type PlaceList = List<u32>;

/// A product state: a list of places for each pattern.
#[derive(Drop)]
pub struct PlaceLists {
    places: Vec<u32>,
    ends: Vec<usize>,
}

impl Model for PlaceLists {
    ghost use Rattle.std.specs.Prelude.{ℕ, List, length};

    ghost Value = { List (List ℕ) };

    ghost use Rattle.pattern_automata.specs.Cuts.{AreEndsOf, cut_at};

    ghost view = { λ l. cut_at 0 l.ends.items l.places.items };

    ghost invariant = { λ l. AreEndsOf 0 l.ends.items (length l.places.items) };
}

// Where the list at an index begins.
fn begin_of(ends: &[usize], i: usize) -> usize
    requires { i ≤ length ends.now }
    ensures { result ≡ begin_of 0 ends.now i }
{
    if i == 0 {
        return 0;
    }
    ends[i - 1]
}

// The places between two indices.
fn part(places: &[u32], from: usize, to: usize) -> &[u32]
    requires rising { from ≤ to }
    requires within { to ≤ length places.now }
    ensures { result.now ≡ take (to - from) (drop from places.now) }
{
    &places[from..to]
}

impl PlaceLists {
    /// A product state of no patterns. It takes no memory.
    pub fn new(alloc: Global) -> PlaceLists
        ensures { result ≡ [] }
    {
        PlaceLists {
            places: Vec::new(alloc),
            ends: Vec::new(alloc),
        }
    }

    // The lists that lie one behind another in the places, and end at these indices.
    pub(crate) fn of(places: Vec<u32>, ends: Vec<usize>) -> PlaceLists
        requires { AreEndsOf 0 ends.items (length places.items) }
        ensures { result ≡ cut_at 0 ends.items places.items }
    {
        PlaceLists { places, ends }
    }

    /// How many lists there are.
    pub fn len(&self) -> usize
        ensures { result ≡ length self.now }
    {
        self.ends.len()
    }

    /// The places of the pattern at an index.
    pub fn get(&self, i: usize) -> &[u32]
        requires { i < length self.now }
        ensures { result.now ≡ slice_index_or self.now i [] }
    {
        let from = begin_of(self.ends.as_slice(), i);
        let to = self.ends[i];
        part(self.places.as_slice(), from, to)
    }

    /// Adds the places of one more pattern. Where there is no memory the state stays as it was.
    pub fn push(&mut self, places: &[u32]) -> Result<(), NoMemory>
        ensures ok { OnOk result (self.new ≡ self.old ++ places.now ∷ []) }
        ensures err { OnErr result (self.new ≡ self.old) }
    {
        let count = self.places.len();
        self.places.extend_from_slice(places)?;
        let end = self.places.len();
        match self.ends.push(end) {
            Ok(()) => Ok(()),
            Err(_) => {
                self.places.truncate(count);
                Err(AllocError)
            }
        }
    }

    // Equal lists.
    fn copy(&self, alloc: Global) -> Result<PlaceLists, NoMemory>
        ensures { IfOk result (λ l. l ≡ self.now) }
    {
        Ok(PlaceLists {
            places: Vec::from_slice(alloc, self.places.as_slice())?,
            ends: Vec::from_slice(alloc, self.ends.as_slice())?,
        })
    }

    // Takes away all but the first lists.
    pub(crate) fn truncate(&mut self, count: usize)
        requires { count ≤ length self.old }
        ensures { self.new ≡ take count self.old }
    {
        let end = begin_of(self.ends.as_slice(), count);
        self.ends.truncate(count);
        self.places.truncate(end);
    }
}

/// A product state of a set: a list of places for each pattern.
#[derive(Drop)]
pub struct State<'a> {
    lists: &'a PlaceLists,
    from: usize,
    to: usize,
}

impl<'a> Model for State<'a> {
    ghost use Rattle.std.specs.Prelude.{ℕ, List, ◌-◌, ◌<◌, ◌≤◌, ◌^◌, length, take, drop};

    ghost Value = { List (List ℕ) };

    ghost view = { λ s. take (s.to - s.from) (drop s.from s.lists.now) };

    ghost invariant = { λ s. (s.from ≤ s.to) × (s.to ≤ length s.lists.now) × (s.to < 2 ^ 64) };
}

impl<'a> State<'a> {
    /// How many lists there are.
    pub fn len(&self) -> usize
        ensures { result ≡ length self.now }
    {
        self.to - self.from
    }

    /// The places of the pattern at an index.
    pub fn get(&self, i: usize) -> &[u32]
        requires { i < length self.now }
        ensures { result.now ≡ slice_index_or self.now i [] }
    {
        let lists = self.lists;
        lists.get(self.from + i)
    }

    /// Whether the two are equal.
    pub fn is_equal(&self, other: &State<'_>) -> bool
        ensures { IsTrue result → self.now ≡ other.now }
    {
        if self.len() != other.len() {
            return false;
        }
        'lists: for i in 0..self.len() {
            if self.get(i) != other.get(i) {
                return false;
            }
        }
        true
    }
}

/// A set of product states, in the order in which they were put in.
#[derive(Drop)]
pub struct Closed {
    lists: PlaceLists,
    ends: Vec<usize>,
}

impl Model for Closed {
    ghost use Rattle.std.specs.Prelude.{ℕ, List, length};

    ghost Value = { List (List (List ℕ)) };

    ghost use Rattle.pattern_automata.specs.Cuts.{AreEndsOf, cut_at};

    ghost view = { λ c. cut_at 0 c.ends.items c.lists };

    ghost invariant = { λ c. AreEndsOf 0 c.ends.items (length c.lists) };
}

// Adds all lists of a state. Where there is no memory some may have been added.
fn add_lists(lists: &mut PlaceLists, state: &PlaceLists) -> Result<(), NoMemory>
    ensures ok { OnOk result (lists.new ≡ lists.old ++ state.now) }
    ensures kept { take (length lists.old) lists.new ≡ lists.old }
{
    for i in 0..state.len() {
        lists.push(state.get(i))?;
    }
    Ok(())
}

// Adds all lists of a state. Where there is no memory nothing is added.
fn add_state(lists: &mut PlaceLists, state: &PlaceLists) -> Result<(), NoMemory>
    ensures ok { OnOk result (lists.new ≡ lists.old ++ state.now) }
    ensures err { OnErr result (lists.new ≡ lists.old) }
{
    let count = lists.len();
    match add_lists(lists, state) {
        Ok(()) => Ok(()),
        Err(failed) => {
            lists.truncate(count);
            Err(failed)
        }
    }
}

impl Closed {
    /// The empty set. It takes no memory.
    pub fn new(alloc: Global) -> Closed
        ensures { result ≡ [] }
    {
        Closed {
            lists: PlaceLists::new(alloc),
            ends: Vec::new(alloc),
        }
    }

    // The product states whose lists lie one behind another, and end at these indices.
    pub(crate) fn of(lists: PlaceLists, ends: Vec<usize>) -> Closed
        requires { AreEndsOf 0 ends.items (length lists) }
        ensures { result ≡ cut_at 0 ends.items lists }
    {
        Closed { lists, ends }
    }

    // An equal set.
    pub(crate) fn copy(&self, alloc: Global) -> Result<Closed, NoMemory>
        ensures { IfOk result (λ c. c ≡ self.now) }
    {
        Ok(Closed {
            lists: self.lists.copy(alloc)?,
            ends: Vec::from_slice(alloc, self.ends.as_slice())?,
        })
    }

    /// How many product states there are.
    pub fn len(&self) -> usize
        ensures { result ≡ length self.now }
    {
        self.ends.len()
    }

    /// The product state at an index.
    pub fn get(&self, i: usize) -> State<'_>
        requires { i < length self.now }
        ensures { result ≡ slice_index_or self.now i [] }
    {
        let from = begin_of(self.ends.as_slice(), i);
        let to = self.ends[i];
        State {
            lists: &self.lists,
            from,
            to,
        }
    }

    /// Adds a product state. Where there is no memory the set stays as it was.
    pub fn push(&mut self, state: &PlaceLists) -> Result<(), NoMemory>
        ensures ok { OnOk result (self.new ≡ self.old ++ state.now ∷ []) }
        ensures err { OnErr result (self.new ≡ self.old) }
    {
        let count = self.lists.len();
        add_state(&mut self.lists, state)?;
        let end = self.lists.len();
        match self.ends.push(end) {
            Ok(()) => Ok(()),
            Err(_) => {
                self.lists.truncate(count);
                Err(AllocError)
            }
        }
    }
}
