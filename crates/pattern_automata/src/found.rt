//! The product states that a search has found, as words of marks, each once, in the order in which
//! they were found.
ghost use Rattle.std.specs.Prelude.{◌≡◌, ◌+◌, ◌<◌, ◌++◌, ◌∷◌, ◌↔◌, ℕ, List, [], map, length, slice_index_or, IfOk, IsTrue, OnOk, OnErr, Contains};

use indexmap::IndexSet;
use plain_lists::NoMemory;
use std::alloc::Global;
use std::marker::Model;

/// For how many product states there is room from the start.
const ROOM: usize = 64;

/// Product states as words of marks. One that is a single word takes no block of memory of its own.
#[derive(Drop)]
pub struct Found {
    /// Those that are a single word, up to the first that isn't.
    single: IndexSet<u64>,
    /// All that were found later.
    others: IndexSet<Vec<u64>>,
}

impl Model for Found {
    ghost use Rattle.std.specs.Prelude.{List, ℕ, ◌++◌, ◌∷◌, [], map};
    ghost use Rattle.indexmap.specs.IndexSet.{keys};

    ghost Value = { List (List ℕ) };

    ghost view = { λ f. map (λ w. w ∷ []) f.single.keys ++ map (λ v. v.items) f.others.keys };
}

/// Whether the words are one of these alone.
fn is_single(single: &IndexSet<u64>, words: &[u64]) -> bool
    ensures { IsTrue result ↔ Contains (map (λ w. w ∷ []) single.now.keys) words.now }
{
    if words.len() != 1 {
        return false;
    }
    single.contains(&words[0])
}

/// The word at i, as words.
fn single_at(single: &[u64], i: usize) -> &[u64]
    requires { i < length single.now }
    ensures { result.now ≡ slice_index_or single.now i 0 ∷ [] }
{
    &single[i..i + 1]
}

/// Adds a word that isn't there.
fn push_single(single: &mut IndexSet<u64>, word: u64) -> Result<(), NoMemory>
    requires { Contains (map (λ w. w ∷ []) single.old.keys) (word ∷ []) → ⊥ }
    ensures ok { OnOk result (single.new.keys ≡ single.old.keys ++ word ∷ []) }
    ensures err { OnErr result (single.new.keys ≡ single.old.keys) }
{
    single.insert_full(word)?;
    Ok(())
}

/// Adds words that aren't there.
fn push_other(others: &mut IndexSet<Vec<u64>>, words: &[u64]) -> Result<(), NoMemory>
    requires { Contains (map (λ v. v.items) others.old.keys) words.now → ⊥ }
    ensures ok { OnOk result
        (map (λ v. v.items) others.new.keys ≡ map (λ v. v.items) others.old.keys ++ words.now ∷ []) }
    ensures err { OnErr result (others.new.keys ≡ others.old.keys) }
{
    let own = Vec::from_slice(*others.allocator(), words)?;
    others.insert_full(own)?;
    Ok(())
}

impl Found {
    pub fn new(alloc: Global) -> Result<Found, NoMemory>
        ensures { IfOk result (λ f. f ≡ []) }
    {
        Ok(Found {
            single: IndexSet::with_capacity(alloc, ROOM)?,
            others: IndexSet::new(alloc),
        })
    }

    pub fn len(&self) -> usize
        ensures { result ≡ length self.now }
    {
        self.single.len() + self.others.len()
    }

    /// Whether these words were found.
    pub fn has(&self, words: &[u64]) -> bool
        ensures { IsTrue result ↔ Contains self.now words.now }
    {
        if is_single(&self.single, words) {
            return true;
        }
        self.others.contains(words)
    }

    /// The words at i.
    pub fn get(&self, i: usize) -> &[u64]
        requires { i < length self.now }
        ensures { result.now ≡ slice_index_or self.now i [] }
    {
        let count = self.single.len();
        if i < count {
            return single_at(self.single.as_slice(), i);
        }
        self.others.as_slice()[i - count].as_slice()
    }

    /// Adds words that weren't found.
    pub fn push(&mut self, words: &[u64]) -> Result<(), NoMemory>
        requires { Contains self.old words.now → ⊥ }
        ensures ok { OnOk result (self.new ≡ self.old ++ words.now ∷ []) }
        ensures err { OnErr result (self.new ≡ self.old) }
    {
        if self.others.len() == 0 {
            if words.len() == 1 {
                return push_single(&mut self.single, words[0]);
            }
        }
        push_other(&mut self.others, words)
    }
}
