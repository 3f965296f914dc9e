//! The one ordered map of the workspace, from texts to items. Contracts see it as the list of its
//! entries, in the order of the texts.
#![tactic(auto)]

ghost use Rattle.std.specs.Prelude.{◌≡◌, [], length, slice_get, option_map, OnOk, OnErr};
ghost use Rattle.std.specs.Option.{option_copied};
ghost use Rattle.std.proofs.Common.{rules};
ghost use Rattle.text_table.specs.Table.{IsInOrder, KeysAreTexts, item_at, with_item};

use plain_lists::{EqualClone, NoMemory};
use std::alloc::Global;
use std::collections::BTreeMap;
use std::collections::btree_map::Iter;
use std::marker::Model;
use wildcard_lang::Text;

/// An ordered map from texts to items. Texts are in the order of their characters' numbers. It keeps
/// its allocator.
#[derive(Drop)]
pub struct Table<V> {
    entries: BTreeMap<Text, V>,
}

impl<V> Model for Table<V> {
    ghost use Rattle.text_table.specs.Table.{Entries, KeysAreTexts};

    ghost Value = { Entries V };

    ghost view = { λ t. t.entries.entries };

    ghost invariant = { λ t. KeysAreTexts t.entries.entries };
}

impl<V> Table<V> {
    /// The empty map. It takes no memory.
    pub fn new(alloc: Global) -> Table<V>
        ensures { result ≡ [] }
    {
        Table {
            entries: BTreeMap::new(alloc),
        }
    }

    /// How many keys there are.
    pub fn len(&self) -> usize
        ensures value { result ≡ length self.now }
        ensures ordered { IsInOrder self.now }
    {
        self.entries.len()
    }

    /// Each key is a text: a law of the type, without work.
    pub fn keys_are_texts(&self)
        ensures { KeysAreTexts self.now }
    {
        // Once a field is read, the type's invariant is known.
        self.entries.len();
    }

    /// The item of a key, or none where the key isn't there.
    pub fn get(&self, key: &Text) -> Option<&V>
        ensures { option_copied result ≡ item_at key.now self.now }
    {
        self.entries.get(key)
    }

    /// The entries in the order of the keys. What the iterator still gives stands in contracts as the
    /// list of the entries that are left.
    pub fn iter(&self) -> Iter<'_, Text, V>
        ensures value { result ≡ self.now }
        ensures ordered { IsInOrder self.now }
    {
        self.entries.iter()
    }

    /// The entry at an index in the order of the keys, counted from 0, or none where the map has no
    /// such index. A walk over all entries goes by `iter`, since each call counts from the first.
    pub fn at(&self, i: usize) -> Option<(&Text, &V)>
        ensures { option_map (λ p. (p.0.now, p.1.now)) result ≡ slice_get self.now i }
    {
        self.entries.iter().nth(i)
    }
}

impl<V: Drop> Table<V> {
    /// Puts an item at a key, in place of one that was there. Where there is no memory the map stays
    /// as it was, and key and item are dropped.
    pub fn insert(&mut self, key: Text, item: V) -> Result<(), NoMemory>
        ensures ok { OnOk result (self.new ≡ with_item self.old key item) }
        ensures err { OnErr result (self.new ≡ self.old) }
    {
        // Asked for its length, the key is known to be a text.
        key.len();
        self.entries.insert(key, item)?;
        Ok(())
    }
}

impl<V: EqualClone> Clone for Table<V> {
    ghost is_clone = { λ t u. u ≡ t };

    fn clone(&self) -> Result<Table<V>, NoMemory> {
        let entries = self.entries.clone()?;
        Ok(Table { entries })
    }
}

impl<V: EqualClone> EqualClone for Table<V> {
    ghost clones_are_equal = { Prim.search rules };
}
