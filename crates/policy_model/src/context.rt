//! The condition keys of a request.
ghost use Rattle.std.specs.Prelude.{◌≡◌, ◌≢◌, [], length, slice_get, option_map, IfSome, OnOk, OnErr};
ghost use Rattle.std.specs.Option.{option_copied};
ghost use Rattle.text_table.specs.Table.{IsInOrder, KeysAreTexts, item_at, with_item};
ghost use Rattle.std.proofs.Common.{rules};
ghost use Rattle.policy_model.specs.Keys.{AllHaveValues, AreFolded, IsFolded};

use crate::value::ValueList;
use plain_lists::{EqualClone, NoMemory};
use std::alloc::Global;
use std::collections::btree_map::Iter;
use std::marker::Model;
use text_table::Table;
use wildcard_lang::Text;

/// An ordered map from the names of condition keys, with their ASCII letters lowered, to their values, at least
/// one for each key.
#[derive(Drop)]
pub struct Context {
    entries: Table<ValueList>,
}

impl Model for Context {
    ghost use Rattle.std.specs.Prelude.{List};
    ghost use Rattle.text_table.specs.Table.{Entries};
    ghost use Rattle.policy_model.specs.Keys.{AllHaveValues, AreFolded};
    ghost use Rattle.policy_model.specs.declared.value.Value.{Value as KeyValue};

    ghost Value = { Entries (List KeyValue) };

    ghost view = { λ c. c.entries };

    ghost invariant = { λ c. AreFolded c.entries × AllHaveValues c.entries };
}

impl Clone for Context {
    ghost is_clone = { λ x y. y ≡ x };

    fn clone(&self) -> Result<Context, NoMemory> {
        let entries = self.entries.copy()?;
        Ok(Context { entries })
    }
}

impl EqualClone for Context {
    ghost clones_are_equal = { Prim.search rules };
}

impl Context {
    /// The context without keys. It takes no memory.
    pub fn new(alloc: Global) -> Context
        ensures { result ≡ [] }
    {
        Context {
            entries: Table::new(alloc),
        }
    }

    /// How many keys there are.
    pub fn len(&self) -> usize
        ensures value { result ≡ length self.now }
        ensures ordered { IsInOrder self.now }
    {
        self.entries.len()
    }

    /// Each key stands once, in the order of the keys, is a text without ASCII capitals, and has values: a
    /// law of the type, without work.
    pub fn keys_are_well_kept(&self)
        ensures ordered { IsInOrder self.now }
        ensures texts { KeysAreTexts self.now }
        ensures folded { AreFolded self.now }
        ensures nonempty { AllHaveValues self.now }
    {
        self.entries.len();
        self.entries.keys_are_texts();
    }

    /// The values of a key, at least one, or none where the key isn't there.
    pub fn get(&self, key: &Text) -> Option<&ValueList>
        ensures values { option_map (λ v. v.now) result ≡ item_at key.now self.now }
        ensures nonempty { IfSome result (λ v. v.now ≢ []) }
    {
        self.entries.get(key)
    }

    /// The key at an index in the order of keys, counted from 0, with its values, or none where there is
    /// no such index.
    pub fn at(&self, i: usize) -> Option<(&Text, &ValueList)>
        ensures entry { option_map (λ p. (p.0.now, p.1.now)) result ≡ slice_get self.now i }
        ensures folded { IfSome result (λ p. IsFolded p.0.now) }
        ensures nonempty { IfSome result (λ p. p.1.now ≢ []) }
    {
        self.entries.at(i)
    }

    /// The keys in their order, each with its values. What the iterator still gives stands in contracts as
    /// the list of the entries that are left.
    pub fn iter(&self) -> Iter<'_, Text, ValueList>
        ensures value { result ≡ self.now }
        ensures ordered { IsInOrder self.now }
        ensures folded { AreFolded self.now }
        ensures nonempty { AllHaveValues self.now }
    {
        self.entries.iter()
    }

    /// Gives a key these values, in place of those that it had. Where there is no memory the context
    /// stays as it was, and key and values are dropped.
    pub fn insert(&mut self, key: Text, values: ValueList) -> Result<(), NoMemory>
        requires folded { IsFolded key }
        requires nonempty { values ≢ [] }
        ensures ok { OnOk result (self.new ≡ with_item self.old key values) }
        ensures err { OnErr result (self.new ≡ self.old) }
    {
        self.entries.insert(key, values)
    }
}
