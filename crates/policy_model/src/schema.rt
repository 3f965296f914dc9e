//! Schemas: the condition keys that requests may have, and the shapes of their words.
ghost use Rattle.std.specs.Prelude.{◌≡◌, [], None, length, slice_get, option_map, IfSome, OnOk, OnErr};
ghost use Rattle.std.specs.Option.{option_copied};
ghost use Rattle.text_table.specs.Table.{IsInOrder, item_at, with_item};
ghost use Rattle.std.proofs.Common.{rules};
ghost use Rattle.policy_model.specs.Conditions.{kind_at};
ghost use Rattle.policy_model.specs.Keys.{AreFolded, IsFolded, no_shapes};

use crate::value::{Kind, ValueList};
use plain_lists::{EqualClone, NoMemory};
use std::alloc::Global;
use std::collections::btree_map::Iter;
use std::marker::Model;
use text_table::Table;
use wildcard_lang::{Pattern, Text};

/// What the values of a condition key may be.
#[derive(Clone, Drop)]
pub struct KeyRule {
    pub kind: Kind,
    /// Whether a request may give the key several values.
    pub many: bool,
    /// Whether each request gives the key a value.
    pub required: bool,
    /// The values that the key may have, where they are listed.
    pub among: Option<ValueList>,
    /// What each value matches, where a shape is given.
    pub shape: Option<Pattern>,
}

impl EqualClone for KeyRule {
    ghost clones_are_equal = { Prim.search rules };
}

/// The rules of condition keys, by the keys' names with their ASCII letters lowered.
#[derive(Drop)]
pub struct KeyRules {
    entries: Table<KeyRule>,
}

impl Model for KeyRules {
    ghost use Rattle.text_table.specs.Table.{Entries};
    ghost use Rattle.policy_model.specs.Keys.{AreFolded};
    ghost use Rattle.policy_model.specs.declared.schema.KeyRule.{KeyRule};

    ghost Value = { Entries KeyRule };

    ghost view = { λ r. r.entries };

    ghost invariant = { λ r. AreFolded r.entries };
}

impl Clone for KeyRules {
    ghost is_clone = { λ x y. y ≡ x };

    fn clone(&self) -> Result<KeyRules, NoMemory> {
        let entries = self.entries.copy()?;
        Ok(KeyRules { entries })
    }
}

impl EqualClone for KeyRules {
    ghost clones_are_equal = { Prim.search rules };
}

/// What the words of a request match, where a shape is given: its action, its resource, and its
/// principal's id by the principal's kind.
#[derive(Clone, Drop)]
pub struct Shapes {
    pub action: Option<Pattern>,
    pub resource: Option<Pattern>,
    pub aws: Option<Pattern>,
    pub service: Option<Pattern>,
    pub federated: Option<Pattern>,
    pub canonical_user: Option<Pattern>,
}

impl EqualClone for Shapes {
    ghost clones_are_equal = { Prim.search rules };
}

/// A schema says which requests are valid. A request has no condition key that the schema lacks.
#[derive(Clone, Drop)]
pub struct Schema {
    /// The version of the schema's file, 1 or 2.
    pub version: u32,
    pub keys: KeyRules,
    pub shapes: Shapes,
}

impl EqualClone for Schema {
    ghost clones_are_equal = { Prim.search rules };
}

impl KeyRules {
    /// No rules. It takes no memory.
    pub fn new(alloc: Global) -> KeyRules
        ensures { result ≡ [] }
    {
        KeyRules {
            entries: Table::new(alloc),
        }
    }

    /// How many keys there are.
    pub fn len(&self) -> usize
        ensures value { result ≡ length self.now }
        ensures ordered { IsInOrder self.now }
    {
        self.entries.len()
    }

    /// The rule of a key, or none where the key isn't there.
    pub fn get(&self, key: &Text) -> Option<&KeyRule>
        ensures { option_map (λ v. v.now) result ≡ item_at key.now self.now }
    {
        self.entries.get(key)
    }

    /// The key at an index in the order of keys, counted from 0, with its rule, or none where there is
    /// no such index.
    pub fn at(&self, i: usize) -> Option<(&Text, &KeyRule)>
        ensures entry { option_map (λ p. (p.0.now, p.1.now)) result ≡ slice_get self.now i }
        ensures folded { IfSome result (λ p. IsFolded p.0.now) }
    {
        self.entries.at(i)
    }

    /// The keys in their order, each with its rule. What the iterator still gives stands in contracts as
    /// the list of the entries that are left.
    pub fn iter(&self) -> Iter<'_, Text, KeyRule>
        ensures value { result ≡ self.now }
        ensures ordered { IsInOrder self.now }
        ensures folded { AreFolded self.now }
    {
        self.entries.iter()
    }

    /// Gives a key this rule, in place of the one that it had. Where there is no memory the rules stay
    /// as they were, and key and rule are dropped.
    pub fn insert(&mut self, key: Text, rule: KeyRule) -> Result<(), NoMemory>
        requires { IsFolded key }
        ensures ok { OnOk result (self.new ≡ with_item self.old key rule) }
        ensures err { OnErr result (self.new ≡ self.old) }
    {
        self.entries.insert(key, rule)
    }
}

impl Schema {
    /// The schema of version 1 without keys and shapes. It takes no memory.
    pub fn new(alloc: Global) -> Schema
        ensures version { result.version ≡ 1 }
        ensures keys { result.keys ≡ [] }
        ensures shapes { result.shapes ≡ no_shapes }
    {
        Schema {
            version: 1,
            keys: KeyRules::new(alloc),
            shapes: Shapes {
                action: None,
                resource: None,
                aws: None,
                service: None,
                federated: None,
                canonical_user: None,
            },
        }
    }

    /// How many keys there are.
    pub fn len(&self) -> usize
        ensures value { result ≡ length self.now.keys }
        ensures ordered { IsInOrder self.now.keys }
    {
        self.keys.len()
    }

    /// The rule of a key, or none where the key isn't there.
    pub fn get(&self, key: &Text) -> Option<&KeyRule>
        ensures { option_map (λ v. v.now) result ≡ item_at key.now self.now.keys }
    {
        self.keys.get(key)
    }

    /// The kind of a key's values. A key that isn't there counts as one of texts.
    pub fn kind_at(&self, key: &Text) -> Kind
        ensures { result ≡ kind_at self.now key.now }
    {
        match self.keys.get(key) {
            Some(rule) => rule.kind,
            None => Kind::Text,
        }
    }

    /// The key at an index in the order of keys, counted from 0, with its rule, or none where there is
    /// no such index.
    pub fn at(&self, i: usize) -> Option<(&Text, &KeyRule)>
        ensures entry { option_map (λ p. (p.0.now, p.1.now)) result ≡ slice_get self.now.keys i }
        ensures folded { IfSome result (λ p. IsFolded p.0.now) }
    {
        self.keys.at(i)
    }

    /// The keys in their order, each with its rule. What the iterator still gives stands in contracts as
    /// the list of the entries that are left.
    pub fn iter(&self) -> Iter<'_, Text, KeyRule>
        ensures value { result ≡ self.now.keys }
        ensures ordered { IsInOrder self.now.keys }
        ensures folded { AreFolded self.now.keys }
    {
        self.keys.iter()
    }

    /// Gives a key this rule, in place of the one that it had. Where there is no memory the schema stays
    /// as it was, and key and rule are dropped.
    pub fn insert(&mut self, key: Text, rule: KeyRule) -> Result<(), NoMemory>
        requires { IsFolded key }
        ensures ok { OnOk result
            (self.new ≡ record self.old { keys = with_item self.old.keys key rule }) }
        ensures err { OnErr result (self.new ≡ self.old) }
    {
        self.keys.insert(key, rule)
    }
}
