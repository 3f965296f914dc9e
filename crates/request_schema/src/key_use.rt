//! What the uses of each condition key come to.
ghost use Rattle.std.specs.Prelude.{◌≡◌, IfOk, OnOk};
ghost use Rattle.policy_model.specs.Operators.{family_of};
ghost use Rattle.text_table.specs.Table.{item_at};
ghost use Rattle.request_schema.specs.KeyUses.{Summarises, kind_fixed, more_use, rule_made, with_use};
ghost use Rattle.request_schema.specs.RunSchemas.{group_kind};
ghost use Rattle.request_schema.specs.Uses.{is_bool, is_plain, uses_found};

use crate::found::FoundUse;
use crate::global_keys::plain_rule;
use policy_model::{Condition, Family, KeyRule, Kind, NoMemory, Operator, Quantifier};
use std::alloc::Global;
use text_table::Table;
use wildcard_lang::Text;

/// What the operators on a key, `Null` aside, come to.
#[derive(Clone, Copy)]
pub(crate) struct KeyUse {
    /// The family of the first of them.
    pub(crate) first: Family,
    /// Whether all of them are `Bool`.
    pub(crate) bools: bool,
    /// Whether all of them have a prefix.
    pub(crate) prefixed: bool,
}

fn is_bool(family: Family) -> bool
    ensures { result ≡ is_bool family }
{
    match family {
        Family::Bool => true,
        _ => false,
    }
}

/// Whether the operator has no prefix.
pub(crate) fn is_plain(quantifier: Quantifier) -> bool
    ensures { result ≡ is_plain quantifier }
{
    match quantifier {
        Quantifier::Plain => true,
        _ => false,
    }
}

// The kind that takes all operators of a family's group.
fn group_kind(family: Family) -> Kind
    ensures { result ≡ group_kind family }
{
    match family {
        Family::Text | Family::Arn | Family::Bool | Family::Null => Kind::Text,
        Family::Numeric | Family::Date => Kind::Number,
        Family::Address => Kind::Address,
        Family::Binary => Kind::Bytes,
    }
}

// What the operators on a key come to with one more.
fn more_use(known: Option<KeyUse>, operator: Operator) -> KeyUse
    ensures { result ≡ more_use known operator }
{
    let family = operator.base.family();
    let bool = is_bool(family);
    let prefixed = !is_plain(operator.quantifier);
    match known {
        None => KeyUse {
            first: family,
            bools: bool,
            prefixed,
        },
        Some(known) => KeyUse {
            first: known.first,
            bools: known.bools && bool,
            prefixed: known.prefixed && prefixed,
        },
    }
}

// What the operators on a key come to, where there are some.
fn item_at(table: &Table<KeyUse>, key: &Text) -> Option<KeyUse>
    ensures { result ≡ item_at key.now table.now }
{
    table.get(key).copied()
}

// Adds a condition to what is known of its key.
fn add_use(table: &mut Table<KeyUse>, condition: &Condition) -> Result<(), NoMemory>
    ensures { OnOk result (table.new ≡ with_use table.old condition.now) }
{
    if condition.operator.base.is_null() {
        return Ok(());
    }
    let key = condition.key.copy()?;
    let key_use = more_use(item_at(table, &key), condition.operator);
    table.insert(key, key_use)
}

/// What the uses of each key come to, by the keys' names.
pub(crate) fn summarise(alloc: Global, uses: &[FoundUse]) -> Result<Table<KeyUse>, NoMemory>
    ensures { IfOk result (Summarises (uses_found uses.now)) }
{
    let mut table = Table::new(alloc);
    for found in uses {
        add_use(&mut table, found.condition)?;
    }
    Ok(table)
}

/// The kind that a key's uses fix for one another.
pub(crate) fn kind_fixed(table: &Table<KeyUse>, key: &Text) -> Kind
    ensures { result ≡ kind_fixed (item_at key.now table.now) }
{
    match item_at(table, key) {
        None => Kind::Text,
        Some(key_use) => group_kind(key_use.first),
    }
}

/// The rule that a key's uses make.
pub(crate) fn rule_made(table: &Table<KeyUse>, key: &Text) -> KeyRule
    ensures { result ≡ rule_made (item_at key.now table.now) }
{
    match item_at(table, key) {
        None => plain_rule(Kind::Text, true),
        Some(key_use) if key_use.bools => plain_rule(Kind::Truth, key_use.prefixed),
        Some(key_use) => plain_rule(group_kind(key_use.first), key_use.prefixed),
    }
}
