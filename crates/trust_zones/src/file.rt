//! Reads zone files.
ghost use Rattle.std.specs.Prelude.{◌≡◌, [], ◌∷◌, IfOk, IfSome, OnOk, length, map, nat_le};
ghost use Rattle.std.specs.List.{filter_map, list_all};
ghost use Rattle.std.specs.Str.{chars};
ghost use Rattle.serde_json.specs.Find.{get};
ghost use Rattle.serde_json.specs.View.{view, members_view};
ghost use Rattle.cidr_bits.specs.Readings.{block_spelled};
ghost use Rattle.json_shapes.specs.Json.{pairs_of, views};
ghost use Rattle.json_shapes.specs.Shapes.{where_there};
ghost use Rattle.trust_zones.specs.ZoneChecks.{zone_check};
ghost use Rattle.trust_zones.specs.ZoneFiles.{IsZoneFrom, has_form_of, has_single_key, is_same_kind, is_single_of, is_string_list, is_zone_file, is_zone_member, zone_key_checks, key_of, list_checks_in, members_of, string_of, strings_in, texts_of, zone_checks, zone_form_checks, zone_list_checks, zone_of};
ghost use Rattle.trust_zones.specs.declared.list.ZoneList.TheVariants as list_of;
ghost use Rattle.trust_zones.specs.Zones.{TakesZone, ZoneIsSound};
ghost use Rattle.json_shapes.specs.Checks.{IsReadOf};

use crate::fault::{ZoneAnswer, ZoneCode, refusal};
use crate::keys::key_named;
use crate::list::{MOST_LISTED, ZoneList, string_of};
use crate::requirement::require;
use crate::zone::{BlockList, Zone};
use cidr_bits::read_block;
use json_shapes::{are_strings, is_among, is_list, list_under, read_json, values_in};
use plain_lists::{List, NoMemory};
use policy_model::{KeyRule, Kind, Schema};
use serde_json::Value;
use std::alloc::Global;
use wildcard_lang::{Text, TextList};

// Whether the value is a list of strings.
fn is_string_list(value: &Value) -> bool
    ensures { result ≡ is_string_list (view value.now) }
{
    is_list(value) && are_strings(values_in(value))
}

// Whether a zone file may have this name, with this value.
fn is_member(name: &str, value: &Value) -> bool
    ensures { result ≡ is_zone_member (name.now, view value.now) }
{
    let names = ["Accounts", "Blocks", "Organizations", "Vpcs"];
    is_among(&names, name) && is_string_list(value)
}

// Whether the file is an object of the four names, with lists of strings.
fn is_zone_file(file: &Value) -> bool
    ensures { result ≡ is_zone_file (view file.now) }
{
    let Some(members) = file.as_object() else {
        return false;
    };
    for (name, value) in members {
        if !is_member(name.as_str(), value) {
            return false;
        }
    }
    true
}

// The file is of this form.
fn check_form(alloc: Global, file: &Value) -> Result<(), ZoneAnswer>
    ensures { IsReadOf (zone_form_checks (view file.now)) tt result }
{
    require(alloc, is_zone_file(file), ZoneCode::Z2Shape, "")
}

// Whether each of the strings is of the list's form.
fn are_of_form(list: ZoneList, values: &[Value]) -> bool
    ensures { result ≡ list_all (has_form_of list) (strings_in values.now) }
{
    for value in values {
        if !list.takes(string_of(value)) {
            return false;
        }
    }
    true
}

// Whether the kinds are one.
fn is_same_kind(kind: Kind, other: Kind) -> bool
    ensures { result ≡ is_same_kind kind other }
{
    kind == other
}

// Whether the rule gives a key values of the kind, and not several.
fn is_single_of(kind: Kind, rule: &KeyRule) -> bool
    ensures { result ≡ is_single_of kind rule.now }
{
    is_same_kind(rule.kind, kind) && !rule.many
}

// Whether the key of this name is one of the schema, with one value of the kind.
fn has_single_key(alloc: Global, schema: &Schema, name: &str, kind: Kind) -> Result<bool, NoMemory>
    ensures { IfOk result (λ has. has ≡ has_single_key schema.now (name.now, kind)) }
{
    let key = key_named(alloc, name)?;
    match schema.get(&key) {
        Some(rule) => Ok(is_single_of(kind, rule)),
        None => Ok(false),
    }
}

// Whether the schema answers for the list's key, where it has one.
fn takes_list(alloc: Global, schema: &Schema, list: ZoneList) -> Result<bool, NoMemory>
    ensures { IfOk result (λ takes. takes ≡ where_there (has_single_key schema.now) (key_of list)) }
{
    match list.key() {
        Some((name, kind)) => has_single_key(alloc, schema, name, kind),
        None => Ok(true),
    }
}

// The key of a list that has members is one of the schema, with one value of its kind.
fn check_key(
    alloc: Global,
    schema: &Schema,
    list: ZoneList,
    values: &[Value],
) -> Result<(), ZoneAnswer>
    ensures { IsReadOf (zone_key_checks schema.now list (strings_in values.now)) tt result }
{
    if values.is_empty() {
        return Ok(());
    }
    let takes = takes_list(alloc, schema, list)?;
    require(alloc, takes, ZoneCode::Z4KeyKind, list.name())
}

// All that is checked of a list.
fn check_list(
    alloc: Global,
    schema: &Schema,
    list: ZoneList,
    values: &[Value],
) -> Result<(), ZoneAnswer>
    ensures { IsReadOf (zone_list_checks schema.now list (strings_in values.now)) tt result }
{
    let few = values.len() <= MOST_LISTED;
    require(alloc, few, ZoneCode::Z5Limit, list.name())?;
    let fits = are_of_form(list, values);
    require(alloc, fits, ZoneCode::Z3BadValue, list.name())?;
    check_key(alloc, schema, list, values)
}

// The texts of strings.
fn texts_of(alloc: Global, values: &[Value]) -> Result<TextList, NoMemory>
    ensures { IfOk result (λ texts. texts ≡ texts_of (strings_in values.now)) }
{
    let mut texts = List::new(alloc);
    for value in values {
        texts.push(Text::of(alloc, string_of(value))?)?;
    }
    Ok(texts)
}

// The blocks that strings spell.
fn blocks_of(alloc: Global, values: &[Value]) -> Result<BlockList, NoMemory>
    ensures { IfOk result (λ blocks. blocks ≡ filter_map block_spelled (strings_in values.now)) }
{
    let mut blocks = List::new(alloc);
    for value in values {
        if let Ok(block) = read_block(string_of(value)) {
            blocks.push(block)?;
        }
    }
    Ok(blocks)
}

// Reads a list of texts.
fn read_texts(
    alloc: Global,
    schema: &Schema,
    list: ZoneList,
    file: &Value,
) -> Result<TextList, ZoneAnswer>
    ensures { IsReadOf (list_checks_in schema.now (view file.now) list)
        (texts_of (members_of list (view file.now))) result }
{
    let values = list_under(file, list.name());
    check_list(alloc, schema, list, values)?;
    Ok(texts_of(alloc, values)?)
}

// Reads the list of blocks.
fn read_blocks(alloc: Global, schema: &Schema, file: &Value) -> Result<BlockList, ZoneAnswer>
    ensures { IsReadOf (list_checks_in schema.now (view file.now) list_of.Blocks)
        (filter_map block_spelled (members_of list_of.Blocks (view file.now))) result }
{
    let list = ZoneList::Blocks;
    let values = list_under(file, list.name());
    check_list(alloc, schema, list, values)?;
    Ok(blocks_of(alloc, values)?)
}

// The zone of a file that is JSON.
fn read_file(alloc: Global, schema: &Schema, file: &Value) -> Result<Zone, ZoneAnswer>
    ensures { IsReadOf (zone_checks schema.now (view file.now)) (zone_of (view file.now)) result }
{
    check_form(alloc, file)?;
    let accounts = read_texts(alloc, schema, ZoneList::Accounts, file)?;
    let blocks = read_blocks(alloc, schema, file)?;
    let organizations = read_texts(alloc, schema, ZoneList::Organizations, file)?;
    let vpcs = read_texts(alloc, schema, ZoneList::Vpcs, file)?;
    Ok(Zone {
        accounts,
        organizations,
        vpcs,
        blocks,
    })
}

/// The zone that a file stands for: an object of the lists `Accounts`, `Blocks`, `Organizations` and `Vpcs`; any
/// list may be left out. The schema gives the key of each list that isn't empty one value of its kind. `Refused`
/// with the file's first fault exactly where it has one. First come faults of the file as a whole; then list by list,
/// in the order of their names, the number of its members, their form, and its key. `NoMemory` only where there is no
/// memory.
pub fn read_zone(alloc: Global, schema: &Schema, bytes: &[u8]) -> Result<Zone, ZoneAnswer>
    ensures value { IsZoneFrom schema.now bytes.now result }
    ensures takes { IfOk result (TakesZone schema.now) }
    ensures sound { IfOk result ZoneIsSound }
{
    let Some(file) = read_json(alloc, bytes)? else {
        return Err(refusal(alloc, ZoneCode::Z1NotJson, ""));
    };
    read_file(alloc, schema, &file)
}
