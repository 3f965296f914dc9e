//! The four lists of a zone file.
ghost use Rattle.std.specs.Prelude.{◌≡◌, Some, false, true, is_some, length, nat_le, option_map};
ghost use Rattle.std.specs.List.{list_all};
ghost use Rattle.std.specs.Char.{is_ascii_digit};
ghost use Rattle.std.specs.Str.{chars};
ghost use Rattle.cidr_bits.specs.Readings.{block_spelled};
ghost use Rattle.json_shapes.specs.Json.{views};
ghost use Rattle.serde_json.specs.View.{view};
ghost use Rattle.trust_zones.specs.ZoneFiles.{has_form_of, is_account_number, is_short_name, key_of, list_name, string_of};

use crate::keys::{address_name, organization_name, vpc_name};
use cidr_bits::read_block;
use policy_model::{ACCOUNT_DIGITS, Kind};
use serde_json::Value;
use wildcard_lang::MOST_PIECES;

/// The most members of a list.
pub const MOST_LISTED: usize = 100;

/// A list of a zone file, by its name.
#[derive(Clone, Copy)]
pub(crate) enum ZoneList {
    Accounts,
    Blocks,
    Organizations,
    Vpcs,
}

impl ZoneList {
    /// The name of the list.
    pub(crate) fn name(self) -> &'static str
        ensures { result.now ≡ list_name self }
    {
        match self {
            ZoneList::Accounts => "Accounts",
            ZoneList::Blocks => "Blocks",
            ZoneList::Organizations => "Organizations",
            ZoneList::Vpcs => "Vpcs",
        }
    }

    /// The name of the key whose values the list's members are, and their kind; none where the members are of the
    /// principal.
    pub(crate) fn key(self) -> Option<(&'static str, Kind)>
        ensures { option_map (λ key. (key.0.now, key.1)) result ≡ key_of self }
    {
        match self {
            ZoneList::Accounts => None,
            ZoneList::Blocks => Some((address_name(), Kind::Address)),
            ZoneList::Organizations => Some((organization_name(), Kind::Text)),
            ZoneList::Vpcs => Some((vpc_name(), Kind::Text)),
        }
    }

    /// Whether the text is of the form of the list's members.
    pub(crate) fn takes(self, text: &str) -> bool
        ensures { result ≡ has_form_of self text.now }
    {
        match self {
            ZoneList::Accounts => is_account_number(text),
            ZoneList::Blocks => read_block(text).is_ok(),
            ZoneList::Organizations | ZoneList::Vpcs => is_short_name(text),
        }
    }
}

// How many characters the text has.
fn count_of(text: &str) -> usize
    ensures { result ≡ length (chars text.now) }
{
    text.chars().count()
}

// Whether each of the bytes is a digit.
fn are_digits(bytes: &[u8]) -> bool
    ensures { result ≡ list_all is_ascii_digit bytes.now }
{
    bytes.iter().all(|b| b.is_ascii_digit())
}

// Whether the text is twelve digits.
fn is_account_number(text: &str) -> bool
    ensures { result ≡ is_account_number text.now }
{
    text.len() == ACCOUNT_DIGITS && are_digits(text.as_bytes())
}

// Whether the text has a character, and at most as many as a pattern has pieces.
fn is_short_name(text: &str) -> bool
    ensures { result ≡ is_short_name (chars text.now) }
{
    let count = count_of(text);
    1 <= count && count <= MOST_PIECES
}

/// The string that a value is, or the empty one.
pub(crate) fn string_of(value: &Value) -> &str
    ensures { result.now ≡ string_of (view value.now) }
{
    value.as_str().unwrap_or("")
}
