//! What `clap` makes of the words of a command, and what its matches say.
ghost use Rattle.std.specs.Prelude.{◌≡◌, ◌≤◌, map, true, IfOk, IfSome, option_map, string_bytes};
ghost use Rattle.clap.specs.Words.{IsParsedFrom, app_of, first_of, found_of, is_simple_and_free, rows_of};
ghost use Rattle.command_words.specs.Asked.{has_flag, name_at, names_at, number_or, texts_in};
ghost use Rattle.command_words.specs.Parsing.{HasNumberUpTo, Parses};

use clap::error::ErrorKind;
use clap::{ArgMatches, Command};
use plain_lists::NoMemory;
use std::alloc::{AllocError, Global};

/// The matches of the words, or none where the command refuses them.
pub(crate) fn parsed<'a>(
    form: Command<'a>,
    words: &'a [String],
) -> Result<Option<ArgMatches<'a>>, NoMemory>
    requires { is_simple_and_free (app_of form) ≡ true }
    ensures value { IfOk result (Parses (app_of form.entry) (texts_in words.now)) }
    ensures from { IfOk result (λ m. IfSome m (IsParsedFrom form.entry)) }
{
    match form.try_get_matches_from(words) {
        Ok(matches) => Ok(Some(matches)),
        Err(error) => match error.kind() {
            ErrorKind::OutOfMemory => Err(AllocError),
            _ => Ok(None),
        },
    }
}

/// The name at a position that has to be taken.
pub(crate) fn name_at(alloc: Global, matches: &ArgMatches, id: &str) -> Result<String, NoMemory>
    ensures { IfOk result (λ n. string_bytes n ≡ name_at id.now (rows_of (found_of matches.now))) }
{
    String::from_str(alloc, matches.get_str(id).unwrap_or(""))
}

// The texts, owned.
fn owned(alloc: Global, texts: &[&str]) -> Result<Vec<String>, NoMemory>
    ensures { IfOk result (λ all. texts_in all.items ≡ map (λ text. text.now) texts.now) }
{
    let mut all = Vec::new(alloc);
    for text in texts {
        all.push(String::from_str(alloc, text)?)?;
    }
    Ok(all)
}

/// The names from a position on.
pub(crate) fn names_at(
    alloc: Global,
    matches: &ArgMatches,
    id: &str,
) -> Result<Vec<String>, NoMemory>
    ensures { IfOk result
        (λ all. texts_in all.items ≡ names_at id.now (rows_of (found_of matches.now))) }
{
    match matches.get_strs(id) {
        Some(texts) => owned(alloc, texts),
        None => Ok(Vec::new(alloc)),
    }
}

/// The name of a file that an option gives, if it does.
pub(crate) fn file_of(
    alloc: Global,
    matches: &ArgMatches,
    id: &str,
) -> Result<Option<String>, NoMemory>
    ensures { IfOk result (λ n. option_map (λ s. string_bytes s) n
        ≡ first_of id.now (rows_of (found_of matches.now))) }
{
    match matches.get_str(id) {
        Some(name) => Ok(Some(String::from_str(alloc, name)?)),
        None => Ok(None),
    }
}

/// The number that an option gives, or the number without one.
pub(crate) fn number_or(matches: &ArgMatches, id: &str, most: u32, default: u32) -> u32
    requires read { HasNumberUpTo (found_of matches.now) id.now most }
    requires least { 1 ≤ default }
    requires most { default ≤ most }
    ensures value { result ≡ number_or default id.now (rows_of (found_of matches.now)) }
    ensures range { (1 ≤ result) × (result ≤ most) }
{
    matches.get_one::<u32>(id).unwrap_or(default)
}

/// Whether a flag is set.
pub(crate) fn has_flag(matches: &ArgMatches, id: &str) -> bool
    ensures { result ≡ has_flag id.now (rows_of (found_of matches.now)) }
{
    matches.get_one::<bool>(id).unwrap_or(false)
}
