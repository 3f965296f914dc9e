//! The texts of predicates, by which the findings of a file are found.
ghost use Rattle.std.specs.Prelude.{◌≡◌, All, IfOk};
ghost use Rattle.std.specs.Str.{IsUtf8};
ghost use Rattle.serde_json.specs.View.{view};
ghost use Rattle.command_words.specs.Asked.{texts_in};
ghost use Rattle.certified_summaries.specs.Reading.{IsNumberable, AreTextsOf, IsFindingIn, IsFindingOf, IsNumberIn, IsNumberOf, texts_of_dimension};

use findings::{Finding, finding_text, predicate_text};
use json_shapes::{compact_texts_are_read_again, read_json, values_in};
use plain_lists::{List, NoMemory};
use serde_json::Value;
use std::alloc::Global;
use strata::{Strata, Stratum};

/// The texts of the predicates of each dimension, by their numbers.
pub(crate) type TextTable = List<List<String>>;

// The texts of the predicates of a dimension.
fn texts_of_dimension(alloc: Global, stratum: &Stratum) -> Result<List<String>, NoMemory>
    ensures texts { IfOk result (λ texts. texts_in texts ≡ texts_of_dimension stratum.now) }
    ensures utf8 { IfOk result (λ texts. All IsUtf8 (texts_in texts)) }
{
    let mut texts = List::new(alloc);
    for predicate in stratum.predicates.as_slice() {
        let text = predicate_text(alloc, predicate)?;
        // `as_str` shows that a string is UTF-8: `utf8` rests on it.
        let _words = text.as_str();
        texts.push(text)?;
    }
    Ok(texts)
}

/// The texts of the predicates of each dimension.
pub(crate) fn texts_of(alloc: Global, strata: &Strata) -> Result<TextTable, NoMemory>
    requires { All (λ d. IsNumberable d.predicates) strata.now.dimensions }
    ensures { IfOk result (AreTextsOf strata.now.dimensions) }
{
    let mut table = TextTable::new(alloc);
    for stratum in strata.dimensions.as_slice() {
        table.push(texts_of_dimension(alloc, stratum)?)?;
    }
    Ok(table)
}

// The number of the first text that is this one, or none where there is none.
fn number_of(texts: &[String], text: &str) -> Option<u32>
    requires { IsNumberable texts.now }
    ensures { IsNumberOf (texts_in texts.now) text.now result }
{
    for (i, known) in texts.iter().enumerate() {
        if known.as_str() == text {
            return Some(i as u32);
        }
    }
    None
}

// The number of the first text that the value is, as a string.
fn number_in(texts: &[String], value: &Value) -> Option<u32>
    requires { IsNumberable texts.now }
    ensures { IsNumberIn (texts_in texts.now) (view value.now) result }
{
    match value.as_str() {
        Some(text) => number_of(texts, text),
        None => None,
    }
}

// The finding whose predicates have these texts, or none where there is none.
fn finding_in(
    alloc: Global,
    strata: &Strata,
    table: &TextTable,
    values: &[Value],
) -> Result<Option<Finding>, NoMemory>
    requires { AreTextsOf strata.now.dimensions table.now }
    ensures { IfOk result (IsFindingIn strata.now.dimensions values.now) }
{
    let texts = table.as_slice();
    if values.len() != texts.len() {
        return Ok(None);
    }
    let mut finding = Finding::new(alloc);
    'dimensions: for i in 0..texts.len() {
        let Some(number) = number_in(texts[i].as_slice(), &values[i]) else {
            return Ok(None);
        };
        finding.push(number)?;
    }
    Ok(Some(finding))
}

/// The finding whose text this is, byte for byte, or none where it is that of no finding. A list of texts in
/// JSON is read, and each text is looked up among those of its dimension's predicates.
pub(crate) fn finding_of(
    alloc: Global,
    strata: &Strata,
    table: &TextTable,
    text: &[u8],
) -> Result<Option<Finding>, NoMemory>
    requires { AreTextsOf strata.now.dimensions table.now }
    ensures { IfOk result (IsFindingOf strata.now.dimensions text.now) }
{
    compact_texts_are_read_again();
    let Some(value) = read_json(alloc, text)? else {
        return Ok(None);
    };
    let Some(finding) = finding_in(alloc, strata, table, values_in(&value))? else {
        return Ok(None);
    };
    // Other texts spell this list too: with spaces, or with other escapes.
    let written = finding_text(alloc, strata, &finding)?;
    if written.as_bytes() == text {
        return Ok(Some(finding));
    }
    Ok(None)
}
