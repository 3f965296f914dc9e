//! The texts of predicates and findings.
ghost use Rattle.std.specs.Prelude.{◌≡◌, ◌<◌, ◌++◌, IfOk, length, string_bytes};
ghost use Rattle.std.specs.List.{list_any};
ghost use Rattle.serde_json.specs.Data.{string};
ghost use Rattle.serde_json.specs.View.{view};
ghost use Rattle.findings.specs.Findings.{IsFinding};
ghost use Rattle.findings.specs.Texts.{compare_word, cond_text, entry_text, finding_data, finding_text, flag_text, number_text, pattern_text, pattern_word, predicate_text, takes_either_case, is_narrow_wildcard};

use crate::outcome::Finding;
use crate::reading::{dimension_at, predicate_number_at};
use base64::engine::general_purpose::STANDARD;
use cidr_bits::write_block;
use intervals::{Compare, write_decimal};
use plain_lists::NoMemory;
use policy_model::{Cond, Entry};
use serde_json::Value;
use std::alloc::Global;
use strata::{Predicate, Strata, Stratum};
use wildcard_lang::{Pattern, Piece, write_pattern};

// A text behind a word that says what it is.
fn behind(alloc: Global, word: &str, text: &str) -> Result<String, NoMemory>
    ensures { IfOk result (λ s. string_bytes s ≡ word.now ++ text.now) }
{
    format!(in alloc; "{word}{text}")
}

fn entry_text(alloc: Global, entry: &Entry) -> Result<String, NoMemory>
    ensures { IfOk result (λ s. string_bytes s ≡ entry_text entry.now) }
{
    match entry {
        Entry::All => String::from_str(alloc, "any"),
        Entry::Account(account) => {
            let account = account.to_utf8()?;
            format!(in alloc; "account {account}")
        }
        Entry::Kind(kind) => behind(alloc, "kind ", kind.word()),
        Entry::Exact(kind, id) => {
            let id = id.to_utf8()?;
            let kind = kind.word();
            let id = id.as_str();
            format!(in alloc; "{kind} {id}")
        }
    }
}

fn is_narrow_wildcard(piece: Piece) -> bool
    ensures { result ≡ is_narrow_wildcard piece }
{
    match piece {
        Piece::OneNoColon | Piece::ManyNoColon => true,
        _ => false,
    }
}

fn takes_either_case(piece: Piece) -> bool
    ensures { result ≡ takes_either_case piece }
{
    match piece {
        Piece::LitFold(_) => true,
        _ => false,
    }
}

/// Whether one of the pieces is a wildcard that takes no colon.
pub fn some_is_narrow(pieces: &[Piece]) -> bool
    ensures { result ≡ list_any is_narrow_wildcard pieces.now }
{
    pieces.iter().any(|piece| is_narrow_wildcard(*piece))
}

/// Whether one of the pieces is a letter that is taken in either case.
pub fn some_takes_either_case(pieces: &[Piece]) -> bool
    ensures { result ≡ list_any takes_either_case pieces.now }
{
    pieces.iter().any(|piece| takes_either_case(*piece))
}

fn pattern_word(pattern: &Pattern) -> &'static str
    ensures { result.now ≡ pattern_word pattern.now }
{
    if some_is_narrow(pattern.as_slice()) {
        return "arn ";
    }
    if some_takes_either_case(pattern.as_slice()) {
        return "fold ";
    }
    "like "
}

fn pattern_text(alloc: Global, pattern: &Pattern) -> Result<String, NoMemory>
    ensures { IfOk result (λ s. string_bytes s ≡ pattern_text pattern.now) }
{
    let written = write_pattern(alloc, pattern)?.to_utf8()?;
    behind(alloc, pattern_word(pattern), written.as_str())
}

fn compare_word(compare: Compare) -> &'static str
    ensures { result.now ≡ compare_word compare }
{
    match compare {
        Compare::Equal => "= ",
        Compare::Less => "< ",
        Compare::LessOrEqual => "<= ",
        Compare::Greater => "> ",
        Compare::GreaterOrEqual => ">= ",
    }
}

fn flag_text(at_true: bool, at_false: bool) -> &'static str
    ensures { result.now ≡ flag_text at_true at_false }
{
    match (at_true, at_false) {
        (true, true) => "is true or false",
        (true, false) => "is true",
        (false, true) => "is false",
        (false, false) => "is neither",
    }
}

fn cond_text(alloc: Global, cond: &Cond) -> Result<String, NoMemory>
    ensures { IfOk result (λ s. string_bytes s ≡ cond_text cond.now) }
{
    match cond {
        Cond::Matches(pattern) => pattern_text(alloc, pattern),
        Cond::Compares(compare, bound) => {
            let bound = write_decimal(alloc, *bound)?;
            behind(alloc, compare_word(*compare), bound.as_str())
        }
        Cond::Inside(block) => {
            let block = write_block(alloc, block)?;
            behind(alloc, "in ", block.as_str())
        }
        Cond::Flag(at_true, at_false) => { String::from_str(alloc, flag_text(*at_true, *at_false)) }
        Cond::Equals(bytes) => {
            let bytes = STANDARD.encode(alloc, bytes.as_slice())?;
            behind(alloc, "bytes ", bytes.as_str())
        }
    }
}

/// The text of a predicate, as one of the texts of a finding. The only error is want of memory.
pub fn predicate_text(alloc: Global, predicate: &Predicate) -> Result<String, NoMemory>
    ensures { IfOk result (λ s. string_bytes s ≡ predicate_text predicate.now) }
{
    match predicate {
        Predicate::Every => String::from_str(alloc, "any"),
        Predicate::Principal(entry) => entry_text(alloc, entry),
        Predicate::Word(pattern) => pattern_text(alloc, pattern),
        Predicate::Meets(cond) => cond_text(alloc, cond),
    }
}

// The text of the predicate of a number, as JSON.
fn number_json(alloc: Global, stratum: &Stratum, number: usize) -> Result<Value, NoMemory>
    requires { number < length stratum.now.predicates }
    ensures { IfOk result (λ v. view v ≡ string (number_text stratum.now number)) }
{
    let text = predicate_text(alloc, &stratum.predicates.as_slice()[number])?;
    Ok(Value::String(text))
}

fn finding_json(alloc: Global, strata: &Strata, finding: &Finding) -> Result<Value, NoMemory>
    requires { IsFinding strata.now.dimensions finding.now }
    ensures { IfOk result (λ v. view v ≡ finding_data strata.now.dimensions finding.now) }
{
    let mut texts = Vec::new(alloc);
    'dimensions: for i in 0..finding.len() {
        let number = predicate_number_at(finding, i) as usize;
        texts.push(number_json(alloc, dimension_at(strata, i), number)?)?;
    }
    Ok(Value::Array(texts))
}

/// The finding as one line of compact JSON (RFC 8259), without a line feed: the list of the texts of its
/// predicates, in the order of the dimensions.
///
/// The text of the predicate of every request is `any`. A principal is `account` and the digits, `kind`
/// and the kind, or the kind and the id. A pattern, in which the plain characters `*`, `?` and `$` stand
/// as escapes, follows `arn` where a wildcard of it takes no colon, else `fold` where a letter of it is
/// taken in either case, else `like`. A comparison is its sign and the number, a block `in` and the block,
/// a flag `is true`, `is false` or `is true or false`, bytes `bytes` and their Base64 with padding.
///
/// The only error is want of memory.
pub fn finding_text(alloc: Global, strata: &Strata, finding: &Finding) -> Result<String, NoMemory>
    requires finding { IsFinding strata.now.dimensions finding.now }
    ensures { IfOk result (λ s.
        string_bytes s ≡ finding_text strata.now.dimensions finding.now) }
{
    finding_json(alloc, strata, finding)?.to_string(alloc)
}
