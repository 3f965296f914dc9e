//! The lines before the certificate of a summary: how many findings there are, and for each its text and a
//! request.
ghost use Rattle.std.specs.Prelude.{◌≡◌, ◌+◌, ◌*◌, ◌≤◌, ◌<◌, ◌^◌, All, IfOk, MatchOption, length};
ghost use Rattle.command_words.specs.declared.limits.TheConstants.{MOST_FINDINGS};
ghost use Rattle.proof_text.specs.declared.limits.TheConstants.{MOST_PROOF_BYTES};
ghost use Rattle.certified_summaries.specs.Reading.{IsNumberable, AreTextsOf, IsCountIn, IsCountRead, IsFindingRead, IsHeadRead, IsPairRead, IsRequestOf, IsRequestRead};

use crate::fault::{HeadAnswer, HeadCode, fault_at};
use crate::wording::{TextTable, finding_of, texts_of};
use command_words::MOST_FINDINGS;
use findings::{Finding, Summary};
use plain_lists::NoMemory;
use policy_model::Request;
use proof_text::{content_of, decimal_in, first_line};
use request_json::{RequestAnswer, RequestReader};
use std::alloc::{AllocError, Global};
use strata::Strata;

// The number in a line that says how many findings there are, where it is at most 1,000,000.
fn count_in(line: &[u8]) -> Option<u32>
    ensures { IsCountIn line.now result }
{
    let Some(content) = content_of(line) else {
        return None;
    };
    let Some(digits) = content.strip_prefix(b"findings: ") else {
        return None;
    };
    let Some(count) = decimal_in(digits) else {
        return None;
    };
    if count > MOST_FINDINGS {
        return None;
    }
    Some(count)
}

// How many findings the first line of a file says that there are, and what stands behind it.
fn read_count(bytes: &[u8]) -> Option<(u32, &[u8])>
    ensures { IsCountRead bytes.now result }
{
    let Some((line, behind)) = first_line(bytes) else {
        return None;
    };
    let Some(count) = count_in(line) else {
        return None;
    };
    Some((count, behind))
}

// The finding whose line stands first, of this number, and what stands behind it.
fn read_finding<'a>(
    alloc: Global,
    strata: &Strata,
    table: &TextTable,
    number: u32,
    bytes: &'a [u8],
) -> Result<(Finding, &'a [u8]), HeadAnswer>
    requires { AreTextsOf strata.now.dimensions table.now }
    ensures { IsFindingRead strata.now.dimensions number bytes.now result }
{
    let Some((line, behind)) = first_line(bytes) else {
        return Err(fault_at(number, HeadCode::C5Count));
    };
    let Some(content) = content_of(line) else {
        return Err(fault_at(number, HeadCode::C6Finding));
    };
    match finding_of(alloc, strata, table, content)? {
        Some(finding) => Ok((finding, behind)),
        None => Err(fault_at(number, HeadCode::C6Finding)),
    }
}

// The request that the text is read as, or none where it is read as none.
fn request_of(
    alloc: Global,
    reader: &RequestReader<'_>,
    text: &[u8],
) -> Result<Option<Request>, NoMemory>
    ensures { IfOk result (IsRequestOf reader.now text.now) }
{
    match reader.read(alloc, text) {
        Ok(request) => Ok(Some(request)),
        Err(RequestAnswer::Refused(_)) => Ok(None),
        Err(RequestAnswer::NoMemory) => Err(AllocError),
    }
}

// The request whose line stands first, of this number, and what stands behind it.
fn read_request_line<'a>(
    alloc: Global,
    reader: &RequestReader<'_>,
    number: u32,
    bytes: &'a [u8],
) -> Result<(Request, &'a [u8]), HeadAnswer>
    ensures { IsRequestRead reader.now number bytes.now result }
{
    let Some((line, behind)) = first_line(bytes) else {
        return Err(fault_at(number, HeadCode::C5Count));
    };
    let Some(content) = content_of(line) else {
        return Err(fault_at(number, HeadCode::C7Request));
    };
    match request_of(alloc, reader, content)? {
        Some(request) => Ok((request, behind)),
        None => Err(fault_at(number, HeadCode::C7Request)),
    }
}

// The finding and the request whose lines stand first, and what stands behind them. The first line has this
// number.
fn read_pair<'a>(
    alloc: Global,
    reader: &RequestReader<'_>,
    strata: &Strata,
    table: &TextTable,
    number: u32,
    bytes: &'a [u8],
) -> Result<((Finding, Request), &'a [u8]), HeadAnswer>
    requires table { AreTextsOf strata.now.dimensions table.now }
    requires number { number ≤ 2 * MOST_FINDINGS }
    ensures { IsPairRead reader.now strata.now.dimensions number bytes.now result }
{
    let (finding, behind) = read_finding(alloc, strata, table, number, bytes)?;
    let (request, behind) = read_request_line(alloc, reader, number + 1, behind)?;
    Ok(((finding, request), behind))
}

/// The findings and requests whose lines stand before the certificate of a file. `Refused` with the first
/// line that isn't as it must be, exactly where there is one. `NoMemory` only where there is no memory.
pub(crate) fn read_head(
    alloc: Global,
    reader: &RequestReader<'_>,
    strata: &Strata,
    bytes: &[u8],
) -> Result<Summary, HeadAnswer>
    requires { All (λ d. IsNumberable d.predicates) strata.now.dimensions }
    ensures { IsHeadRead reader.now strata.now.dimensions bytes.now result }
{
    let Some((count, behind)) = read_count(bytes) else {
        return Err(fault_at(1, HeadCode::C5Count));
    };
    let table = texts_of(alloc, strata)?;
    let mut pairs = Summary::new(alloc);
    let mut rest = behind;
    'pairs: for place in 0..count {
        let (pair, behind) = read_pair(alloc, reader, strata, &table, 2 * place + 2, rest)?;
        pairs.push(pair)?;
        rest = behind;
    }
    Ok(pairs)
}
