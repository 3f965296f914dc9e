//! Checks a file with a summary and a certificate of it.
ghost use Rattle.std.specs.Prelude.{◌≡◌, ◌<◌, ◌≤◌, ◌^◌, All, length};
ghost use Rattle.command_words.specs.declared.limits.TheConstants.{MOST_FINDINGS};
ghost use Rattle.policy_model.specs.Soundness.{SchemaIsSound, TestSuits};
ghost use Rattle.proof_text.specs.declared.limits.TheConstants.{MOST_PROOF_BYTES};
ghost use Rattle.refute_check.specs.Proofs.{proof_of, size};
ghost use Rattle.findings.specs.CoverQueries.{IsCoverOf};
ghost use Rattle.findings.specs.Findings.{IsFinding};
ghost use Rattle.findings.specs.Queries.{AreMadeFor};
ghost use Rattle.findings.specs.Summaries.{findings_of};
ghost use Rattle.run_inputs.specs.Printing.{IfPrinted, OrAnswered};
ghost use Rattle.certified_summaries.specs.Heads.{IsHead};
ghost use Rattle.certified_summaries.specs.Judged.{HasHeadLines, IsBadCertificatePrinted, IsBadHeadPrinted, IsCertificateRead, IsClosingPrinted, IsJudged, IsListJudged, IsReadJudged};
ghost use Rattle.certified_summaries.specs.Reading.{IsNumberable};

use crate::cover::cover_of;
use crate::fault::HeadAnswer;
use crate::head::read_head;
use crate::made::Made;
use crate::text::{head_fault_text, not_summary_line};
use findings::{Summary, SummaryVerdict, check_summary, closed_covers_leave_nobody_out};
use policy_compile::Query;
use policy_model::Schema;
use proof_text::{ProofAnswer, ReadProof, read_proof_from};
use refute_check::{Verdict, check};
use request_json::RequestReader;
use run_inputs::{EarlyEnd, Printed, Status, accepted_line, not_closing_line, proof_fault_text};
use std::alloc::Global;
use strata::Strata;
use summary_answers::{Subject, ended};

// The pairs whose lines stand before the certificate, or the line on the first line that fails.
fn head_of(
    alloc: Global,
    subject: &Subject,
    strata: &Strata,
    bytes: &[u8],
) -> Result<Summary, EarlyEnd>
    requires { All (λ d. IsNumberable d.predicates) strata.now.dimensions }
    ensures { OrAnswered result (IsHead subject.now.schema strata.now.dimensions bytes.now)
        (IsBadHeadPrinted subject.now strata.now.dimensions bytes.now) }
{
    let reader = RequestReader::new(alloc, &subject.schema)?;
    match read_head(alloc, &reader, strata, bytes) {
        Ok(pairs) => Ok(pairs),
        Err(HeadAnswer::Refused(fault)) => {
            Err(ended(head_fault_text(alloc, fault), Status::BadProof))
        }
        Err(HeadAnswer::NoMemory) => Err(EarlyEnd::NoMemory),
    }
}

// The certificate behind the lines of the pairs, or the line on its first fault.
fn certificate_of(
    alloc: Global,
    schema: &Schema,
    query: &Query,
    pairs: &Summary,
    bytes: &[u8],
) -> Result<ReadProof, EarlyEnd>
    requires short { length bytes.now ≤ MOST_PROOF_BYTES }
    requires count { length query.now.tests < 2 ^ 32 }
    requires head { HasHeadLines bytes.now pairs.now }
    ensures { OrAnswered result (IsCertificateRead schema.now query.now pairs.now bytes.now)
        (IsBadCertificatePrinted schema.now query.now pairs.now bytes.now) }
{
    let line = 2 * pairs.len() as u32 + 2;
    match read_proof_from(alloc, query.tests.len() as u32, schema.version, line, bytes) {
        Ok(read) => Ok(read),
        Err(ProofAnswer::Refused(fault)) => {
            Err(ended(proof_fault_text(alloc, fault), Status::BadProof))
        }
        Err(ProofAnswer::NoMemory) => Err(EarlyEnd::NoMemory),
    }
}

// Whether the refutation that was read closes the query, or the line of its first node that fails.
fn print_closing(
    alloc: Global,
    schema: &Schema,
    query: &Query,
    read: &ReadProof,
) -> Result<Printed, EarlyEnd>
    requires sound { SchemaIsSound schema.now }
    requires suit { All (TestSuits schema.now) query.now.tests }
    requires count { length query.now.tests < 2 ^ 32 }
    requires lines { length read.now.lines ≡ size (proof_of read.now.refutation.value) }
    requires few { size (proof_of read.now.refutation.value) < 2 ^ 32 }
    ensures { IfPrinted result (IsClosingPrinted schema.now query.now read.now) }
{
    match check(alloc, schema, query, &read.refutation)? {
        Verdict::Closes => Ok(Printed {
            text: accepted_line(alloc)?,
            status: Status::Holds,
        }),
        Verdict::Fails { node } => {
            let line = read.lines.as_slice()[node as usize];
            Ok(Printed {
                text: not_closing_line(alloc, line)?,
                status: Status::BadProof,
            })
        }
    }
}

// What is printed of pairs whose certificate was read.
fn judge_read(
    alloc: Global,
    subject: &Subject,
    made: &Made,
    pairs: &Summary,
    query: &Query,
    read: &ReadProof,
) -> Result<Printed, EarlyEnd>
    requires made { AreMadeFor subject.now.schema subject.now.region made.now.query made.now.strata }
    requires findings { All (IsFinding made.now.strata.dimensions) (findings_of pairs.now) }
    requires few { length pairs.now ≤ MOST_FINDINGS }
    requires cover { IsCoverOf made.now.query made.now.strata (findings_of pairs.now) query.now }
    requires lines { length read.now.lines ≡ size (proof_of read.now.refutation.value) }
    requires nodes { size (proof_of read.now.refutation.value) < 2 ^ 32 }
    ensures { IfPrinted result
        (IsReadJudged subject.now made.now.strata.dimensions pairs.now query.now read.now) }
{
    closed_covers_leave_nobody_out();
    match check_summary(alloc, &subject.schema, &made.strata, &made.query, pairs)? {
        SummaryVerdict::Stands => print_closing(alloc, &subject.schema, query, read),
        SummaryVerdict::Fails { place } => Ok(Printed {
            text: not_summary_line(alloc, 2 * place + 2)?,
            status: Status::BadProof,
        }),
    }
}

// What is printed of pairs whose lines were read.
fn judge_pairs(
    alloc: Global,
    subject: &Subject,
    made: &Made,
    pairs: &Summary,
    bytes: &[u8],
) -> Result<Printed, EarlyEnd>
    requires made { AreMadeFor subject.now.schema subject.now.region made.now.query made.now.strata }
    requires short { length bytes.now ≤ MOST_PROOF_BYTES }
    requires head { IsHead subject.now.schema made.now.strata.dimensions bytes.now pairs.now }
    ensures { IfPrinted result
        (IsListJudged subject.now made.now.strata.dimensions bytes.now pairs.now) }
{
    let query = cover_of(alloc, &made.strata, &made.query, pairs)?;
    let read = certificate_of(alloc, &subject.schema, &query, pairs, bytes)?;
    judge_read(alloc, subject, made, pairs, &query, &read)
}

/// What is printed of a file, whether it holds a list that stands for the region and a certificate that the list
/// leaves out no request of the region.
pub(crate) fn judge(
    alloc: Global,
    subject: &Subject,
    made: &Made,
    bytes: &[u8],
) -> Result<Printed, EarlyEnd>
    requires made { AreMadeFor subject.now.schema subject.now.region made.now.query made.now.strata }
    requires numbers { All (λ d. IsNumberable d.predicates) made.now.strata.dimensions }
    requires short { length bytes.now ≤ MOST_PROOF_BYTES }
    ensures { IfPrinted result (IsJudged subject.now made.now.strata.dimensions bytes.now) }
{
    let pairs = head_of(alloc, subject, &made.strata, bytes)?;
    judge_pairs(alloc, subject, made, &pairs, bytes)
}
