//! Certificates of summaries.
ghost use Rattle.std.specs.Prelude.{IfOk};
ghost use Rattle.findings.specs.Queries.{AreMadeFor};
ghost use Rattle.findings.specs.Summaries.{IsSummary};
ghost use Rattle.refute_check.specs.Proofs.{proof_of};
ghost use Rattle.run_inputs.specs.Printing.{IfPrinted};
ghost use Rattle.summary_search.specs.Outcomes.{AreInRange};
ghost use Rattle.summary_answers.specs.Found.{HaveFindings};
ghost use Rattle.certified_summaries.specs.Certified.{IsCertifiedText, IsCoverSaid};

use crate::cover::cover_of;
use crate::text::{cover_splits_line, cover_states_line};
use findings::summaries_cover;
use proof_text::write_proof;
use refute_check::Refutation;
use run_inputs::{EarlyEnd, Printed, Status};
use std::alloc::{AllocError, Global};
use summary_answers::{Found, Subject, found_text};
use summary_search::Limits;
use tree_search::{Budgets, Decided, decide};

// The text of a summary, and behind it the certificate of a refutation.
fn certified_text(
    alloc: Global,
    found: &Found,
    refutation: &Refutation,
    version: u32,
) -> Result<String, AllocError>
    requires { HaveFindings found.now.strata.dimensions found.now.summary }
    ensures { IfOk result (IsCertifiedText found.now version (proof_of refutation.now)) }
{
    let mut text = found_text(alloc, found)?;
    let proof = write_proof(alloc, refutation, version)?;
    text.push_str(proof.as_str())?;
    Ok(text)
}

/// What is printed of the summary that was found of a region: with a certificate that no valid request of the region
/// lies outside its findings, with this status, or why there is none.
pub(crate) fn certify(
    alloc: Global,
    subject: &Subject,
    found: &Found,
    status: Status,
    limits: Limits,
) -> Result<Printed, EarlyEnd>
    requires made { AreMadeFor subject.now.schema subject.now.region found.now.query
        found.now.strata }
    requires summary { IsSummary subject.now.schema subject.now.region
        found.now.strata.dimensions found.now.summary }
    requires findings { HaveFindings found.now.strata.dimensions found.now.summary }
    requires limits { AreInRange limits }
    ensures { IfPrinted result (IsCoverSaid status limits subject.now found.now) }
{
    let query = cover_of(alloc, &found.strata, &found.query, &found.summary)?;
    let budgets = Budgets {
        splits: limits.splits,
        states: limits.states,
    };
    summaries_cover();
    match decide(alloc, &subject.schema, &query, budgets)? {
        Decided::Refuted(refutation) => Ok(Printed {
            text: certified_text(alloc, found, &refutation, subject.schema.version)?,
            status,
        }),
        // Each request of the region lies in a finding of its summary.
        Decided::Met(_) => unreachable!(),
        Decided::OutOfSplits => Ok(Printed {
            text: cover_splits_line(alloc, limits.splits)?,
            status: Status::Undecided,
        }),
        Decided::OutOfStates(wide) => Ok(Printed {
            text: cover_states_line(alloc, limits.states, &wide.slot)?,
            status: Status::Undecided,
        }),
    }
}
