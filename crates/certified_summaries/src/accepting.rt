//! What summaries with certificates, and checks of them, come to. Each law is a function whose contract states
//! it.
ghost use Rattle.certified_summaries.specs.Decides.{CertifiedSubjectsAreAccepted, CertifiedSummariesDecide, PrintedSummariesAreAccepted, SummaryChecksDecide};

use findings::{summaries_stand, summary_verdicts_are_equal};
use policy_compile::queries_are_within_limits;
use proof_text::{
    closing_proofs_are_small, closing_proofs_have_no_fault_behind, one_proof_for_each_text,
};
use read_predicates::findings_are_written_apart;
use strata::strata_are_determined;

/// A set whose summary and whose cover need no more than the limits is summarised, with a certificate.
pub fn certified_summaries_decide()
    ensures { CertifiedSummariesDecide }
{}

/// A file is accepted or bad under three conditions: the set is within its limits, the number of states is enough for
/// its strata, and for each list that the file spells the query of the cover has at most 1,000 tests.
pub fn summary_checks_decide()
    ensures { SummaryChecksDecide }
{}

/// What is printed of a region with a certificate is accepted by a check by the same dimensions, as long as it has at
/// most 67,108,864 bytes and the check's number of states is enough for the strata.
pub fn certified_subjects_are_accepted()
    ensures { CertifiedSubjectsAreAccepted }
{
    queries_are_within_limits();
    strata_are_determined();
    findings_are_written_apart();
    closing_proofs_have_no_fault_behind();
    closing_proofs_are_small();
    one_proof_for_each_text();
    summaries_stand();
    summary_verdicts_are_equal();
}

/// What is printed to a summary for which a certificate is asked is accepted so by a check of the same files.
pub(crate) fn printed_summaries_are_accepted()
    ensures { PrintedSummariesAreAccepted }
{
    certified_subjects_are_accepted();
}
