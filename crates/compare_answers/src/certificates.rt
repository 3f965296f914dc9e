//! What checks of certificates come to. Each law is a function whose contract states it.
ghost use Rattle.compare_answers.specs.Checks.{ChecksAgree, PrintedProofsAreAccepted};

use proof_text::one_proof_for_each_text;

/// To a check of a file one line is printed for two sets: that it is accepted, the line of its first node
/// that fails, its first fault, or the limit that the query is past. So `accepted` comes exactly where the
/// file is the certificate of a refutation that closes the query.
pub fn checks_agree()
    ensures { ChecksAgree }
{
    one_proof_for_each_text();
}

/// A check of the same files accepts what a comparison prints with a certificate, as long as it has
/// at most 67,108,864 bytes.
pub fn printed_proofs_are_accepted()
    ensures { PrintedProofsAreAccepted }
{
    one_proof_for_each_text();
}
