//! What checks of certificates of idle statements come to. The law is a function whose contract states it.
ghost use Rattle.idle_answers.specs.IdleProofs.{IdleProofsAreAccepted};

/// What is printed as the certificate of an idle statement is accepted by a check of the set and the set without
/// the statement, or of a Deny statement of the set without it and the set, under the set's schema and as long
/// as it has at most 67,108,864 bytes. A check of the same sets and certificate has no other answer, by
/// `checks_agree` of `compare_answers`.
pub fn idle_proofs_are_accepted()
    ensures { IdleProofsAreAccepted }
{}
