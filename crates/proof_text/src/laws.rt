//! What certificates and refutations come to. Each law is a function that does nothing, and whose
//! contract states it.
ghost use Rattle.proof_text.specs.Laws.{ClosingProofsAreSmall, ClosingProofsHaveNoFault};
ghost use Rattle.proof_text.specs.Laws.{ClosingProofsHaveNoFaultBehind, OneProofForEachText};

/// Take a refutation that closes a query, nests at most 2,000 splits and labels and has no number above
/// 4,294,967,295. Its certificate has no fault for that query, up to 67,108,864 bytes, with or without
/// the answer of a comparison before it.
pub fn closing_proofs_have_no_fault()
    ensures { ClosingProofsHaveNoFault }
{}

/// Nor has it a fault for that query where other lines stand before it, of as many as there are.
pub fn closing_proofs_have_no_fault_behind()
    ensures { ClosingProofsHaveNoFaultBehind }
{}

/// No number of any line of such a certificate is above 4,294,967,295.
pub fn closing_proofs_are_small()
    ensures { ClosingProofsAreSmall }
{}

/// A text is the certificate of one refutation at most, where the numbers of its format and of each line
/// are at most 4,294,967,295.
pub fn one_proof_for_each_text()
    ensures { OneProofForEachText }
{}
