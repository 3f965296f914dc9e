//! The answers to a comparison of two sets, and to a check of a certificate of one.
use policy_model::Request;
use proof_text::ProofFault;
use run_inputs::Shortage;

/// What a comparison came to.
#[derive(Drop)]
pub enum ComparisonAnswer {
    /// The second set allows every valid request that the first allows.
    NotMore,
    /// `NotMore`, with the text of its certificate.
    Proved(String),
    /// A valid request that the first set allows and the second doesn't.
    More(Request),
    /// The search would need more than it may take.
    Undecided(Shortage),
}

/// What a check of a certificate came to.
#[derive(Clone, Copy)]
pub enum CheckAnswer {
    /// The certificate closes the query, so the second set allows every valid request that the first
    /// allows.
    Accepted,
    /// The line of the certificate's first node that fails.
    NotClosing(u32),
    /// The certificate's first fault.
    BadProof(ProofFault),
}
