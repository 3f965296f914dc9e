//! Certificates: refutations of queries as texts that anyone can check.
#![tactic(auto)]

mod answers;
mod fault;
mod laws;
mod limits;
mod lines;
mod location;
mod nodes;
mod numbers;
mod parts;
mod read;
mod sizes;
mod slots;
mod states;
mod write;

pub use fault::{ProofAnswer, ProofCode, ProofFault};
pub use laws::{
    closing_proofs_are_small, closing_proofs_have_no_fault, closing_proofs_have_no_fault_behind,
    one_proof_for_each_text,
};
pub use limits::{MOST_NESTING, MOST_NUMBER, MOST_PROOF_BYTES};
pub use location::first_line;
pub use numbers::decimal_in;
pub use parts::content_of;
pub use plain_lists::NoMemory;
pub use read::{LineList, ReadProof, read_proof, read_proof_from};
pub use sizes::certificate_limits;
pub use write::write_proof;
