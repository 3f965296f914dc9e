//! What a file is to a run.

/// Which of the files.
#[derive(Clone, Copy)]
pub enum Role {
    First,
    Second,
    Set,
    Schema,
    Request,
    Proof,
    Zone,
}
