//! What a certificate may hold.

/// How many splits and labels a node may stand below.
pub const MOST_NESTING: u32 = 2000;

/// The greatest number in a certificate.
pub const MOST_NUMBER: u32 = 4_294_967_295;

/// The most bytes of a certificate.
pub const MOST_PROOF_BYTES: u64 = 67_108_864;

/// What a certificate is read for: a query with so many tests, in the format of this number.
#[derive(Clone, Copy)]
pub(crate) struct Limits {
    pub tests: u32,
    pub version: u32,
}
