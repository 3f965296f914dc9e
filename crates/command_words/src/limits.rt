// The ranges of the numbers of a command line, from 1 on, the numbers that are had unless others are
// asked for, and how many names there may be.

/// The most splits that may be asked for.
pub const MOST_SPLITS: u32 = 1_000_000;

/// The splits of a run that names no others.
pub const DEFAULT_SPLITS: u32 = 100_000;

/// The most product states that may be asked for.
pub const MOST_STATES: u32 = 100_000;

/// The product states of a run that names no others.
pub const DEFAULT_STATES: u32 = 20_000;

/// The most findings that may be asked for.
pub const MOST_FINDINGS: u32 = 1_000_000;

/// The findings of a run that names no others.
pub const DEFAULT_FINDINGS: u32 = 10_000;

/// The most keys that may be asked for.
pub const MOST_KEYS: u32 = 400;

/// The most dimensions of findings.
pub const MOST_DIMENSIONS: usize = 4;
