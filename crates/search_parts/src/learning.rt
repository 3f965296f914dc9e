//! Learning: a split that has closed becomes the node of a label, under as few answers as it needs.
ghost use Rattle.search_parts.specs.Learned.{SearchLimits};

/// The most splits that are learned.
pub const MOST_LEARNED: usize = 20_000;

/// The most splits that are learned, as a number. The law is a function that does nothing, and whose
/// contract states it.
pub fn search_limits()
    ensures { SearchLimits }
{}
