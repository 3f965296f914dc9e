//! Patterns, and what is wanted of them.
ghost use Rattle.std.proofs.Common.{rules};

use plain_lists::{EqualClone, List};
use wildcard_lang::PatternList;

/// A pattern by its number, counted from 0, and whether it is to match.
#[derive(Clone, Copy)]
pub struct Literal {
    /// The number of the pattern.
    pub pattern: u32,
    /// Whether it is to match.
    pub holds: bool,
}

impl EqualClone for Literal {
    ghost clones_are_equal = { Prim.search rules };
}

/// A clause: a list of literals; one of them is to be met.
pub type LiteralList = List<Literal>;

/// A list of clauses that are all to be met.
pub type ClauseList = List<LiteralList>;

/// Patterns, and clauses over them. A text meets the wants where each clause has a literal whose
/// pattern matches the text or not, as the literal says.
#[derive(Drop)]
pub struct Wants {
    /// The patterns.
    pub patterns: PatternList,
    /// The clauses.
    pub clauses: ClauseList,
}
