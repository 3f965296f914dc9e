//! What holds of strata. Each law is a function that does nothing, and whose contract states it.
ghost use Rattle.strata.specs.Laws.{StrataAreDetermined, StrataLimits};

/// Two strata of the same slots, query and schema are equal.
pub fn strata_are_determined()
    ensures { StrataAreDetermined }
{}

/// The most predicates that may be named in a dimension of `strata`, as a number.
pub fn strata_limits()
    ensures { StrataLimits }
{}
