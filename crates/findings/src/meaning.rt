//! What holds of summaries. Each law is a function that does nothing, and whose contract states it.
ghost use Rattle.findings.specs.Laws.{SummariesAreFlat, SummariesAreNeeded, SummariesCover, VisitsAreBounded};

/// Each valid request of the region lies in some finding of the summary.
pub fn summaries_cover()
    ensures { SummariesCover }
{}

/// No finding of a summary is strictly finer than another.
pub fn summaries_are_flat()
    ensures { SummariesAreFlat }
{}

/// Of two different findings of a summary, some valid request lies in the first and not in the second.
pub fn summaries_are_needed()
    ensures { SummariesAreNeeded }
{}

/// Where exactly so many findings must be looked at, no more must be.
pub fn visits_are_bounded()
    ensures { VisitsAreBounded }
{}
