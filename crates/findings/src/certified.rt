//! What holds of covers and of summaries that stand. Each law is a function whose contract states it, and
//! that does nothing but call laws.
ghost use Rattle.findings.specs.CoverLaws.{ClosedCoversLeaveNobodyOut, CoverLimits, SummariesStand, SummaryVerdictsAreEqual};

use refute_check::closed_queries_are_no;

/// Where a refutation closes the query of a cover, each valid request of the region lies in one of the
/// findings.
pub fn closed_covers_leave_nobody_out()
    ensures { ClosedCoversLeaveNobodyOut }
{
    closed_queries_are_no();
}

/// The summary of a region stands for it.
pub fn summaries_stand()
    ensures { SummariesStand }
{}

/// A list stands for a region or fails at one pair: what `check_summary` may answer is one verdict.
pub fn summary_verdicts_are_equal()
    ensures { SummaryVerdictsAreEqual }
{}

/// The query of a cover has at most 1,000 tests.
pub fn cover_limits()
    ensures { CoverLimits }
{}
