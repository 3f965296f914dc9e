//! What closes is met by no valid request, and what is checked has one verdict. Each law is a function
//! that does nothing, and whose contract states it.
ghost use Rattle.refute_check.specs.Laws.{ClosedPathsAreNo, ClosedQueriesAreNo};
ghost use Rattle.refute_check.specs.Verdicts.{VerdictsAreEqual};

/// Where a refutation closes a query under a path of answered tests, no valid request answers the path
/// and makes the query yes.
pub fn closed_paths_are_no()
    ensures { ClosedPathsAreNo }
{}

/// Where a refutation closes a query under the empty path, no valid request makes the query yes.
pub fn closed_queries_are_no()
    ensures { ClosedQueriesAreNo }
{}

/// A refutation closes a query or fails at one node: what `check` may answer is one verdict.
pub fn verdicts_are_equal()
    ensures { VerdictsAreEqual }
{}
