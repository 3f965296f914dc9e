//! Where the tests of queries come from, and their limits. Each law is a function that does nothing, and
//! whose contract states it.
ghost use Rattle.policy_compile.specs.Limits.{PartsAskNoOtherTests, QueriesAreWithinLimits, QueryLimits, SameTestsMeetLimitsAlike, TestsComeFromElements};

/// Each test of `set_query` is asked by an element or by a condition of some statement of the set.
pub fn tests_come_from_elements()
    ensures { TestsComeFromElements }
{}

/// Two queries with the same tests, in whatever order, are past the same limits.
pub fn same_tests_meet_limits_alike()
    ensures { SameTestsMeetLimitsAlike }
{}

/// Where there is a query, its tests and their pieces are within the limits.
pub fn queries_are_within_limits()
    ensures { QueriesAreWithinLimits }
{}

/// The query of a set and of another, whose statements are all among the set's, has the tests of
/// `set_query` of the set, whichever of the two is the first.
pub fn parts_ask_no_other_tests()
    ensures { PartsAskNoOtherTests }
{}

/// A query has at most 1,000 tests, with at most 65,536 pieces; an account has 24.
pub fn query_limits()
    ensures { QueryLimits }
{}
