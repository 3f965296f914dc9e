//! What queries mean. Each law is a function that does nothing, and whose contract states it.
ghost use Rattle.policy_compile.specs.Laws.{NumbersAreBelow, QueriesCompare, RefutedQueriesCover, SetQueriesAllow, TestsOfQueriesSuit, TestsOfSetQueriesSuit};

/// On a valid request under a schema that fits both sets, where each test is answered as the request
/// answers it, the tree of `query` holds exactly where the first set allows the request and the second
/// doesn't.
pub fn queries_compare()
    ensures { QueriesCompare }
{}

/// Under the conditions of `queries_compare`, where the tree of `query` doesn't hold and the first set allows the
/// request, the second allows it too.
pub fn refuted_queries_cover()
    ensures { RefutedQueriesCover }
{}

/// On a valid request under a schema that fits the set, where each test is answered as the request
/// answers it, the tree of `set_query` holds exactly where the set allows the request.
pub fn set_queries_allow()
    ensures { SetQueriesAllow }
{}

/// Each number in the tree of a query is below the number of its tests.
pub fn numbers_are_below()
    ensures { NumbersAreBelow }
{}

/// Each test of `query` suits the schema, where it fits both sets.
pub fn tests_of_queries_suit()
    ensures { TestsOfQueriesSuit }
{}

/// Each test of `set_query` suits the schema, where it fits the set.
pub fn tests_of_set_queries_suit()
    ensures { TestsOfSetQueriesSuit }
{}
