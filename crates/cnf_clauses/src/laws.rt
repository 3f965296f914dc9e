//! What replayed hints say of the formula, from which answers they replay, and how many clauses there are
//! at most. Functions without a body, whose contracts are the laws.
ghost use Rattle.cnf_clauses.specs.Laws.{ClausesHaveTruths, ReplaysExcludeYes, SatisfiedClausesNeverReplay};
ghost use Rattle.cnf_clauses.specs.Numbering.{ClauseLimits};
ghost use Rattle.cnf_clauses.specs.Used.{ReplaysAreConvex};

/// Where hints replay from a path, no completion of the path makes the tree yes. The tests of the
/// tree and of the path are below the number of tests.
pub fn replayed_hints_exclude_yes()
    ensures { ReplaysExcludeYes }
{}

/// Hints that replay from few and from many answers replay from all between. Replaying isn't
/// monotone: a further answer may satisfy a clause that a hint names, and then the replay fails.
pub fn replays_are_convex()
    ensures { ReplaysAreConvex }
{}

/// At most 4,294,967,296 clauses have numbers.
pub fn clause_limits()
    ensures { ClauseLimits }
{}

/// Answers to all tests that make a tree yes leave a truth of every variable, that of its node, under which each of
/// the tree's clauses is satisfied.
pub fn clauses_have_truths()
    ensures { ClausesHaveTruths }
{}

/// Where a truth of every variable satisfies each clause, no hints replay from what it completes: so a clause whose
/// falsity replays to a conflict is satisfied too.
pub fn satisfied_clauses_never_replay()
    ensures { SatisfiedClausesNeverReplay }
{}
