//! What the answers rest on. Each law is a function that does nothing, and whose contract states it.
ghost use Rattle.set_questions.specs.Laws.{ChangeQueriesTell, ChangesAskAsTheSet, LastAllowsOfGuards, TwinsAreIdle, WithoutStaysSound, WithoutTakesOne};

/// `without` takes just the statement of its name away; documents and guards stay.
pub fn without_takes_one()
    ensures { WithoutTakesOne }
{}

/// A schema that fits a set fits it without a statement, and that set is sound where the set is.
pub fn without_stays_sound()
    ensures { WithoutStaysSound }
{}

/// The change query of a statement has the tests of the set's query, so the two are past a limit alike.
pub fn changes_ask_as_the_set()
    ensures { ChangesAskAsTheSet }
{}

/// A request that meets the change query of a statement shows the statement used, and that no valid request does
/// shows the statement idle.
pub fn change_queries_tell()
    ensures { ChangeQueriesTell }
{}

/// Of two equal statements of the grants each is idle by itself, since the other stays.
pub fn twins_are_idle()
    ensures { TwinsAreIdle }
{}

/// The last Allow statement of a guard is idle exactly where the set allows no valid request: the guard stays
/// without it, and lets nothing pass.
pub fn last_allows_of_guards()
    ensures { LastAllowsOfGuards }
{}
