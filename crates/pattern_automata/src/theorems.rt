//! What the definitions of closed sets come to. Each law is a function that does nothing, and whose
//! contract states it.

ghost use Rattle.pattern_automata.specs.Closed.{ClosedSetsAreEmpty, ScalarsStepAsRepresentatives, MeetsIsTested, ListsMeetAsTexts};

/// A closed set has no text over all Unicode scalars that meets the clauses.
pub fn closed_sets_are_empty()
    ensures { ClosedSetsAreEmpty }
{}

/// Each Unicode scalar leads from every product state where one of the representatives leads.
pub fn scalars_step_as_representatives()
    ensures { ScalarsStepAsRepresentatives }
{}

/// The test `text_meets` of the definitions answers whether a text meets the clauses.
pub fn meets_is_tested()
    ensures { MeetsIsTested }
{}

/// The product state of a text meets the clauses exactly where the text does.
pub fn lists_meet_as_texts()
    ensures { ListsMeetAsTexts }
{}
