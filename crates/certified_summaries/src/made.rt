//! The strata of a region by dimensions.
ghost use Rattle.std.specs.Prelude.{◌≡◌, ◌≤◌, true};
ghost use Rattle.command_words.specs.Asked.{are_dimensions, texts_in};
ghost use Rattle.run_inputs.specs.Printing.{IfAnswered, OrAnswered};
ghost use Rattle.summary_answers.specs.Subjects.{SubjectFits};
ghost use Rattle.certified_summaries.specs.Made.{HasDimension, IsMade, IsNotMade, PrintsUnmade};

use policy_compile::Query;
use run_inputs::{EarlyEnd, Shortage, Status, shortage_text};
use std::alloc::Global;
use strata::{Strata, StrataFault};
use summary_answers::{Subject, ended, query_of, slots_of, too_many_line};
use summary_search::{find_strata, strata_are_made};

/// The query of a region and its strata by dimensions.
#[derive(Drop)]
pub(crate) struct Made {
    pub query: Query,
    pub strata: Strata,
}

// What is printed where there are no strata.
fn unmade(alloc: Global, names: &[String], states: u32, fault: StrataFault) -> EarlyEnd
    requires { HasDimension (texts_in names.now) fault }
    ensures { IfAnswered result (PrintsUnmade (texts_in names.now) states fault) }
{
    match fault {
        StrataFault::TooManyPredicates(dimension) => {
            ended(too_many_line(alloc, names, dimension), Status::Refused)
        }
        StrataFault::Wide(slot, _) => {
            let shortage = Shortage::States(states, slot);
            ended(shortage_text(alloc, &shortage), Status::Undecided)
        }
        StrataFault::NoMemory => EarlyEnd::NoMemory,
    }
}

/// The query of a region and its strata by the dimensions of these names. Otherwise what is printed: the first name
/// of no dimension, the limit that the query is past, the first dimension with too many named predicates, or that
/// two predicates of one need more states.
///
/// There are one to four names, which differ in more than the case of letters, and at least 1 state.
pub(crate) fn make_strata(
    alloc: Global,
    subject: &Subject,
    names: &[String],
    predicates: u32,
    states: u32,
) -> Result<Made, EarlyEnd>
    requires fits { SubjectFits subject.now }
    requires dimensions { are_dimensions (texts_in names.now) ≡ true }
    requires states { 1 ≤ states }
    ensures { OrAnswered result (IsMade (texts_in names.now) predicates subject.now)
        (IsNotMade (texts_in names.now) predicates states subject.now) }
{
    let slots = slots_of(alloc, &subject.schema, names)?;
    let query = query_of(alloc, subject)?;
    strata_are_made();
    match find_strata(alloc, &subject.schema, &query, &slots, predicates, states) {
        Ok(strata) => Ok(Made { query, strata }),
        Err(fault) => Err(unmade(alloc, names, states, fault)),
    }
}
