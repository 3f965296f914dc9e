//! Summarises a region by dimensions.
ghost use Rattle.std.specs.Prelude.{◌≡◌, true};
ghost use Rattle.command_words.specs.Asked.{are_dimensions, texts_in};
ghost use Rattle.policy_compile.specs.Queries.{IsQuery, IsQueryOf};
ghost use Rattle.summary_search.specs.Outcomes.{AreAskable, AreInRange};
ghost use Rattle.run_inputs.specs.Printing.{OrAnswered};
ghost use Rattle.run_inputs.specs.PastLimits.{IsPlanPastLimit};
ghost use Rattle.run_inputs.specs.Refusals.{IsRefusedBy};
ghost use Rattle.summary_answers.specs.Found.{AreWellKept, HasTexts, IsFoundIn, IsFoundOf, IsNotFound, IsSubjectOutcome, PrintsUnfound};
ghost use Rattle.summary_answers.specs.Subjects.{SubjectFits, subject_plan};

use crate::answer::Found;
use crate::dimensions::slots_of;
use crate::ending::{ended, findings_line, splits_line, states_line, too_many_line};
use crate::subject::Subject;
use findings::{Finding, Region};
use policy_compile::{Query, QueryFault, query, set_query};
use policy_model::{Request, SlotList};
use request_build::sound_schemas_have_requests;
use request_json::written_requests_are_read_again;
use run_inputs::{EarlyEnd, Refusal, Shortage, Status, refused, shortage_text};
use std::alloc::Global;
use summary_search::{Limits, Outcome, find_summary};

// Whether a request lies in the region.
fn region_query(alloc: Global, subject: &Subject) -> Result<Query, QueryFault>
    ensures { IsQueryOf (subject_plan subject.now) result }
{
    match &subject.region {
        Region::AllowedBy(set) => set_query(alloc, &subject.schema, set),
        Region::NewlyAllowed(first, second) => query(alloc, &subject.schema, first, second),
    }
}

/// The query of the region, or the line on the limit that it is past.
pub fn query_of(alloc: Global, subject: &Subject) -> Result<Query, EarlyEnd>
    ensures { OrAnswered result (IsQuery (subject_plan subject.now))
        (IsRefusedBy (IsPlanPastLimit (subject_plan subject.now))) }
{
    match region_query(alloc, subject) {
        Ok(query) => Ok(query),
        Err(QueryFault::TooManyTests) => Err(refused(alloc, Refusal::TooManyTests)),
        Err(QueryFault::TooManyPieces) => Err(refused(alloc, Refusal::TooManyPieces)),
        Err(QueryFault::NoMemory) => Err(EarlyEnd::NoMemory),
    }
}

// The query of the region and what its summary by the slots comes to, or the line on the limit that the query is
// past.
fn outcome_of(
    alloc: Global,
    subject: &Subject,
    slots: &SlotList,
    limits: Limits,
) -> Result<(Query, Outcome), EarlyEnd>
    requires fits { SubjectFits subject.now }
    requires askable { AreAskable subject.now.schema slots.now }
    requires limits { AreInRange limits }
    ensures { OrAnswered result (λ came. IsSubjectOutcome slots.now limits subject.now came.0 came.1)
        (IsRefusedBy (IsPlanPastLimit (subject_plan subject.now))) }
{
    let query = query_of(alloc, subject)?;
    let outcome = find_summary(alloc, &subject.schema, &query, slots, limits)?;
    Ok((query, outcome))
}

// Each request has its keys once, with values, and of texts.
fn requests_are_well_kept(summary: &[(Finding, Request)])
    ensures { AreWellKept summary.now }
{
    for found in summary {
        found.1.keys_are_well_kept();
    }
}

// What was found, or what is printed of another outcome.
fn found_in(
    alloc: Global,
    names: &[String],
    limits: Limits,
    query: Query,
    outcome: Outcome,
) -> Result<Found, EarlyEnd>
    requires { HasTexts (texts_in names.now) outcome }
    ensures { OrAnswered result (IsFoundIn query outcome)
        (PrintsUnfound (texts_in names.now) limits outcome) }
{
    match outcome {
        Outcome::Found(strata, summary) => {
            requests_are_well_kept(summary.as_slice());
            Ok(Found {
                query,
                strata,
                summary,
            })
        }
        Outcome::TooManyPredicates(dimension) => {
            Err(ended(too_many_line(alloc, names, dimension), Status::Refused))
        }
        Outcome::Wide(slot, _) => {
            let shortage = Shortage::States(limits.states, slot);
            Err(ended(shortage_text(alloc, &shortage), Status::Undecided))
        }
        Outcome::OutOfFindings => {
            Err(ended(findings_line(alloc, limits.findings), Status::Undecided))
        }
        Outcome::OutOfSplits(strata, finding) => {
            let line = splits_line(alloc, limits.splits, &strata, &finding);
            Err(ended(line, Status::Undecided))
        }
        Outcome::OutOfStates(strata, finding, wide) => {
            let line = states_line(alloc, limits.states, &wide.slot, &strata, &finding);
            Err(ended(line, Status::Undecided))
        }
    }
}

/// The summary of a region by the dimensions of these names. Otherwise what is printed: the first name of no
/// dimension, the limit that the query of the region is past, the first dimension with too many named predicates, or
/// the limit of the summary that is too small.
///
/// There are one to four names, which differ in more than the case of letters, and each limit is at least 1.
pub fn found(
    alloc: Global,
    subject: &Subject,
    names: &[String],
    limits: Limits,
) -> Result<Found, EarlyEnd>
    requires fits { SubjectFits subject.now }
    requires dimensions { are_dimensions (texts_in names.now) ≡ true }
    requires limits { AreInRange limits }
    ensures { OrAnswered result (IsFoundOf (texts_in names.now) limits subject.now)
        (IsNotFound (texts_in names.now) limits subject.now) }
{
    let slots = slots_of(alloc, &subject.schema, names)?;
    let (query, outcome) = outcome_of(alloc, subject, &slots, limits)?;
    sound_schemas_have_requests();
    written_requests_are_read_again();
    found_in(alloc, names, limits, query, outcome)
}
