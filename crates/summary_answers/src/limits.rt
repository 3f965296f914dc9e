//! The limits of findings.
ghost use Rattle.std.specs.Prelude.{◌≡◌};
ghost use Rattle.command_words.specs.Asked.{HasBudgetsInRange, summarising_in};
ghost use Rattle.summary_search.specs.Outcomes.{AreInRange};
ghost use Rattle.summary_answers.specs.Printed.{PredicateLimits, change_limits_in, limits_in};

use command_words::FindingArguments;
use strata::MOST_PREDICATES;
use summary_search::Limits;

/// The most predicates of a dimension where two sets are asked: one more than a query has tests, for `Every`. Only
/// the values of a key can be more: a test that some value meets none of several conditions names each of these.
pub const MOST_CHANGE_PREDICATES: u32 = 1_001;

/// The limits of the arguments where one set is asked.
pub fn limits_of(arguments: &FindingArguments) -> Limits
    requires { HasBudgetsInRange arguments.now }
    ensures value { result ≡ limits_in (summarising_in arguments.now) }
    ensures range { AreInRange result }
{
    Limits {
        splits: arguments.splits,
        predicates: MOST_PREDICATES,
        states: arguments.states,
        findings: arguments.findings,
    }
}

/// The limits of the arguments where two sets are asked.
pub fn change_limits_of(arguments: &FindingArguments) -> Limits
    requires { HasBudgetsInRange arguments.now }
    ensures value { result ≡ change_limits_in (summarising_in arguments.now) }
    ensures range { AreInRange result }
{
    Limits {
        splits: arguments.splits,
        predicates: MOST_CHANGE_PREDICATES,
        states: arguments.states,
        findings: arguments.findings,
    }
}

/// Where two sets are asked, at most 1,001 predicates of a dimension are named.
pub fn predicate_limits()
    ensures { PredicateLimits }
{}
