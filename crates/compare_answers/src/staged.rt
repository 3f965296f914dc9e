//! Answers by what a query that is decided in stages comes to.
ghost use Rattle.compare_answers.specs.Decided.{IsStagedAnswer, IsToldBy};

use crate::answer::ComparisonAnswer;
use run_inputs::Shortage;
use staged_search::Verdict;
use tree_search::Budgets;

/// The answer to what the query of a pair comes to within the budgets.
pub(crate) fn staged_answer(verdict: Verdict, budgets: Budgets) -> ComparisonAnswer
    ensures { IsStagedAnswer budgets verdict result }
{
    match verdict {
        Verdict::Nobody => ComparisonAnswer::NotMore,
        Verdict::Met(request) => {
            request.keys_are_well_kept();
            ComparisonAnswer::More(request)
        }
        Verdict::OutOfSplits => ComparisonAnswer::Undecided(Shortage::Splits(budgets.splits)),
        Verdict::OutOfStates(wide) => {
            ComparisonAnswer::Undecided(Shortage::States(budgets.states, wide.slot))
        }
    }
}

/// The answer by the reduced query of a pair, where that is decided.
pub(crate) fn told_by(verdict: Verdict) -> Option<ComparisonAnswer>
    ensures { IsToldBy verdict result }
{
    match verdict {
        Verdict::Nobody => Some(ComparisonAnswer::NotMore),
        Verdict::Met(request) => {
            request.keys_are_well_kept();
            Some(ComparisonAnswer::More(request))
        }
        Verdict::OutOfSplits => None,
        Verdict::OutOfStates(_) => None,
    }
}
