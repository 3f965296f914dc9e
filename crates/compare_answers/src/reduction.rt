//! Compares two sets by their query without what is needless in it.
ghost use Rattle.std.specs.Prelude.{IfOk, IfSome};
ghost use Rattle.compare_answers.specs.Comparison.{IsComparable};
ghost use Rattle.compare_answers.specs.Decided.{IsVerdictOn};

use crate::answer::ComparisonAnswer;
use crate::staged::told_by;
use policy_compile::Query;
use query_reduction::reduced;
use request_json::written_requests_are_read_again;
use run_inputs::Pair;
use staged_search::{FEW_SPLITS, decide_in_stages};
use std::alloc::{AllocError, Global};
use tree_search::Budgets;

/// The answer, where the reduced query of the pair is decided. Of what both sets say alike nothing is left in it, so
/// it is most often as small as the change between them. A budget of few splits is spent on the whole query alone:
/// whoever names it counts the splits of that.
pub(crate) fn reduced_answer(
    alloc: Global,
    pair: &Pair,
    query: &Query,
    budgets: Budgets,
) -> Result<Option<ComparisonAnswer>, AllocError>
    requires { IsComparable budgets pair.now query.now }
    ensures { IfOk result (λ answer. IfSome answer (IsVerdictOn pair.now)) }
{
    if budgets.splits <= FEW_SPLITS {
        return Ok(None);
    }
    let less = reduced(alloc, &pair.schema, query)?;
    let verdict = decide_in_stages(alloc, &pair.schema, &less, budgets)?;
    written_requests_are_read_again();
    Ok(told_by(verdict))
}
