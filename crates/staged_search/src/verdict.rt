//! What is found of a query.
ghost use Rattle.std.specs.Prelude.{◌≡◌, ◌↔◌, IsTrue};
ghost use Rattle.staged_search.specs.declared.verdict.Verdict.TheVariants.{OutOfSplits};
ghost use Rattle.staged_search.specs.Stages.{verdict_in};

use policy_model::Request;
use tree_search::{Decided, Wide};

/// What is found of a query.
#[derive(Drop)]
pub enum Verdict {
    /// No valid request makes the query yes.
    Nobody,
    /// A valid request that makes the query yes.
    Met(Request),
    /// The plain run needs more splits than there may be, and so does the propagated run.
    OutOfSplits,
    /// A slot needs more product states than there may be, at a path of the plain run.
    OutOfStates(Wide),
}

/// What was decided, without the refutation.
pub(crate) fn verdict_in(decided: Decided) -> Verdict
    ensures { result ≡ verdict_in decided }
{
    match decided {
        Decided::Refuted(_) => Verdict::Nobody,
        Decided::Met(request) => Verdict::Met(request),
        Decided::OutOfSplits => Verdict::OutOfSplits,
        Decided::OutOfStates(wide) => Verdict::OutOfStates(wide),
    }
}

/// Whether more splits are needed.
pub(crate) fn is_out_of_splits(verdict: &Verdict) -> bool
    ensures { IsTrue result ↔ (verdict.now ≡ OutOfSplits) }
{
    match verdict {
        Verdict::OutOfSplits => true,
        _ => false,
    }
}

/// Whether a slot needs more product states.
pub(crate) fn is_out_of_states(verdict: &Verdict) -> bool {
    match verdict {
        Verdict::OutOfStates(_) => true,
        _ => false,
    }
}
