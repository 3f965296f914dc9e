//! The plain run and the propagated run of a query, by their laws. Each law is a function that does nothing, and
//! whose contract states it.
ghost use Rattle.formula_tree.specs.Runs.{CanGoOn, IsHarderAlong};
ghost use Rattle.slot_theory.specs.Possible.{IsPossible};
ghost use Rattle.refute_check.specs.RunLaws.{PlainRunsEndWhereMet, PropagatedRunsAgree, PropagatedRunsAreShorter, PropagatedRunsEndWhereMet, PropagatedRunsExist};

use formula_tree::Possible;
use policy_model::{Schema, TestList};

/// The paths of answered tests that some valid request can answer.
#[derive(Clone, Copy)]
pub struct PossiblePaths<'a> {
    pub schema: &'a Schema,
    pub tests: &'a TestList,
}

impl<'a> Possible for PossiblePaths<'a> {
    ghost use Rattle.slot_theory.specs.Possible.{IsPossible};

    ghost possible = { λ paths. IsPossible paths.schema.now paths.tests.now };
}

/// A path that valid requests answer is answered with fewer answers too, and with one of the two answers
/// to each further test.
pub fn possible_paths_are_extensible(schema: &Schema, tests: &TestList)
    ensures harder { IsHarderAlong (IsPossible schema.now tests.now) }
    ensures goes_on { CanGoOn (IsPossible schema.now tests.now) }
{}

/// From each path the plain run ends exactly where some valid request answers the path and makes the query yes.
pub fn plain_runs_end_where_met()
    ensures { PlainRunsEndWhereMet }
{}

/// And so does the propagated run, in which a conflict of unit propagation closes a path too.
pub fn propagated_runs_end_where_met()
    ensures { PropagatedRunsEndWhereMet }
{}

/// A path has one propagated run: how it ends, and its number of splits.
pub fn propagated_runs_are_determined()
    ensures { PropagatedRunsAgree }
{}

/// The propagated run ends as the plain one does, and splits at most as often.
pub fn propagated_runs_are_shorter()
    ensures { PropagatedRunsAreShorter }
{}

/// There is a propagated run from each path. It is said twice denied, since neither which paths can be
/// answered nor which of them meet a conflict is decided.
pub fn paths_have_propagated_runs()
    ensures { PropagatedRunsExist }
{}
