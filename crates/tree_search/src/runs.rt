//! What holds of the plain run of every query.
ghost use Rattle.formula_tree.specs.Laws.{FewTestsFit, RunsExist};
ghost use Rattle.slot_theory.specs.Possible.{IsPossible};

use formula_tree::{few_tests_need_few_splits, paths_have_runs};
use policy_model::{Schema, TestList};
use refute_check::PossiblePaths;

/// There is a plain run from each path, which is said twice denied, since which paths are possible
/// isn't decided; and for t tests 2^t - 1 splits are enough.
pub fn queries_have_runs(schema: &Schema, tests: &TestList)
    ensures exist { RunsExist (IsPossible schema.now tests.now) }
    ensures few { FewTestsFit (IsPossible schema.now tests.now) }
{
    let paths = PossiblePaths { schema, tests };
    paths_have_runs(&paths);
    few_tests_need_few_splits(&paths);
}
