//! The plain run of a tree, by its laws. Each is a function without a body, whose contract is the law.
ghost use Rattle.std.specs.Prelude.{ℕ, Bool, List};
ghost use Rattle.formula_tree.specs.Laws.{FewTestsFit, RunsAgree, RunsEndWhereMet, RunsExist, RunsFitOpenTests, RunsFitTests, RunsMissNone, UnmetStaysUnmet};
ghost use Rattle.formula_tree.specs.Runs.{CanGoOn, IsHarderAlong};

/// Which paths of answers can be met. No code stands behind it: it is what the laws on runs range
/// over.
pub trait Possible {
    /// The answers can be met.
    ghost possible: { Self → List (ℕ × Bool) → Type 0 };
}

/// Paths that can be met with fewer answers too, and with one more answer to any test, as all are
/// where a path can be met when some whole list of answers contains it.
pub trait Extensible: Possible {
    /// A longer path is harder to meet.
    ghost harder: { (s : Self) → IsHarderAlong (Self.possible s) };

    /// A path that can be met can be met with one of the two answers to a further test.
    ghost goes_on: { (s : Self) → CanGoOn (Self.possible s) };
}

/// A path has one run: how it ends, and its number of splits.
pub fn runs_are_determined<P: Possible>(possible: &P)
    ensures { RunsAgree (P.possible possible.now) }
{}

/// A run splits less often than there are answers to the tests that its path leaves open.
pub fn runs_are_bounded<P: Possible>(possible: &P)
    ensures from_path { RunsFitOpenTests (P.possible possible.now) }
    ensures from_start { RunsFitTests (P.possible possible.now) }
{}

/// There is a run from each path. It is said twice denied, since which paths can be met isn't
/// decided.
pub fn paths_have_runs<P: Possible>(possible: &P)
    ensures { RunsExist (P.possible possible.now) }
{}

/// 2^t - 1 splits are enough for a tree over t tests.
pub fn few_tests_need_few_splits<P: Possible>(possible: &P)
    ensures { FewTestsFit (P.possible possible.now) }
{}

/// Where a run ends with a path, some path that contains the answers can be met and makes the tree
/// yes.
pub fn runs_end_where_met<P: Possible>(possible: &P)
    ensures { RunsEndWhereMet (P.possible possible.now) }
{}

/// Where some path that contains the answers can be met and makes the tree yes, the run ends with
/// one.
pub fn runs_miss_none<P: Extensible>(possible: &P)
    ensures { RunsMissNone (P.possible possible.now) }
{}

/// Where the run from a path ends without one that is met, so does the run from each path that
/// contains the answers.
pub fn unmet_stays_unmet<P: Extensible>(possible: &P)
    ensures { UnmetStaysUnmet (P.possible possible.now) }
{}
