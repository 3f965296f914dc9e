//! Numbers of findings, dimensions of strata, and findings in sets.
ghost use Rattle.std.specs.Prelude.{◌≡◌, ◌<◌, ◌↔◌, Contains, IsTrue, Some, length, slice_get};
ghost use Rattle.findings.specs.Queries.{numbers_below};
ghost use Rattle.findings.specs.Steps.{predicate_number_at};

use crate::outcome::Finding;
use indexmap::IndexSet;
use strata::{Strata, Stratum};

/// The dimension of an index.
pub(crate) fn dimension_at(strata: &Strata, i: usize) -> &Stratum
    requires { i < length strata.now.dimensions }
    ensures { slice_get strata.now.dimensions i ≡ Some result.now }
{
    &strata.dimensions.as_slice()[i]
}

/// The number that the finding has in the dimension of an index.
pub(crate) fn predicate_number_at(finding: &Finding, i: usize) -> u32
    requires { i < length finding.now }
    ensures { result ≡ predicate_number_at finding.now i }
{
    finding.as_slice()[i]
}

/// Whether the number is that of a predicate that is maximal strictly below the one of the other number.
pub(crate) fn is_right_below(stratum: &Stratum, number: u32, upper: usize) -> bool
    requires { upper < length stratum.now.below }
    ensures { IsTrue result ↔ Contains (numbers_below stratum.now upper) number }
{
    stratum.below.as_slice()[upper].as_slice().contains(&number)
}

/// Whether the finding is in the set.
pub(crate) fn is_among(set: &IndexSet<Finding>, finding: &Finding) -> bool
    ensures { IsTrue result ↔ Contains set.now.keys finding.now }
{
    set.contains(finding)
}
