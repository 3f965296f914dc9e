//! Own requests of findings that are asked for by the finding's predicates and those below alone, while the
//! tree of the region is left out. Mostly what comes lies in the region: the tree is evaluated once.
ghost use Rattle.std.specs.Prelude.{◌≡◌, [], IfOk, IfSome};
ghost use Rattle.formula_tree.specs.Trees.{tree_of};
ghost use Rattle.findings.specs.Asked.{IsAskableOver, IsAsked};
ghost use Rattle.findings.specs.Asking.{IsOwnOf, lying_plan};
ghost use Rattle.findings.specs.Findings.{IsFinding};
ghost use Rattle.findings.specs.RegionQueries.{AsksSomeRegion};
ghost use Rattle.findings.specs.Steps.{AreNumberedBelow};

use crate::decide::{Asked, Decide};
use crate::numbering::Numbering;
use crate::outcome::Finding;
use crate::own::is_own_if_valid;
use formula_tree::{Branches, Formula};
use plain_lists::NoMemory;
use policy_compile::Query;
use policy_model::Request;
use std::alloc::Global;
use std::rc::Rc;
use strata::Strata;

/// The most tests of such a finding's predicates and those below. With more of them the region's own are few
/// beside them.
const MOST_TESTS: usize = 16;

/// The formula that a request lies in the finding and in no finer one, where there are no tests yet.
pub(crate) fn lying_formula(
    alloc: Global,
    numbering: &mut Numbering,
    strata: &Strata,
    finding: &Finding,
) -> Result<Rc<Formula>, NoMemory>
    requires finding { IsFinding strata.now.dimensions finding.now }
    requires numbers { AreNumberedBelow strata.now.dimensions }
    requires tests { numbering.old.tests.keys ≡ [] }
    ensures { IfOk result (λ f. IsAsked [] numbering.new.tests.keys
        (lying_plan strata.now.dimensions finding.now) (tree_of f.value)) }
{
    let mut branches = Branches::new(alloc);
    numbering.add_own(&mut branches, strata, finding)?;
    branches.push(numbering.no_finer(strata, finding)?)?;
    let formula = Rc::new(alloc, Formula::All(branches))?;
    Ok(formula)
}

// The query that asks so. It may be asked where the strata are those of a region.
fn lying_query(alloc: Global, strata: &Strata, finding: &Finding) -> Result<Query, NoMemory>
    requires finding { IsFinding strata.now.dimensions finding.now }
    requires numbers { AreNumberedBelow strata.now.dimensions }
    ensures { IfOk result (IsAskableOver strata.now) }
{
    let mut numbering = Numbering::new(alloc);
    let formula = lying_formula(alloc, &mut numbering, strata, finding)?;
    let tests = numbering.into_tests()?;
    Ok(Query { formula, tests })
}

/// A request of the finding's own, where the region has one that is found in the finding and in no finer one
/// without a look at the region. Where there is none nothing follows.
pub(crate) fn granted_request<D: Decide>(
    alloc: Global,
    strata: &Strata,
    base: &Query,
    asks: &mut D,
    finding: &Finding,
) -> Result<Option<Request>, NoMemory>
    requires made { AsksSomeRegion (D.schema asks.old) base.now strata.now }
    requires finding { IsFinding strata.now.dimensions finding.now }
    ensures own { IfOk result (λ request. IfSome request
        (IsOwnOf (D.schema asks.old) base.now strata.now finding.now)) }
    ensures schema { D.schema asks.new ≡ D.schema asks.old }
    ensures splits { D.splits asks.new ≡ D.splits asks.old }
    ensures states { D.states asks.new ≡ D.states asks.old }
{
    let query = lying_query(alloc, strata, finding)?;
    if query.tests.len() > MOST_TESTS {
        return Ok(None);
    }
    let asked = asks.ask(alloc, &query)?;
    let Asked::Met(request) = asked else {
        return Ok(None);
    };
    let own = is_own_if_valid(alloc, strata, base, finding, &request)?;
    if own {
        return Ok(Some(request));
    }
    Ok(None)
}
