//! Queries of findings.
ghost use Rattle.std.specs.Prelude.{◌≡◌, [], IfOk, OnOk};
ghost use Rattle.formula_tree.specs.Trees.{tree_of, trees_of};
ghost use Rattle.findings.specs.Asked.{AsksOwn, HoldsForOwn, IsAskableFor};
ghost use Rattle.findings.specs.Asking.{ArePartsAsked, IsOwnAnswered, IsWholeAsked};
ghost use Rattle.findings.specs.Findings.{IsFinding};
ghost use Rattle.findings.specs.KnownAnswers.{AreKnownAnswers};
ghost use Rattle.findings.specs.Queries.{AreMade, AreMadeUnder};

use crate::decide::{Asked, Decide};
use crate::granted::granted_request;
use crate::known::KnownAnswers;
use crate::numbering::Numbering;
use crate::outcome::Finding;
use crate::screening::is_plainly_no;
use crate::short::short_answer;
use formula_tree::{Branches, Formula};
use plain_lists::NoMemory;
use policy_compile::Query;
use std::alloc::Global;
use std::rc::Rc;
use strata::Strata;

// Adds the parts of a finding's query: its predicates, that none right below them holds, and the query
// of the region.
fn add_parts(
    numbering: &mut Numbering,
    branches: &mut Branches,
    strata: &Strata,
    base: &Query,
    finding: &Finding,
) -> Result<(), NoMemory>
    requires made { AreMade base.now strata.now }
    requires finding { IsFinding strata.now.dimensions finding.now }
    requires tests { numbering.old.tests.keys ≡ [] }
    requires parts { trees_of branches.old ≡ [] }
    ensures { OnOk result (ArePartsAsked base.now strata.now.dimensions finding.now
        numbering.new.tests.keys (trees_of branches.new)) }
{
    numbering.add_own(branches, strata, finding)?;
    branches.push(numbering.no_finer(strata, finding)?)?;
    branches.push(numbering.renumbered(base)?)?;
    Ok(())
}

// The formula of a finding's query, where there are no tests yet.
fn whole_formula(
    alloc: Global,
    numbering: &mut Numbering,
    strata: &Strata,
    base: &Query,
    finding: &Finding,
) -> Result<Rc<Formula>, NoMemory>
    requires made { AreMade base.now strata.now }
    requires finding { IsFinding strata.now.dimensions finding.now }
    requires tests { numbering.old.tests.keys ≡ [] }
    ensures { IfOk result (λ f. IsWholeAsked base.now strata.now.dimensions finding.now
        numbering.new.tests.keys (tree_of f.value)) }
{
    let mut branches = Branches::new(alloc);
    add_parts(numbering, &mut branches, strata, base, finding)?;
    let formula = Rc::new(alloc, Formula::All(branches))?;
    Ok(formula)
}

/// The query of a finding: that its predicates hold, that none of those that are maximal strictly below
/// them does, and that the query of the region does. On a valid request it holds exactly where the request
/// is the finding's own: where it lies in the region and in the finding, and in no strictly finer one.
///
/// `base` is the query of the region and `strata` are those of `base`, under one schema. The only error is
/// want of memory.
pub fn finding_query(
    alloc: Global,
    strata: &Strata,
    base: &Query,
    finding: &Finding,
) -> Result<Query, NoMemory>
    requires made { AreMade base.now strata.now }
    requires finding { IsFinding strata.now.dimensions finding.now }
    ensures plan { IfOk result (AsksOwn base.now strata.now.dimensions finding.now) }
    ensures own { IfOk result (HoldsForOwn base.now strata.now finding.now) }
    ensures askable { IfOk result (IsAskableFor base.now strata.now) }
{
    let mut numbering = Numbering::new(alloc);
    let formula = whole_formula(alloc, &mut numbering, strata, base, finding)?;
    let tests = numbering.into_tests()?;
    Ok(Query { formula, tests })
}

/// A request of the finding's own, that it has none, or what its query needs more of. That is said of the whole query
/// alone: what is left of it is asked first, and mostly decides.
pub(crate) fn answer_on<D: Decide>(
    alloc: Global,
    strata: &Strata,
    base: &Query,
    known: &KnownAnswers,
    asks: &mut D,
    finding: &Finding,
) -> Result<Asked, NoMemory>
    requires made { AreMadeUnder (D.schema asks.old) base.now strata.now }
    requires known { AreKnownAnswers (D.schema asks.old) base.now strata.now known.now }
    requires finding { IsFinding strata.now.dimensions finding.now }
    ensures answer { IfOk result (IsOwnAnswered (D.schema asks.old)
        (D.splits asks.old) (D.states asks.old) base.now strata.now finding.now) }
    ensures schema { D.schema asks.new ≡ D.schema asks.old }
    ensures splits { D.splits asks.new ≡ D.splits asks.old }
    ensures states { D.states asks.new ≡ D.states asks.old }
{
    let path = known.own_answers(alloc, strata, finding)?;
    let less = &known.less.query;
    if is_plainly_no(less, &path) {
        return Ok(Asked::Nobody);
    }
    if let Some(request) = granted_request(alloc, strata, less, asks, finding)? {
        return Ok(Asked::Met(request));
    }
    if let Some(answer) = short_answer(alloc, strata, less, asks, finding)? {
        return Ok(answer);
    }
    let query = finding_query(alloc, strata, base, finding)?;
    asks.ask(alloc, &query)
}
