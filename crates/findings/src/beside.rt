//! Formulas that something holds of a request, and that it lies in a region.
ghost use Rattle.std.specs.Prelude.{◌<◌, ◌^◌, IfOk, length};
ghost use Rattle.formula_tree.specs.Trees.{tree_of};
ghost use Rattle.formula_tree.specs.Values.{AreBelow};
ghost use Rattle.policy_compile.specs.Queries.{asked_tree};
ghost use Rattle.findings.specs.Asked.{StandsBeside};

use crate::numbering::Numbering;
use formula_tree::{Branches, Formula};
use plain_lists::NoMemory;
use policy_compile::Query;
use std::alloc::Global;
use std::rc::Rc;

/// The formula that this one holds, and that of the query behind it, whose tests are numbered after those that are had.
pub(crate) fn with_region(
    alloc: Global,
    numbering: &mut Numbering,
    one: Rc<Formula>,
    base: &Query,
) -> Result<Rc<Formula>, NoMemory>
    requires { AreBelow (length base.now.tests) (asked_tree base.now) }
    ensures { IfOk result (λ f. StandsBeside numbering.old.tests.keys numbering.new.tests.keys
        (tree_of one.value) base.now (tree_of f.value)) }
{
    let mut branches = Branches::new(alloc);
    branches.push(one)?;
    branches.push(numbering.renumbered(base)?)?;
    let formula = Rc::new(alloc, Formula::All(branches))?;
    Ok(formula)
}
