//! Findings for which it is plain, without a search, that they have nobody, or no request of their own.
ghost use Rattle.std.specs.Prelude.{◌≡◌, IfOk, IsTrue};
ghost use Rattle.formula_tree.specs.declared.value.Three.TheVariants.{No};
ghost use Rattle.formula_tree.specs.Trees.{tree_of};
ghost use Rattle.formula_tree.specs.Values.{value};
ghost use Rattle.findings.specs.Screening.{DropsPlainlyEmpty, HasPlainlyNobody};

use crate::known::KnownAnswers;
use crate::outcome::{Finding, FindingList};
use crate::steps::copy_of;
use formula_tree::{Path, Three, value3};
use plain_lists::{List, NoMemory};
use policy_compile::Query;
use std::alloc::Global;

/// Whether plainly no request of the region gives these answers.
pub(crate) fn is_plainly_no(base: &Query, path: &Path) -> bool
    ensures { IsTrue result → value path.now (tree_of base.now.formula.value) ≡ No }
{
    match value3(&base.formula, path) {
        Three::No => true,
        Three::Yes | Three::Unknown => false,
    }
}

// Whether nobody plainly is allowed anything in the finding.
fn has_plainly_nobody(
    alloc: Global,
    known: &KnownAnswers,
    finding: &Finding,
) -> Result<bool, NoMemory>
    ensures { IfOk result (λ is. IsTrue is → HasPlainlyNobody known.now finding.now) }
{
    let path = known.inside_answers(alloc, finding)?;
    Ok(is_plainly_no(&known.less.query, &path))
}

/// Those of the findings right under the first, in their order, for which it isn't plain that they have nobody. In
/// one dimension each is kept, since nothing comes below it that would be saved.
pub(crate) fn without_nobody(
    alloc: Global,
    known: &KnownAnswers,
    finding: &Finding,
    under: FindingList,
) -> Result<FindingList, NoMemory>
    ensures { IfOk result (DropsPlainlyEmpty known.now under) }
{
    if finding.len() < 2 {
        return Ok(under);
    }
    let mut kept = List::new(alloc);
    'under: for i in 0..under.len() {
        let lower = &under.as_slice()[i];
        if has_plainly_nobody(alloc, known, lower)? {
            continue;
        }
        kept.push(copy_of(alloc, lower)?)?;
    }
    Ok(kept)
}
