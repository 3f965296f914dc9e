//! The request of answers by which a query is yes.
ghost use Rattle.std.specs.Prelude.{IfOk, IfSome};
ghost use Rattle.slot_theory.specs.Possible.{PathInRange};
ghost use Rattle.clause_search.specs.Asked.{IsSearchAsked};
ghost use Rattle.clause_search.specs.Outcomes.{IsMetRequest};
ghost use Rattle.clause_search.specs.Values.{AreFoundValues};

use crate::slots::have_all_slots;
use clause_learning::Asked;
use formula_tree::{Path, Three, value3};
use plain_lists::NoMemory;
use policy_model::Request;
use request_build::{SlotValues, build};

/// The request of the values, where each slot of the path has one and the query is yes under the path.
pub(crate) fn meet(
    asked: &Asked<'_>,
    path: &Path,
    values: &SlotValues,
) -> Result<Option<Request>, NoMemory>
    requires ready { IsSearchAsked asked.now }
    requires range { PathInRange asked.now.query.now.tests path.now }
    requires values { AreFoundValues asked.now path.now values.now }
    ensures { IfOk result (λ r. IfSome r (IsMetRequest asked.now.schema.now asked.now.query.now)) }
{
    let Three::Yes = value3(&asked.query.formula, path) else {
        return Ok(None);
    };
    if !have_all_slots(asked, path, values) {
        return Ok(None);
    }
    let tests = &asked.query.tests;
    Ok(Some(build(asked.alloc, asked.schema, tests, path, values)?))
}
