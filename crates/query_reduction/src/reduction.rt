//! Reduced queries.
ghost use Rattle.std.specs.Prelude.{◌≡◌, IfOk, length};
ghost use Rattle.formula_tree.specs.Values.{AreBelow};
ghost use Rattle.policy_compile.specs.Queries.{asked_tree};
ghost use Rattle.query_reduction.specs.Values.{HasSameValue};

use crate::reducer::Reducer;
use formula_nodes::Nodes;
use plain_lists::{EqualClone, NoMemory};
use policy_compile::Query;
use policy_model::Schema;
use std::alloc::Global;

/// The query without what other parts of its formula make needless, over the same tests. Its formula has the value of
/// the query's wherever the tests are answered as a valid request answers them; how much is left out isn't promised.
pub fn reduced(alloc: Global, schema: &Schema, query: &Query) -> Result<Query, NoMemory>
    requires { AreBelow (length query.now.tests) (asked_tree query.now) }
    ensures tests { IfOk result (λ q. q.tests ≡ query.now.tests) }
    ensures below { IfOk result (λ q. AreBelow (length q.tests) (asked_tree q)) }
    ensures same { IfOk result (λ q.
        HasSameValue schema.now query.now.tests (asked_tree query.now) (asked_tree q)) }
{
    let mut nodes = Nodes::new(alloc);
    let mut reducer = Reducer::new(alloc, schema, &query.tests)?;
    let whole = nodes.number(&query.formula)?;
    let less = reducer.reduced(&mut nodes, whole)?;
    let formula = nodes.formula(less)?;
    let tests = query.tests.copy()?;
    Ok(Query { formula, tests })
}
