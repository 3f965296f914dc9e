//! Who decides queries.
ghost use Rattle.std.specs.Prelude.{◌≡◌, ℕ, IfOk};
ghost use Rattle.policy_model.specs.declared.schema.Schema.{Schema};
ghost use Rattle.findings.specs.Answers.{AnswersQuery, QueryIsAskable};

use formula_tree::Path;
use plain_lists::NoMemory;
use policy_compile::Query;
use policy_model::{Request, Schema, Slot};
use std::alloc::Global;
use wildcard_lang::TextList;

/// A slot whose patterns have more product states than there may be.
#[derive(Drop)]
pub struct Wide {
    /// The path of answered tests at which they do.
    pub path: Path,
    pub slot: Slot,
    /// One more text than the number of states, with pairwise different product states.
    pub texts: TextList,
}

/// What is answered on a query.
#[derive(Drop)]
pub enum Asked {
    /// A valid request that makes the query yes.
    Met(Request),
    /// No valid request does.
    Nobody,
    /// The query needs more splits.
    OutOfSplits,
    /// A slot needs more states.
    OutOfStates(Wide),
}

/// Decides queries.
pub trait Decide {
    /// The schema that it answers for. It never changes.
    ghost schema: { Self → Schema };

    /// The most splits that it makes for a query. The number never changes.
    ghost splits: { Self → ℕ };

    /// The most product states of a slot's patterns that it looks at. The number never changes.
    ghost states: { Self → ℕ };

    /// The schema itself.
    fn its_schema(&self) -> &Schema
        ensures { result.now ≡ schema self.now };

    /// Whether some valid request makes the query yes. `OutOfSplits` comes only where the plain run of
    /// the query needs more splits than it makes, and `OutOfStates` only where a slot needs more states
    /// than it looks at, at a path of that run. The only error is want of memory.
    fn ask(&mut self, alloc: Global, query: &Query) -> Result<Asked, NoMemory>
        requires askable { QueryIsAskable (schema self.old) query.now }
        ensures answer { IfOk result
            (AnswersQuery (schema self.old) (splits self.old) (states self.old) query.now) }
        ensures schema { schema self.new ≡ schema self.old }
        ensures splits { splits self.new ≡ splits self.old }
        ensures states { states self.new ≡ states self.old };
}
