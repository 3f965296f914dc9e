//! Who settles queries.
ghost use Rattle.std.specs.Prelude.{◌≡◌, ℕ, IfOk};
ghost use Rattle.policy_model.specs.declared.schema.Schema.{Schema};
ghost use Rattle.findings.specs.Answers.{QueryIsAskable};
ghost use Rattle.set_questions.specs.Settling.{SettlesQuery};

use findings::Wide;
use plain_lists::NoMemory;
use policy_compile::Query;
use policy_model::Request;
use refute_check::Refutation;
use std::alloc::Global;
use std::rc::Rc;

/// What is answered on a query, with what shows it.
#[derive(Drop)]
pub enum Settled {
    /// A valid request that makes the query yes.
    Met(Request),
    /// A refutation that closes the query: no valid request makes it yes.
    Nobody(Rc<Refutation>),
    /// The query needs more splits.
    OutOfSplits,
    /// A slot needs more states.
    OutOfStates(Wide),
}

/// Settles queries.
pub trait Settle {
    /// The schema that it answers for. It never changes.
    ghost schema: { Self → Schema };

    /// The most splits that it makes for a query. The number never changes.
    ghost splits: { Self → ℕ };

    /// The most product states of a slot's patterns that it looks at. The number never changes.
    ghost states: { Self → ℕ };

    /// Whether some valid request makes the query yes. `OutOfSplits` comes only where both the plain and the
    /// propagated run of the query need more splits than it makes. `OutOfStates` comes only where a slot needs more
    /// states than it looks at, at a path of the plain run. The only error is want of memory.
    fn settle(&mut self, alloc: Global, query: &Query) -> Result<Settled, NoMemory>
        requires askable { QueryIsAskable (schema self.old) query.now }
        ensures answer { IfOk result
            (SettlesQuery (schema self.old) (splits self.old) (states self.old) query.now) }
        ensures schema { schema self.new ≡ schema self.old }
        ensures splits { splits self.new ≡ splits self.old }
        ensures states { states self.new ≡ states self.old };
}
