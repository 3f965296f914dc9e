//! What findings are asked of.
ghost use Rattle.std.specs.Prelude.{◌≡◌};
ghost use Rattle.run_inputs.specs.OneSets.{FitsItsSchema};
ghost use Rattle.run_inputs.specs.Pairs.{IsFitting};
ghost use Rattle.summary_answers.specs.Subjects.{SubjectFits, subject_of_pair, subject_of_set};

use findings::Region;
use policy_model::Schema;
use run_inputs::{OneSet, Pair};

/// What findings are asked of: a region of the requests under a schema.
#[derive(Drop)]
pub struct Subject {
    pub schema: Schema,
    pub region: Region,
}

/// What a set allows.
pub fn subject_of_set(one: OneSet) -> Subject
    requires { FitsItsSchema one }
    ensures value { result ≡ subject_of_set one }
    ensures fits { SubjectFits result }
{
    Subject {
        schema: one.schema,
        region: Region::AllowedBy(one.set),
    }
}

/// What the first set of a pair allows and the second doesn't.
pub fn subject_of_pair(pair: Pair) -> Subject
    requires { IsFitting pair }
    ensures value { result ≡ subject_of_pair pair }
    ensures fits { SubjectFits result }
{
    Subject {
        schema: pair.schema,
        region: Region::NewlyAllowed(pair.first, pair.second),
    }
}
