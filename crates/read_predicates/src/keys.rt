//! Which schema a run on two sets has, where the one asks no key for more than the other.
ghost use Rattle.read_predicates.specs.KnownKeys.{KnownKeysKeepSchemas};

use policy_compile::tests_of_set_queries_suit;
use request_schema::keys_have_their_rules;

/// Where the conditions of another set stand for predicates of a set's strata, a run on both, in either
/// order, has the schema of a run on the set alone, and no condition of theirs is at fault. The law does
/// nothing, and its contract states it.
pub fn known_keys_keep_schemas()
    ensures { KnownKeysKeepSchemas }
{
    tests_of_set_queries_suit();
    keys_have_their_rules();
}
