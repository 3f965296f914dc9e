//! Which schema a run has on a set and on the policy that is written from its findings.
ghost use Rattle.policy_emit.specs.KnownKeys.{EmittedKeysAreKnown};

use read_predicates::known_keys_keep_schemas;

/// A run on a set and on the set of its findings, in either order, has the schema of a run on the set
/// alone, and no condition of theirs is at fault. The law does nothing, and its contract states it.
pub fn emitted_keys_are_known()
    ensures { EmittedKeysAreKnown }
{
    known_keys_keep_schemas();
}
