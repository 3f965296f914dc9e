//! What deciders come to. Each law is a function that does nothing, and whose contract states it.

ghost use Rattle.policy_eval.specs.Laws.{DecidersAreEqual, DecidersTellWhatIsAllowed};

/// A request has one decider under a schema and a set: two that meet the definition are equal.
pub fn deciders_are_equal()
    ensures { DecidersAreEqual }
{}

/// The decider shows whether the set allows the request: a Deny statement denies it, an Allow statement of
/// the grants allows it, and where no grant or some guard lacks one the request is denied.
pub fn deciders_tell_what_is_allowed()
    ensures { DecidersTellWhatIsAllowed }
{}
