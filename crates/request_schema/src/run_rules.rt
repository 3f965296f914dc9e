//! What the schema of a run says of each key. The law is a function that does nothing, and whose
//! contract states it.
ghost use Rattle.request_schema.specs.RunSchemas.{KeysHaveTheirRules};

/// Each key of a run's schema has the rule that its name, or else all operators on it, say.
pub fn keys_have_their_rules()
    ensures { KeysHaveTheirRules }
{}
