//! Requests.
ghost use Rattle.std.specs.Prelude.{◌≡◌};
ghost use Rattle.std.proofs.Common.{rules};
ghost use Rattle.policy_model.specs.Conditions.{values_at};
ghost use Rattle.policy_model.specs.Requests.{IsWellKept};

use crate::context::Context;
use crate::principal::PrincipalKind;
use crate::value::Value;
use plain_lists::EqualClone;
use wildcard_lang::Text;

/// A request: who wants to do what with which resource, with the condition keys that the service
/// filled in.
#[derive(Clone, Drop)]
pub struct Request {
    pub kind: PrincipalKind,
    pub id: Text,
    pub action: Text,
    pub resource: Text,
    pub context: Context,
}

impl EqualClone for Request {
    ghost clones_are_equal = { Prim.search rules };
}

impl Request {
    /// Each key stands once, in the order of the keys, is a text without ASCII capitals, and has values: a
    /// law of the type, without work.
    pub fn keys_are_well_kept(&self)
        ensures { IsWellKept self.now }
    {
        self.context.keys_are_well_kept();
    }

    /// The values of a key: none where it is absent. It takes no memory.
    pub fn values_at(&self, key: &Text) -> &[Value]
        ensures { result.now ≡ values_at self.now key.now }
    {
        match self.context.get(key) {
            Some(values) => values.as_slice(),
            None => &[],
        }
    }
}
