//! The keys that requests under a schema must have.
ghost use Rattle.std.specs.Prelude.{◌∷◌, [], All, OnOk};
ghost use Rattle.policy_model.specs.Requests.{HasValue};
ghost use Rattle.request_json.specs.RequestKeys.{presence_check, presence_checks};
ghost use Rattle.json_shapes.specs.Checks.{IsReadOf};

use crate::fault::{RequestAnswer, RequestCode, RequestFault};
use plain_lists::EqualClone;
use policy_model::Context;
use wildcard_lang::Text;

// Passes where the key has a value.
fn require_value(context: &Context, key: &Text) -> Result<(), RequestAnswer>
    ensures read { IsReadOf (presence_check context.now key.now ∷ []) tt result }
    ensures there { OnOk result (HasValue context.now key.now) }
{
    if context.get(key).is_some() {
        return Ok(());
    }
    let element = key.copy()?;
    let code = RequestCode::Q4NotValid;
    Err(RequestAnswer::Refused(RequestFault { code, element }))
}

/// Passes where each of the keys has a value.
pub(crate) fn require_values(context: &Context, keys: &[Text]) -> Result<(), RequestAnswer>
    ensures read { IsReadOf (presence_checks context.now keys.now) tt result }
    ensures there { OnOk result (All (HasValue context.now) keys.now) }
{
    for key in keys {
        require_value(context, key)?;
    }
    Ok(())
}
