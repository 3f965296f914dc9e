//! Why a run has no schema.
ghost use Rattle.std.specs.Prelude.{◌≡◌};
ghost use Rattle.request_schema.specs.KeyUses.{IsInferRefusal};
ghost use Rattle.request_schema.specs.RunSchemas.{infer_fault_at};
ghost use Rattle.request_schema.specs.Uses.{use_found};
ghost use Rattle.request_schema.specs.declared.infer_fault.InferAnswer.TheVariants.{NoMemory};

use crate::found::FoundUse;
use policy_model::StatementName;
use std::alloc::AllocError;
use wildcard_lang::Text;

/// The first condition that no schema of the run can answer: in the second set or in the first, in
/// the statement of this name, on the key as written.
#[derive(Drop)]
pub struct InferFault {
    pub second: bool,
    /// An operator without a prefix on a key that the schema gives several values, or else an
    /// operator that the key's kind doesn't take.
    pub plural: bool,
    pub name: StatementName,
    pub key: Text,
}

/// What stands instead of the schema of a run.
#[derive(Drop)]
pub enum InferAnswer {
    /// The first fault of the run's sets.
    Refused(InferFault),
    NoMemory,
}

impl From<AllocError> for InferAnswer {
    ghost from_gives = { λ _ e. e ≡ NoMemory };

    fn from(_: AllocError) -> Self {
        InferAnswer::NoMemory
    }
}

/// The fault at a use, or want of memory.
pub(crate) fn infer_refusal(found: &FoundUse, plural: bool) -> InferAnswer
    ensures { IsInferRefusal (infer_fault_at (use_found found.now) plural) result }
{
    match found.condition.written.copy() {
        Err(_) => InferAnswer::NoMemory,
        Ok(key) => InferAnswer::Refused(InferFault {
            second: found.second,
            plural,
            name: found.name,
            key,
        }),
    }
}
