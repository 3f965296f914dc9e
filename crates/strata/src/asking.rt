//! Questions on the predicates of a slot, and those whose answers are known.
ghost use Rattle.std.specs.Prelude.{◌≡◌, ◌↔◌, IsTrue};
ghost use Rattle.strata.specs.Asking.{IsAskedIn};
ghost use Rattle.strata.specs.Below.{IsMetUnder};
ghost use Rattle.strata.specs.Predicates.{SuitsSlot};
ghost use Rattle.strata.specs.Settling.{SettlesTo, DecidesMet, DecidesWithin};

use crate::inclusion::{Inclusion, Within};
use crate::outcome::StrataFault;
use crate::predicate::Predicate;
use crate::sharing::share_no_request;
use plain_lists::EqualClone;
use policy_model::Slot;
use request_build::sound_schemas_have_requests;
use std::alloc::Global;

// The answer, or a fault of the slot where it takes too many product states.
fn settled(slot: &Slot, answer: Within) -> Result<bool, StrataFault>
    ensures { SettlesTo slot.now answer result }
{
    match answer {
        Within::Yes => Ok(true),
        Within::No => Ok(false),
        Within::TooMany(texts) => Err(StrataFault::Wide(slot.copy()?, texts)),
    }
}

// Whether some valid request meets the predicate. Under a sound schema some request is valid, and
// each meets `Every`.
pub(crate) fn is_met<I: Inclusion>(
    alloc: Global,
    slot: &Slot,
    one: &Predicate,
    by: &mut I,
) -> Result<bool, StrataFault>
    requires slot { IsAskedIn (I.schema by.old) slot.now }
    requires one { SuitsSlot (I.schema by.old) slot.now one.now }
    ensures decides { DecidesMet (I.schema by.old) (I.states by.old) slot.now one.now result }
    ensures schema { I.schema by.new ≡ I.schema by.old }
    ensures states { I.states by.new ≡ I.states by.old }
{
    if let Predicate::Every = one {
        sound_schemas_have_requests();
        return Ok(true);
    }
    let answer = by.met(alloc, slot, one)?;
    settled(slot, answer)
}

pub(crate) fn is_equal(one: &Predicate, other: &Predicate) -> bool
    ensures { IsTrue result ↔ (one.now ≡ other.now) }
{
    one == other
}

// Whether each valid request that meets the one, as some does, meets the other. Each meets `Every`, and where both are
// equal, or plainly share no request, nothing is asked.
pub(crate) fn is_within<I: Inclusion>(
    alloc: Global,
    slot: &Slot,
    one: &Predicate,
    other: &Predicate,
    by: &mut I,
) -> Result<bool, StrataFault>
    requires slot { IsAskedIn (I.schema by.old) slot.now }
    requires one { SuitsSlot (I.schema by.old) slot.now one.now }
    requires other { SuitsSlot (I.schema by.old) slot.now other.now }
    requires met { IsMetUnder (I.schema by.old) slot.now one.now }
    ensures decides { DecidesWithin (I.schema by.old) (I.states by.old) slot.now one.now other.now
        result }
    ensures schema { I.schema by.new ≡ I.schema by.old }
    ensures states { I.states by.new ≡ I.states by.old }
{
    if let Predicate::Every = other {
        return Ok(true);
    }
    if is_equal(one, other) {
        return Ok(true);
    }
    if share_no_request(slot, one, other) {
        return Ok(false);
    }
    let answer = by.within(alloc, slot, one, other)?;
    settled(slot, answer)
}
