//! The parts that each request has, and what a finding asks of them.
ghost use Rattle.std.specs.Prelude.{◌≡◌, ◌<◌, Some, length, slice_get};
ghost use Rattle.std.specs.Option.{option_copied};
ghost use Rattle.strata.specs.Covers.{predicate_at};
ghost use Rattle.findings.specs.Findings.{IsFinding};
ghost use Rattle.policy_emit.specs.Emitted.{is_slot_of, predicate_of};

use findings::Finding;
use policy_model::Slot;
use strata::{Predicate, Strata, Stratum};

/// The parts that each request has, besides the keys.
#[derive(Clone, Copy)]
pub(crate) enum Part {
    Principal,
    Action,
    Resource,
}

// Whether the slot is that of the part.
fn is_slot_of(part: Part, slot: &Slot) -> bool
    ensures { result ≡ is_slot_of part slot.now }
{
    match (part, slot) {
        (Part::Principal, Slot::Principal) => true,
        (Part::Action, Slot::Action) => true,
        (Part::Resource, Slot::Resource) => true,
        _ => false,
    }
}

/// The dimension of an index.
pub(crate) fn dimension_at(strata: &Strata, i: usize) -> &Stratum
    requires { i < length strata.now.dimensions }
    ensures { slice_get strata.now.dimensions i ≡ Some result.now }
{
    &strata.dimensions.as_slice()[i]
}

/// The predicate of a number.
pub(crate) fn predicate_at(stratum: &Stratum, number: u32) -> &Predicate
    requires { number < length stratum.now.predicates }
    ensures { result.now ≡ predicate_at stratum.now.predicates number }
{
    &stratum.predicates.as_slice()[number as usize]
}

/// The finding's predicate of a part, or none where the part is no dimension.
pub(crate) fn predicate_of<'a>(
    part: Part,
    strata: &'a Strata,
    finding: &Finding,
) -> Option<&'a Predicate>
    requires { IsFinding strata.now.dimensions finding.now }
    ensures { option_copied result ≡ predicate_of part strata.now.dimensions finding.now }
{
    'dimensions: for i in 0..finding.len() {
        let stratum = dimension_at(strata, i);
        if is_slot_of(part, &stratum.slot) {
            return Some(predicate_at(stratum, finding.as_slice()[i]));
        }
    }
    None
}
