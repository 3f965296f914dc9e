//! What a set allows from outside a zone.
ghost use Rattle.std.specs.Prelude.{◌≡◌, IfOk};
ghost use Rattle.trust_zones.specs.Zones.{KeepsFit, ZoneIsSound, outside, with_document};

use crate::denials::zone_document;
use crate::zone::Zone;
use plain_lists::{EqualClone, NoMemory};
use policy_model::{Document, PolicySet};
use std::alloc::Global;

// The set with this document behind its grants.
fn with_document(set: &PolicySet, document: Document) -> Result<PolicySet, NoMemory>
    ensures { IfOk result (λ made. made ≡ with_document set.now document) }
{
    let mut grants = set.grants.copy()?;
    grants.push(document)?;
    let guards = set.guards.copy()?;
    Ok(PolicySet { grants, guards })
}

/// What the set allows from outside the zone: the set, with a document behind its grants that denies everything
/// to requests from inside. It has one statement for each list that isn't empty: accounts, organisations, VPCs and
/// blocks. Listed texts are taken as they stand. What is made is sound where the set is. It fits each schema that fits
/// the set and takes the zone, as long as one more document has a number of 32 bits.
pub fn outside(alloc: Global, set: &PolicySet, zone: &Zone) -> Result<PolicySet, NoMemory>
    requires { ZoneIsSound zone.now }
    ensures value { IfOk result (λ made. made ≡ outside set.now zone.now) }
    ensures fits { IfOk result (KeepsFit set.now zone.now) }
{
    let document = zone_document(alloc, zone)?;
    let made = with_document(set, document)?;
    Ok(made)
}
