//! Single checks of a zone file.
ghost use Rattle.std.specs.Prelude.{◌≡◌, [], ◌∷◌};
ghost use Rattle.trust_zones.specs.ZoneChecks.{zone_check};
ghost use Rattle.json_shapes.specs.Checks.{IsReadOf};

use crate::fault::{ZoneAnswer, ZoneCode, refusal};
use std::alloc::Global;

/// Passes the check, or refuses with the fault of this code at the name.
pub(crate) fn require(
    alloc: Global,
    passes: bool,
    code: ZoneCode,
    name: &str,
) -> Result<(), ZoneAnswer>
    ensures { IsReadOf (zone_check passes code name.now ∷ []) tt result }
{
    if passes {
        Ok(())
    } else {
        Err(refusal(alloc, code, name))
    }
}
