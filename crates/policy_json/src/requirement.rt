//! Single checks of a file.
ghost use Rattle.std.specs.Prelude.{[], ◌∷◌};
ghost use Rattle.policy_json.specs.Checks.{check};
ghost use Rattle.json_shapes.specs.Checks.{IsReadOf};

use crate::fault::{PolicyAnswer, PolicyCode, refusal};
use crate::location::Location;
use std::alloc::Global;

/// Passes the check, or refuses with the fault of this code at the location, in the element of this name.
pub(crate) fn require(
    alloc: Global,
    location: Location,
    passes: bool,
    code: PolicyCode,
    name: &str,
) -> Result<(), PolicyAnswer>
    ensures { IsReadOf (check location passes code name.now ∷ []) tt result }
{
    if passes {
        Ok(())
    } else {
        Err(refusal(alloc, location, code, name))
    }
}
