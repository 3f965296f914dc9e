//! Scaled numbers.
ghost use Rattle.std.specs.Prelude.{◌≡◌, ◌<◌, IfOk};
ghost use Rattle.std.specs.Result.{result_ok};
ghost use Rattle.std.proofs.Common.{rules};
ghost use Rattle.intervals.specs.Scaled.{IsScaled, IsOkBelow, size_limit, whole_limit, units_of_whole, whole_units};
ghost use Rattle.intervals.specs.DecimalTexts.{signed_number};

use crate::units::{SIZE_LIMIT, UNITS, WHOLE_LIMIT};
use plain_lists::EqualClone;
use std::marker::Model;

/// A whole number of units of 10^-9, less than 10^27 in size. Contracts see the number of units.
#[derive(Clone, Copy, PartialEq, Eq, Hash, Drop)]
pub struct Scaled {
    units: i128,
}

impl Model for Scaled {
    ghost use Rattle.std.specs.Prelude.{ℤ};
    ghost use Rattle.intervals.specs.Scaled.{IsScaled};

    ghost Value = { ℤ };

    ghost view = { λ s. s.units };

    ghost invariant = { λ s. IsScaled s.units };

    ghost inverse = { λ z. record { units = z } };
}

impl EqualClone for Scaled {
    ghost clones_are_equal = { Prim.search rules };
}

/// The answer where a text is no decimal, or a number isn't small enough.
#[derive(Clone, Copy, Drop)]
pub struct BadNumber;

impl Scaled {
    /// The number of this many units of 10^-9. `BadNumber` exactly where it isn't less than 10^27 in
    /// size.
    pub fn from_units(units: i128) -> Result<Scaled, BadNumber>
        ensures value { IfOk result (λ s. s ≡ units) }
        ensures bounded { IsOkBelow size_limit units result }
    {
        if units.unsigned_abs() < SIZE_LIMIT {
            Ok(Scaled { units })
        } else {
            Err(BadNumber)
        }
    }

    /// The number of this many units, or of this many less than none.
    pub(crate) fn of_size(size: u128, negative: bool) -> Scaled
        requires { size < size_limit }
        ensures { result ≡ signed_number negative size }
    {
        let units = size as i128;
        Scaled {
            units: if negative { -units } else { units },
        }
    }

    /// How many units of 10^-9 it is.
    pub fn units(self) -> i128
        ensures value { result ≡ self }
        ensures bounded { IsScaled self }
    {
        self.units
    }
}

/// The whole number `n`, which is `n` * 10^9 units of 10^-9. `BadNumber` exactly where `n` isn't less
/// than 10^18 in size.
pub fn from_whole(n: i128) -> Result<Scaled, BadNumber>
    ensures value { IfOk result (λ s. s ≡ units_of_whole n) }
    ensures bounded { IsOkBelow whole_limit n result }
    ensures computed { result_ok result ≡ whole_units n }
{
    if n.unsigned_abs() < WHOLE_LIMIT {
        Ok(Scaled {
            units: n * i128::from(UNITS),
        })
    } else {
        Err(BadNumber)
    }
}
