//! What zones mean. Each law is a function that does nothing, and whose contract states it.
ghost use Rattle.trust_zones.specs.ZoneFiles.{ZoneLimits};
ghost use Rattle.trust_zones.specs.ZoneRuns.{ZonesKeepSchemas};
ghost use Rattle.trust_zones.specs.Zones.{ZonesLeaveTheOutside};

use request_schema::keys_have_their_rules;

/// Of valid requests the set of what is outside a zone allows those that the set allows and that don't
/// come from inside, where the schema gives each key of the zone one value of its kind.
pub fn zones_leave_the_outside()
    ensures { ZonesLeaveTheOutside }
{}

/// A run on the set of what is outside a zone has the schema of a run on the set, where that schema takes the
/// zone, and no condition is at fault. So a summary of the set written out finds what is found of the outside.
pub fn zones_keep_schemas()
    ensures { ZonesKeepSchemas }
{
    keys_have_their_rules();
}

/// A list of a zone file has at most 100 members, an account twelve digits, and a listed organisation or VPC
/// at most 2,048 characters.
pub fn zone_limits()
    ensures { ZoneLimits }
{}
