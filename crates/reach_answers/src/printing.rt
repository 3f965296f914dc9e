//! What is printed to files of a set and of a zone.
ghost use Rattle.std.specs.Prelude.{◌≡◌, true, option_map};
ghost use Rattle.command_words.specs.Asked.{AreFindingsInRange, are_dimensions, summarising_in, texts_in};
ghost use Rattle.run_inputs.specs.Printing.{IfPrinted};
ghost use Rattle.run_inputs.specs.OneSets.{FitsItsSchema};
ghost use Rattle.summary_search.specs.Outcomes.{AreInRange};
ghost use Rattle.trust_zones.specs.Zones.{HasFreeNumber};
ghost use Rattle.reach_answers.specs.ReachPrinted.{IsReachOfSet, IsReachPrinted, reach_contents};

use crate::outside_zone::print_outside;
use crate::zone_file::zone_of;
use command_words::ReachArguments;
use policy_json::{read_sets_are_of_forms, set_limits};
use run_inputs::{EarlyEnd, OneSet, Printed, read_one};
use std::alloc::Global;
use summary_answers::limits_of;
use summary_search::Limits;

// What is printed of a set, under the schema of its run, and the file of a zone, by the dimensions of these
// names.
fn print_set_reach(
    alloc: Global,
    one: &OneSet,
    zone: &[u8],
    names: &[String],
    limits: Limits,
) -> Result<Printed, EarlyEnd>
    requires fits { FitsItsSchema one.now }
    requires free { HasFreeNumber one.now.set }
    requires dimensions { are_dimensions (texts_in names.now) ≡ true }
    requires limits { AreInRange limits }
    ensures { IfPrinted result (IsReachOfSet (texts_in names.now) limits zone.now one.now) }
{
    let zone = zone_of(alloc, &one.schema, zone)?;
    print_outside(alloc, one, &zone, names, limits)
}

/// What `reach` prints for files that were read, those of a set and of a zone and that of a schema where one is
/// named: who is allowed anything from outside the zone, by the dimensions; or the first fault of the files; or why
/// there is no summary of what is outside. A finding makes the status `Fails`, and none at all `Holds`.
pub fn print_reach(
    alloc: Global,
    set: &[u8],
    zone: &[u8],
    schema: Option<&[u8]>,
    arguments: &ReachArguments,
) -> Result<Printed, EarlyEnd>
    requires { AreFindingsInRange arguments.now.summary }
    ensures { IfPrinted result (IsReachPrinted (summarising_in arguments.now.summary)
        (reach_contents set.now zone.now (option_map (λ f. f.now) schema.entry))) }
{
    read_sets_are_of_forms();
    set_limits();
    let one = read_one(alloc, set, schema)?;
    print_set_reach(
        alloc,
        &one,
        zone,
        arguments.summary.dimensions.as_slice(),
        limits_of(&arguments.summary),
    )
}
