//! What is found of what a set allows from outside a zone.
ghost use Rattle.std.specs.Prelude.{◌≡◌, IfOk, true};
ghost use Rattle.command_words.specs.Asked.{are_dimensions, texts_in};
ghost use Rattle.run_inputs.specs.Printing.{IfPrinted};
ghost use Rattle.run_inputs.specs.OneSets.{FitsItsSchema};
ghost use Rattle.summary_search.specs.Outcomes.{AreInRange};
ghost use Rattle.summary_answers.specs.Subjects.{SubjectFits};
ghost use Rattle.trust_zones.specs.Zones.{HasFreeNumber, TakesZone, ZoneIsSound};
ghost use Rattle.reach_answers.specs.ReachPrinted.{IsZonePrinted, left_outside};

use findings::{Region, summaries_cover};
use policy_model::{EqualClone, NoMemory};
use run_inputs::{EarlyEnd, OneSet, Printed};
use std::alloc::Global;
use summary_answers::{Subject, print_subject_findings};
use summary_search::Limits;
use trust_zones::{Zone, outside, zones_keep_schemas, zones_leave_the_outside};

// What the set allows outside the zone, under the set's schema.
fn left_outside(alloc: Global, one: &OneSet, zone: &Zone) -> Result<Subject, NoMemory>
    requires fits { FitsItsSchema one.now }
    requires free { HasFreeNumber one.now.set }
    requires takes { TakesZone one.now.schema zone.now }
    requires sound { ZoneIsSound zone.now }
    ensures value { IfOk result (λ left. left ≡ left_outside one.now zone.now) }
    ensures fits { IfOk result SubjectFits }
{
    let set = outside(alloc, &one.set, zone)?;
    let schema = one.schema.copy()?;
    Ok(Subject {
        schema,
        region: Region::AllowedBy(set),
    })
}

/// What is printed of a set, under the schema of its run, and a zone that this schema takes, by the dimensions
/// of these names.
pub(crate) fn print_outside(
    alloc: Global,
    one: &OneSet,
    zone: &Zone,
    names: &[String],
    limits: Limits,
) -> Result<Printed, EarlyEnd>
    requires fits { FitsItsSchema one.now }
    requires free { HasFreeNumber one.now.set }
    requires takes { TakesZone one.now.schema zone.now }
    requires sound { ZoneIsSound zone.now }
    requires dimensions { are_dimensions (texts_in names.now) ≡ true }
    requires limits { AreInRange limits }
    ensures { IfPrinted result (IsZonePrinted (texts_in names.now) limits one.now zone.now) }
{
    zones_leave_the_outside();
    zones_keep_schemas();
    summaries_cover();
    let left = left_outside(alloc, one, zone)?;
    print_subject_findings(alloc, &left, names, limits)
}
