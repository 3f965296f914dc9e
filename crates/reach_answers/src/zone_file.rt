//! The zone that a file stands for, or what is printed of its first fault.
ghost use Rattle.std.specs.Prelude.{◌≡◌, IfOk, Ok, codes, string_bytes};
ghost use Rattle.run_inputs.specs.Printing.{IfAnswered, OrAnswered, PrintsText};
ghost use Rattle.run_inputs.specs.declared.status.Status.TheVariants.{Refused};
ghost use Rattle.trust_zones.specs.ZoneFiles.{zone_from};
ghost use Rattle.trust_zones.specs.Zones.{TakesZone, ZoneIsSound};
ghost use Rattle.reach_answers.specs.ZoneRefusals.{IsZoneRefused, zone_line, zone_text, zone_word};

use policy_model::Schema;
use run_inputs::{EarlyEnd, Status, element_text, refused_line};
use std::alloc::{AllocError, Global};
use summary_answers::ended;
use trust_zones::{Zone, ZoneAnswer, ZoneCode, ZoneFault, read_zone};

fn zone_word(code: ZoneCode) -> &'static str
    ensures { result.now ≡ zone_word code }
{
    match code {
        ZoneCode::Z1NotJson => "Z1 NotJson",
        ZoneCode::Z2Shape => "Z2 Shape",
        ZoneCode::Z3BadValue => "Z3 BadValue",
        ZoneCode::Z4KeyKind => "Z4 KeyKind",
        ZoneCode::Z5Limit => "Z5 Limit",
    }
}

// A fault of a zone file with its element.
#[tactic(auto, unfolding(crate::specs::ZoneRefusals::zone_text))]
fn zone_text(alloc: Global, fault: &ZoneFault) -> Result<String, AllocError>
    ensures { IfOk result (λ s. string_bytes s ≡ zone_text fault.now) }
{
    let word = zone_word(fault.code);
    let element = element_text(alloc, &fault.element)?;
    let element = element.as_str();
    format!(in alloc; "{word}: {element}")
}

// The line of a zone file that is refused.
#[tactic(auto, unfolding(crate::specs::ZoneRefusals::zone_line))]
fn zone_line(alloc: Global, fault: &ZoneFault) -> Result<String, AllocError>
    ensures { IfOk result (λ s. string_bytes s ≡ zone_line fault.now) }
{
    refused_line(alloc, "zone", zone_text(alloc, fault)?.as_str())
}

// The line of the fault, which ends the run.
fn zone_refused(alloc: Global, fault: &ZoneFault) -> EarlyEnd
    ensures { IfAnswered result (PrintsText (zone_line fault.now) Refused) }
{
    ended(zone_line(alloc, fault), Status::Refused)
}

/// The zone that the file stands for under the schema of the run, or the line on its first fault.
pub(crate) fn zone_of(alloc: Global, schema: &Schema, bytes: &[u8]) -> Result<Zone, EarlyEnd>
    ensures read { OrAnswered result (λ zone. zone_from schema.now bytes.now ≡ Ok zone)
        (IsZoneRefused schema.now bytes.now) }
    ensures takes { IfOk result (TakesZone schema.now) }
    ensures sound { IfOk result ZoneIsSound }
{
    match read_zone(alloc, schema, bytes) {
        Ok(zone) => Ok(zone),
        Err(ZoneAnswer::Refused(fault)) => Err(zone_refused(alloc, &fault)),
        Err(ZoneAnswer::NoMemory) => Err(EarlyEnd::NoMemory),
    }
}
