//! The slots of the dimensions of a summary.
ghost use Rattle.std.specs.Prelude.{◌≡◌, ◌↔◌, All, IfOk, IsTrue, OnOk};
ghost use Rattle.std.specs.Str.{IsUtf8};
ghost use Rattle.command_words.specs.Asked.{texts_in};
ghost use Rattle.run_inputs.specs.Printing.{OrAnswered};
ghost use Rattle.slot_theory.specs.Slots.{SlotIsIn};
ghost use Rattle.summary_answers.specs.Dimensions.{AreSlotsOf, IsUnknownPrinted, dimension_slot};

use crate::ending::unknown;
use policy_model::{Schema, Slot, SlotList};
use run_inputs::EarlyEnd;
use std::alloc::{AllocError, Global};
use wildcard_lang::Text;

// The slot of the name.
fn dimension_slot(alloc: Global, name: &str) -> Result<Slot, AllocError>
    ensures { IfOk result (λ s. s ≡ dimension_slot name.now) }
{
    match name {
        "principal" => Ok(Slot::Principal),
        "action" => Ok(Slot::Action),
        "resource" => Ok(Slot::Resource),
        _ => Ok(Slot::Key(Text::of(alloc, name)?.folded()?)),
    }
}

// Whether requests under the schema may have a value in the slot.
fn is_in(schema: &Schema, slot: &Slot) -> bool
    ensures { IsTrue result ↔ SlotIsIn schema.now slot.now }
{
    match slot {
        Slot::Key(key) => schema.get(key).is_some(),
        Slot::Principal | Slot::Action | Slot::Resource => true,
    }
}

/// The slots of the names, in their order, or the line on the first name that is neither that of a part of
/// each request nor that of a key of the schema.
pub fn slots_of(alloc: Global, schema: &Schema, names: &[String]) -> Result<SlotList, EarlyEnd>
    ensures slots { OrAnswered result (AreSlotsOf schema.now (texts_in names.now))
        (IsUnknownPrinted schema.now (texts_in names.now)) }
    ensures texts { OnOk result (All IsUtf8 (texts_in names.now)) }
{
    let mut slots = SlotList::new(alloc);
    for name in names {
        let slot = dimension_slot(alloc, name.as_str())?;
        if !is_in(schema, &slot) {
            return Err(unknown(alloc, name.as_str()));
        }
        slots.push(slot)?;
    }
    Ok(slots)
}
