//! Parts of lines.
ghost use Rattle.std.specs.Prelude.{◌≡◌, ◌++◌, IfOk, codes, decimal, string_bytes};
ghost use Rattle.run_inputs.specs.Parts.{element_text, slot_word};

use policy_model::Slot;
use serde_json::Value;
use std::alloc::{AllocError, Global};
use wildcard_lang::Text;

/// The name of a slot: a key's is its own, with its ASCII letters lowered.
pub fn slot_word(alloc: Global, slot: &Slot) -> Result<String, AllocError>
    ensures { IfOk result (λ s. string_bytes s ≡ slot_word slot.now) }
{
    match slot {
        Slot::Principal => String::from_str(alloc, "principal"),
        Slot::Action => String::from_str(alloc, "action"),
        Slot::Resource => String::from_str(alloc, "resource"),
        Slot::Key(name) => {
            let name = name.to_utf8()?;
            format!(in alloc; "key {name}")
        }
    }
}

/// The number in decimals.
pub fn number_text(alloc: Global, number: u32) -> Result<String, AllocError>
    ensures { IfOk result (λ s. string_bytes s ≡ decimal number) }
{
    format!(in alloc; "{number}")
}

/// The slot, at the end of a line on its product states.
pub fn slot_end(alloc: Global, slot: &Slot) -> Result<String, AllocError>
    ensures { IfOk result (λ s. string_bytes s ≡ codes " at " ++ slot_word slot.now ++ codes "\n") }
{
    let slot = slot_word(alloc, slot)?;
    format!(in alloc; " at {slot}\n")
}

/// The element of a fault as JSON (RFC 8259).
pub fn element_text(alloc: Global, element: &Text) -> Result<String, AllocError>
    ensures { IfOk result (λ s. string_bytes s ≡ element_text element.now) }
{
    let element = element.to_utf8()?;
    Value::String(element).to_string(alloc)
}

/// The element of a fault, at the end of its line.
pub fn element_end(alloc: Global, element: &Text) -> Result<String, AllocError>
    ensures { IfOk result (λ s. string_bytes s ≡ codes ", " ++ element_text element.now) }
{
    let element = element_text(alloc, element)?;
    format!(in alloc; ", {element}")
}

/// The line of a refusal of a file, by a fault of it.
pub fn refused_line(alloc: Global, file: &str, fault: &str) -> Result<String, AllocError>
    ensures { IfOk result (λ s. string_bytes s
        ≡ codes "refused: " ++ file.now ++ codes ": " ++ fault.now ++ codes "\n") }
{
    format!(in alloc; "refused: {file}: {fault}\n")
}
