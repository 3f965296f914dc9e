//! The lines on files that can't be read or are too long.
ghost use Rattle.std.specs.Prelude.{◌≡◌, IfOk, string_bytes};
ghost use Rattle.run_inputs.specs.FileLines.{IsTooLong, read_fault_line, role_word, too_long_end, too_long_line};
ghost use Rattle.run_inputs.specs.Printing.{PrintsText};
ghost use Rattle.run_inputs.specs.declared.status.Status.TheVariants.{ReadFault};

use crate::files::limit_of;
use crate::printed::{EarlyEnd, Printed};
use crate::role::Role;
use crate::status::Status;
use std::alloc::{AllocError, Global};

/// The word for a file in a line.
pub fn role_word(role: Role) -> &'static str
    ensures { result.now ≡ role_word role }
{
    match role {
        Role::First => "first",
        Role::Second => "second",
        Role::Set => "set",
        Role::Schema => "schema",
        Role::Request => "request",
        Role::Proof => "proof",
        Role::Zone => "zone",
    }
}

// The line on a file that can't be read.
fn read_fault_line(alloc: Global, role: Role) -> Result<String, AllocError>
    ensures { IfOk result (λ s. string_bytes s ≡ read_fault_line role) }
{
    let role = role_word(role);
    format!(in alloc; "read fault: {role}\n")
}

// The end of the line on a file that is too long.
#[tactic(auto, unfolding(crate::specs::FileLines::too_long_end))]
fn too_long_end(alloc: Global, role: Role) -> Result<String, AllocError>
    ensures { IfOk result (λ s. string_bytes s ≡ too_long_end role) }
{
    let limit = limit_of(role);
    format!(in alloc; ": file longer than {limit} bytes\n")
}

// The line on a file that is too long.
fn too_long_line(alloc: Global, role: Role) -> Result<String, AllocError>
    ensures { IfOk result (λ s. string_bytes s ≡ too_long_line role) }
{
    let end = too_long_end(alloc, role)?;
    let end = end.as_str();
    let role = role_word(role);
    format!(in alloc; "refused: {role}{end}")
}

/// What is printed of a file that can't be read.
pub fn read_fault(alloc: Global, role: Role) -> Result<Printed, AllocError>
    ensures { IfOk result (PrintsText (read_fault_line role) ReadFault) }
{
    Ok(Printed {
        text: read_fault_line(alloc, role)?,
        status: Status::ReadFault,
    })
}

/// What is printed of a file that is too long.
pub fn too_long(alloc: Global, role: Role) -> EarlyEnd
    ensures { IsTooLong role result }
{
    match too_long_line(alloc, role) {
        Ok(text) => EarlyEnd::Answered(Printed {
            text,
            status: Status::Refused,
        }),
        Err(_) => EarlyEnd::NoMemory,
    }
}
