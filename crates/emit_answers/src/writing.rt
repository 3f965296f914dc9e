//! What is printed of what was found.
ghost use Rattle.std.specs.Prelude.{◌≡◌, IfOk, string_bytes};
ghost use Rattle.run_inputs.specs.Printing.{IfPrinted};
ghost use Rattle.summary_answers.specs.Found.{HaveFindings};
ghost use Rattle.emit_answers.specs.EmitPrinted.{IsPolicyPrinted, many_findings_line};

use policy_emit::{EmitFault, emit};
use policy_model::Schema;
use run_inputs::{EarlyEnd, Printed, Status};
use std::alloc::{AllocError, Global};
use summary_answers::{Found, ended};

// The line on more findings than statements may stand in a set.
fn many_findings_line(alloc: Global) -> Result<String, AllocError>
    ensures { IfOk result (λ s. string_bytes s ≡ many_findings_line) }
{
    String::from_str(
        alloc,
        "refused: query: P17 Limit: document 0, statement 0, \"findings\"\n",
    )
}

/// The policy of what was found, or the line on too many findings for one.
pub fn print_policy(alloc: Global, schema: &Schema, found: &Found) -> Result<Printed, EarlyEnd>
    requires { HaveFindings found.now.strata.dimensions found.now.summary }
    ensures { IfPrinted result (IsPolicyPrinted schema.now found.now) }
{
    match emit(alloc, schema, &found.strata, &found.summary) {
        Ok(text) => Ok(Printed {
            text,
            status: Status::Holds,
        }),
        Err(EmitFault::TooManyStatements) => {
            Err(ended(many_findings_line(alloc), Status::Refused))
        }
        Err(EmitFault::NoMemory) => Err(EarlyEnd::NoMemory),
    }
}
