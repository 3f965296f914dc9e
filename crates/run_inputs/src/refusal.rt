//! Why files, and the sets that they stand for, aren't answered.
ghost use Rattle.std.specs.Prelude.{◌≡◌, IfOk, string_bytes};
ghost use Rattle.run_inputs.specs.Printing.{IfAnswered};
ghost use Rattle.run_inputs.specs.Refusals.{PrintsRefusal, refusal_text};

use crate::codes::{fault_text, infer_text, schema_text};
use crate::file_lines::role_word;
use crate::lines::refused_line;
use crate::printed::{EarlyEnd, Printed};
use crate::role::Role;
use crate::status::Status;
use policy_json::PolicyFault;
use request_schema::{InferFault, SchemaFault};
use std::alloc::{AllocError, Global};

/// Why sets aren't answered, whatever is asked of them.
#[derive(Drop)]
pub enum Refusal {
    /// The schema file stands for no schema: its first fault.
    BadSchema(SchemaFault),
    /// A file stands for no set of policies: its first fault.
    BadSet(Role, PolicyFault),
    /// The first condition that no schema of the run can answer, and the role of its set.
    BadCondition(Role, InferFault),
    /// The query has more than 1,000 different tests.
    TooManyTests,
    /// The patterns of the query's tests have more than 65,536 pieces together.
    TooManyPieces,
}

#[tactic(auto, unfolding(crate::specs::Refusals::refusal_text))]
fn refusal_text(alloc: Global, refusal: &Refusal) -> Result<String, AllocError>
    ensures { IfOk result (λ s. string_bytes s ≡ refusal_text refusal.now) }
{
    match refusal {
        Refusal::BadSet(role, fault) => {
            refused_line(alloc, role_word(*role), fault_text(alloc, fault)?.as_str())
        }
        Refusal::BadSchema(fault) => {
            refused_line(alloc, "schema", schema_text(alloc, fault)?.as_str())
        }
        Refusal::BadCondition(role, fault) => {
            refused_line(alloc, role_word(*role), infer_text(alloc, fault)?.as_str())
        }
        Refusal::TooManyTests => String::from_str(
            alloc,
            "refused: query: P17 Limit: document 0, statement 0, \"tests\"\n",
        ),
        Refusal::TooManyPieces => String::from_str(
            alloc,
            "refused: query: P17 Limit: document 0, statement 0, \"pieces\"\n",
        ),
    }
}

/// The line of the refusal, which ends the run.
pub fn refused(alloc: Global, refusal: Refusal) -> EarlyEnd
    ensures { IfAnswered result (PrintsRefusal refusal) }
{
    match refusal_text(alloc, &refusal) {
        Ok(text) => EarlyEnd::Answered(Printed {
            text,
            status: Status::Refused,
        }),
        Err(_) => EarlyEnd::NoMemory,
    }
}
