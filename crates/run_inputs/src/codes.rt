//! The words of fault codes, and what a line says of a fault.
ghost use Rattle.std.specs.Prelude.{◌≡◌, IfOk, string_bytes};
ghost use Rattle.run_inputs.specs.Refusals.{code_word, document_end, fault_text, infer_text, infer_word, location_of, schema_text, schema_word, statement_end};

use crate::lines::{element_end, element_text, number_text};
use policy_json::{PolicyCode, PolicyFault};
use policy_model::StatementName;
use request_schema::{InferFault, SchemaCode, SchemaFault};
use std::alloc::{AllocError, Global};
use wildcard_lang::Text;

fn code_word(code: PolicyCode) -> &'static str
    ensures { result.now ≡ code_word code }
{
    match code {
        PolicyCode::P1NotJson => "P1 NotJson",
        PolicyCode::P2SetShape => "P2 SetShape",
        PolicyCode::P3UnknownElement => "P3 UnknownElement",
        PolicyCode::P4WrongShape => "P4 WrongShape",
        PolicyCode::P5MissingElement => "P5 MissingElement",
        PolicyCode::P6BothElements => "P6 BothElements",
        PolicyCode::P7BadVersion => "P7 BadVersion",
        PolicyCode::P8BadEffect => "P8 BadEffect",
        PolicyCode::P9PrincipalKind => "P9 PrincipalKind",
        PolicyCode::P10PrincipalWildcard => "P10 PrincipalWildcard",
        PolicyCode::P11PolicyVariable => "P11 PolicyVariable",
        PolicyCode::P12UnknownOperator => "P12 UnknownOperator",
        PolicyCode::P13BadValue => "P13 BadValue",
        PolicyCode::P14ArnParts => "P14 ArnParts",
        PolicyCode::P17Limit => "P17 Limit",
    }
}

fn schema_word(code: SchemaCode) -> &'static str
    ensures { result.now ≡ schema_word code }
{
    match code {
        SchemaCode::S1NotJson => "S1 NotJson",
        SchemaCode::S2Shape => "S2 Shape",
        SchemaCode::S3UnknownKind => "S3 UnknownKind",
        SchemaCode::S4KeyTwice => "S4 KeyTwice",
        SchemaCode::S5UnknownDimension => "S5 UnknownDimension",
        SchemaCode::S6EmptyShape => "S6 EmptyShape",
        SchemaCode::S7EmptyValues => "S7 EmptyValues",
        SchemaCode::S8BadValue => "S8 BadValue",
        SchemaCode::S9Limit => "S9 Limit",
    }
}

fn infer_word(fault: &InferFault) -> &'static str
    ensures { result.now ≡ infer_word fault.now }
{
    if fault.plural {
        "P16 PluralKey"
    } else {
        "P15 KindClash"
    }
}

// The statement of a fault, and its element.
#[tactic(auto, unfolding(crate::specs::Refusals::statement_end))]
fn statement_end(alloc: Global, name: StatementName, element: &Text) -> Result<String, AllocError>
    ensures { IfOk result (λ s. string_bytes s ≡ statement_end name element.now) }
{
    let end = element_end(alloc, element)?;
    let statement = number_text(alloc, name.statement)?;
    let statement = statement.as_str();
    let end = end.as_str();
    format!(in alloc; ", statement {statement}{end}")
}

// The document of a fault, and what is behind it.
#[tactic(auto, unfolding(crate::specs::Refusals::document_end))]
fn document_end(alloc: Global, name: StatementName, element: &Text) -> Result<String, AllocError>
    ensures { IfOk result (λ s. string_bytes s ≡ document_end name element.now) }
{
    let end = statement_end(alloc, name, element)?;
    let document = number_text(alloc, name.document)?;
    let document = document.as_str();
    let end = end.as_str();
    format!(in alloc; ": document {document}{end}")
}

fn location_of(fault: &PolicyFault) -> StatementName
    ensures { result ≡ location_of fault.now }
{
    StatementName {
        document: fault.document,
        statement: fault.statement,
    }
}

// A fault of a set with its location.
pub fn fault_text(alloc: Global, fault: &PolicyFault) -> Result<String, AllocError>
    ensures { IfOk result (λ s. string_bytes s ≡ fault_text fault.now) }
{
    let code = code_word(fault.code);
    let end = document_end(alloc, location_of(fault), &fault.element)?;
    let end = end.as_str();
    format!(in alloc; "{code}{end}")
}

// A condition that the run has no schema for, with its location.
pub fn infer_text(alloc: Global, fault: &InferFault) -> Result<String, AllocError>
    ensures { IfOk result (λ s. string_bytes s ≡ infer_text fault.now) }
{
    let word = infer_word(fault);
    let end = document_end(alloc, fault.name, &fault.key)?;
    let end = end.as_str();
    format!(in alloc; "{word}{end}")
}

// A fault of a schema file with its element.
pub fn schema_text(alloc: Global, fault: &SchemaFault) -> Result<String, AllocError>
    ensures { IfOk result (λ s. string_bytes s ≡ schema_text fault.now) }
{
    let code = schema_word(fault.code);
    let element = element_text(alloc, &fault.element)?;
    let element = element.as_str();
    format!(in alloc; "{code}: {element}")
}
