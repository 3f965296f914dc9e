//! How values of condition keys are written in files of schemas and of requests.
ghost use Rattle.std.specs.Prelude.{◌≡◌, ◌<◌, All, IfOk, IfSome};
ghost use Rattle.base64.specs.Engines.{standard};
ghost use Rattle.base64.specs.GeneralPurpose.{decoded_of};
ghost use Rattle.policy_model.specs.Requests.{IsOfKind};
ghost use Rattle.request_schema.specs.ValueTexts.{truth_named, value_written};

use base64::DecodeAllocError;
use base64::engine::general_purpose::STANDARD;
use cidr_bits::{Address, read_address};
use intervals::{ByteList, Scaled, read_decimal};
use policy_model::{Kind, List, NoMemory, Value};
use std::alloc::{AllocError, Global};
use wildcard_lang::Text;

// The truth value of a name.
fn truth_named(text: &str) -> Option<bool>
    ensures { result ≡ truth_named text.now }
{
    match text {
        "true" => Some(true),
        "false" => Some(false),
        _ => None,
    }
}

// The bytes that a text in base64 stands for.
#[tactic(auto, unfolding(base64::specs::GeneralPurpose::decoded_of))]
fn bytes_written(alloc: Global, text: &str) -> Result<Option<ByteList>, NoMemory>
    ensures value { IfOk result (λ bytes. bytes ≡ decoded_of standard text.now) }
    ensures bytes { IfOk result (λ bytes. IfSome bytes (λ b. All (λ x. x < 256) b)) }
{
    match STANDARD.decode(alloc, text.as_bytes()) {
        Ok(bytes) => Ok(Some(List::from_vec(bytes))),
        Err(DecodeAllocError::OutOfMemory) => Err(AllocError),
        Err(DecodeAllocError::DecodeError(_)) => Ok(None),
    }
}

/// The value of the kind that a text writes, or none. A text is itself, a truth value is `true` or
/// `false`, a number has the decimal form, an address its form, and bytes are base64 with padding.
pub fn value_written(alloc: Global, kind: Kind, text: &str) -> Result<Option<Value>, NoMemory>
    ensures value { IfOk result (λ value. value ≡ value_written kind text.now) }
    ensures kind { IfOk result (λ value. IfSome value (IsOfKind kind)) }
{
    match kind {
        Kind::Text => Ok(Some(Value::Word(Text::of(alloc, text)?))),
        Kind::Truth => Ok(truth_named(text).map(Value::Truth)),
        Kind::Number => Ok(read_decimal(text).ok().map(Value::Number)),
        Kind::Address => Ok(read_address(text).ok().map(Value::Address)),
        Kind::Bytes => Ok(bytes_written(alloc, text)?.map(Value::Bytes)),
    }
}
