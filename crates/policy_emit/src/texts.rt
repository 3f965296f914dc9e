//! Values of policies as JSON.
ghost use Rattle.std.specs.Prelude.{◌≡◌, true, All, IfOk, OnOk};
ghost use Rattle.std.specs.Str.{encode_utf8_all};
ghost use Rattle.base64.specs.Engines.{standard};
ghost use Rattle.base64.specs.GeneralPurpose.{encode_of};
ghost use Rattle.serde_json.specs.Data.{put, string};
ghost use Rattle.serde_json.specs.View.{members_view, view};
ghost use Rattle.cidr_bits.specs.Texts.{block_text};
ghost use Rattle.intervals.specs.DecimalTexts.{written_decimal};
ghost use Rattle.wildcard_lang.specs.Patterns.{IsPattern};
ghost use Rattle.policy_emit.specs.Emitted.{cond_operands, truths_of};
ghost use Rattle.policy_emit.specs.Written.{action_data, operands_data, resource_data};
ghost use Rattle.policy_emit.specs.Kept.{OperandIsKept};

use base64::engine::general_purpose::STANDARD;
use cidr_bits::{Block, write_block};
use intervals::{ByteList, Scaled, write_decimal};
use plain_lists::NoMemory;
use policy_model::Cond;
use serde_json::{Map, Value as Json};
use std::alloc::Global;
use wildcard_lang::{Pattern, Text, write_action, write_pattern};

/// A text as JSON.
pub(crate) fn text_json(text: &Text) -> Result<Json, NoMemory>
    ensures { IfOk result (λ v. view v ≡ string (encode_utf8_all text.now)) }
{
    Ok(Json::String(text.to_utf8()?))
}

/// A string as JSON.
pub(crate) fn str_json(alloc: Global, text: &str) -> Result<Json, NoMemory>
    ensures { IfOk result (λ v. view v ≡ string text.now) }
{
    Ok(Json::String(String::from_str(alloc, text)?))
}

/// The pattern of an action, without escapes.
pub(crate) fn action_json(alloc: Global, pattern: &Pattern) -> Result<Json, NoMemory>
    ensures data { IfOk result (λ v. view v ≡ action_data pattern.now) }
    ensures kept { IsPattern pattern.now }
{
    pattern.len();
    text_json(&write_action(alloc, pattern)?)
}

/// A pattern with escapes.
pub(crate) fn pattern_json(alloc: Global, pattern: &Pattern) -> Result<Json, NoMemory>
    ensures data { IfOk result (λ v. view v ≡ resource_data pattern.now) }
    ensures kept { IsPattern pattern.now }
{
    pattern.len();
    text_json(&write_pattern(alloc, pattern)?)
}

// Both truth values.
fn both_truths(alloc: Global) -> Result<Json, NoMemory>
    ensures { IfOk result (λ v. view v ≡ operands_data (truths_of true true)) }
{
    let mut truths = Vec::new(alloc);
    truths.push(str_json(alloc, "true")?)?;
    truths.push(str_json(alloc, "false")?)?;
    Ok(Json::Array(truths))
}

// The truth values that a flag takes.
fn flag_json(alloc: Global, at_true: bool, at_false: bool) -> Result<Json, NoMemory>
    ensures { IfOk result (λ v. view v ≡ operands_data (truths_of at_true at_false)) }
{
    match (at_true, at_false) {
        (true, false) => str_json(alloc, "true"),
        (false, true) => str_json(alloc, "false"),
        (true, true) => both_truths(alloc),
        (false, false) => Ok(Json::Array(Vec::new(alloc))),
    }
}

fn number_json(alloc: Global, number: Scaled) -> Result<Json, NoMemory>
    ensures { IfOk result (λ v. view v ≡ string (written_decimal number)) }
{
    Ok(Json::String(write_decimal(alloc, number)?))
}

fn block_json(alloc: Global, block: &Block) -> Result<Json, NoMemory>
    ensures { IfOk result (λ v. view v ≡ string (block_text block.now.first block.now.prefix)) }
{
    Ok(Json::String(write_block(alloc, block)?))
}

fn bytes_json(alloc: Global, bytes: &ByteList) -> Result<Json, NoMemory>
    ensures { IfOk result (λ v. view v ≡ string (encode_of standard bytes.now)) }
{
    Ok(Json::String(STANDARD.encode(alloc, bytes.as_slice())?))
}

/// The values of the condition by which a value meets what is asked.
pub(crate) fn cond_json(alloc: Global, cond: &Cond) -> Result<Json, NoMemory>
    ensures data { IfOk result (λ v. view v ≡ operands_data (cond_operands cond.now)) }
    ensures kept { All OperandIsKept (cond_operands cond.now) }
{
    match cond {
        Cond::Matches(pattern) => pattern_json(alloc, pattern),
        Cond::Compares(_, bound) => number_json(alloc, *bound),
        Cond::Inside(block) => block_json(alloc, block),
        Cond::Flag(at_true, at_false) => flag_json(alloc, *at_true, *at_false),
        Cond::Equals(bytes) => bytes_json(alloc, bytes),
    }
}

/// Puts a value at a name.
pub(crate) fn put_at(
    alloc: Global,
    members: &mut Map<String, Json>,
    name: &str,
    value: Json,
) -> Result<(), NoMemory>
    ensures { OnOk result (members_view members.new.entries ≡
        put name.now (view value) (members_view members.old.entries)) }
{
    let name = String::from_str(alloc, name)?;
    members.insert(name, value)?;
    Ok(())
}
