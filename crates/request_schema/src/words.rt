//! Reads the shapes of words.
ghost use Rattle.std.specs.Prelude.{◌≡◌, IfOk, length, nat_le, option_map};
ghost use Rattle.std.specs.List.{flat_map};
ghost use Rattle.std.specs.Str.{chars};
ghost use Rattle.serde_json.specs.View.{view};
ghost use Rattle.policy_model.specs.Soundness.{ShapesAreSound, WordShapeIsSound};
ghost use Rattle.request_schema.specs.SchemaHeads.{word_names};
ghost use Rattle.request_schema.specs.SchemaWords.{shapes_in, word_checks, word_shape, word_text};
ghost use Rattle.json_shapes.specs.Checks.{IsReadOf};

use crate::requirement::require;
use crate::rules::{read_pattern, string_at};
use crate::schema_fault::{SchemaAnswer, SchemaCode};
use policy_model::Shapes;
use serde_json::Value;
use std::alloc::Global;
use wildcard_lang::Pattern;

// The text of a word's shape, where one is given.
fn word_text<'a>(file: &'a Value, name: &str) -> Option<&'a str>
    ensures { option_map (λ s. s.now) result ≡ word_text name.now (view file.now) }
{
    match file.get("Shapes") {
        Some(shapes) => string_at(shapes, name),
        None => None,
    }
}

// Whether the text has a character.
fn is_some_text(text: &str) -> bool
    ensures { result ≡ nat_le 1 (length (chars text.now)) }
{
    text.chars().count() >= 1
}

// The shape of a word, where one is given.
fn read_word(
    alloc: Global,
    file: &Value,
    fold: bool,
    name: &str,
) -> Result<Option<Pattern>, SchemaAnswer>
    ensures read { IsReadOf (word_checks (view file.now) name.now)
        (word_shape fold name.now (view file.now)) result }
    ensures sound { IfOk result WordShapeIsSound }
{
    let Some(text) = word_text(file, name) else {
        return Ok(None);
    };
    require(alloc, is_some_text(text), SchemaCode::S6EmptyShape, name)?;
    let pattern = read_pattern(alloc, name, fold, text)?;
    Ok(Some(pattern))
}

/// The shapes of words, which are read in the order of the words' names.
pub(crate) fn read_words(alloc: Global, file: &Value) -> Result<Shapes, SchemaAnswer>
    ensures read { IsReadOf (flat_map (word_checks (view file.now)) word_names)
        (shapes_in (view file.now)) result }
    ensures sound { IfOk result ShapesAreSound }
{
    let aws = read_word(alloc, file, false, "AWS")?;
    let action = read_word(alloc, file, true, "Action")?;
    let canonical_user = read_word(alloc, file, false, "CanonicalUser")?;
    let federated = read_word(alloc, file, false, "Federated")?;
    let resource = read_word(alloc, file, false, "Resource")?;
    let service = read_word(alloc, file, false, "Service")?;
    Ok(Shapes {
        action,
        resource,
        aws,
        service,
        federated,
        canonical_user,
    })
}
