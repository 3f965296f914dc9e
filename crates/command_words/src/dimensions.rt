//! The dimensions that findings are asked by.
ghost use Rattle.std.specs.Prelude.{◌≡◌, map, IfOk};
ghost use Rattle.command_words.specs.Asked.{are_dimensions, are_distinct, is_one_of, lower_case, texts_in};

use crate::limits::MOST_DIMENSIONS;
use plain_lists::NoMemory;
use std::alloc::Global;

// The names with their ASCII letters lowered.
fn lowered(alloc: Global, names: &[String]) -> Result<Vec<String>, NoMemory>
    ensures { IfOk result (λ all. texts_in all.items ≡ map lower_case (texts_in names.now)) }
{
    let mut all = Vec::new(alloc);
    for name in names {
        all.push(name.to_ascii_lowercase(alloc)?)?;
    }
    Ok(all)
}

// Whether the text is one of these.
fn is_one_of(text: &str, others: &[String]) -> bool
    ensures { result ≡ is_one_of text.now (texts_in others.now) }
{
    for other in others {
        if other.as_str() == text {
            return true;
        }
    }
    false
}

// Whether none of the texts is another one of them.
fn are_distinct(texts: &[String]) -> bool
    ensures { result ≡ are_distinct (texts_in texts.now) }
{
    for i in 0..texts.len() {
        if is_one_of(texts[i].as_str(), &texts[i + 1..]) {
            return false;
        }
    }
    true
}

/// Whether these are at most four names that differ when ASCII letters are lowered.
pub(crate) fn are_dimensions(alloc: Global, names: &[String]) -> Result<bool, NoMemory>
    ensures { IfOk result (λ b. b ≡ are_dimensions (texts_in names.now)) }
{
    if names.len() > MOST_DIMENSIONS {
        return Ok(false);
    }
    let all = lowered(alloc, names)?;
    Ok(are_distinct(all.as_slice()))
}
