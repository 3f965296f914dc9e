//! What a policy's value asks of a value of a key.
ghost use Rattle.std.specs.Prelude.{◌≡◌, ◌≤◌, ◌↔◌, IfOk, IsTrue, chars, length, true};
ghost use Rattle.wildcard_lang.specs.Accepts.{accepts};
ghost use Rattle.wildcard_lang.specs.Matching.{Matches};
ghost use Rattle.wildcard_lang.specs.Reading.{literals};
ghost use Rattle.wildcard_lang.specs.Text.{folded_text};
ghost use Rattle.wildcard_lang.specs.declared.pattern.TheConstants.{MOST_PIECES};
ghost use Rattle.policy_model.specs.Conds.{CondMeets};
ghost use Rattle.policy_model.specs.Conditions.{conds_of};
ghost use Rattle.policy_model.specs.Operators.{cond_of, pattern_cond, truth_cond, truth_word};
ghost use Rattle.policy_model.specs.declared.value.Kind.TheVariants as kind;

use crate::cond::{
    Cond, CondList, address_is_inside, bytes_are, number_stands, truth_is_taken, word_matches,
};
use crate::operator::{Base, Condition, Operand};
use crate::value::{Kind, Value};
use plain_lists::{EqualClone, List, NoMemory};
use std::alloc::{AllocError, Global};
use wildcard_lang::{
    Pattern, PatternFault, Text, literal_matches_itself, matches_str, read_literal,
};

// How a truth value is written.
fn truth_word(truth: bool) -> &'static str
    ensures { chars result.now ≡ truth_word truth }
{
    if truth { "true" } else { "false" }
}

// Whether the text is the word, which has no capitals, in any case of its ASCII letters.
fn is_word_folded(text: &[char], word: &[char]) -> bool
    ensures { IsTrue result ↔ (folded_text text.now ≡ word.now) }
{
    match word {
        [] => text.is_empty(),
        [wanted, more @ ..] => match text {
            [] => false,
            [first, rest @ ..] => {
                first.to_ascii_lowercase() == *wanted && is_word_folded(rest, more)
            }
        },
    }
}

// Whether the text is the truth value's word in any case of its letters.
fn is_word_of(truth: bool, text: &Text) -> bool
    ensures { IsTrue result ↔ Matches (literals true (truth_word truth)) text.now }
{
    // Its contract shows that the folded word matches no other texts than its spellings.
    literal_matches_itself();
    if truth {
        is_word_folded(text.as_slice(), &['t', 'r', 'u', 'e'])
    } else {
        is_word_folded(text.as_slice(), &['f', 'a', 'l', 's', 'e'])
    }
}

// Whether the pattern matches the truth value's word.
fn takes_word(pattern: &Pattern, truth: bool) -> bool
    ensures { result ≡ accepts pattern.now (truth_word truth) }
{
    matches_str(pattern, truth_word(truth))
}

// What a pattern asks of values of the kind.
fn pattern_cond(kind: Kind, pattern: &Pattern) -> Result<Cond, NoMemory>
    ensures { IfOk result (λ c. c ≡ pattern_cond kind pattern.now) }
{
    match kind {
        Kind::Truth => Ok(Cond::Flag(takes_word(pattern, true), takes_word(pattern, false))),
        _ => Ok(Cond::Matches(pattern.copy()?)),
    }
}

// The pattern of a plain word in any case of its ASCII letters. It holds no policy variable and isn't
// too long, so it is refused for want of memory alone.
fn folded_literal(alloc: Global, word: &str) -> Result<Pattern, NoMemory>
    requires { length (chars word.now) ≤ MOST_PIECES }
    ensures { IfOk result (λ p. p ≡ literals true (chars word.now)) }
{
    match read_literal(alloc, word, true, false) {
        Ok(pattern) => Ok(pattern),
        Err(PatternFault::NoMemory) => Err(AllocError),
        Err(_) => unreachable!(),
    }
}

// What a truth value asks of values of the kind.
fn truth_cond(alloc: Global, kind: Kind, truth: bool) -> Result<Cond, NoMemory>
    ensures { IfOk result (λ c. c ≡ truth_cond kind truth) }
{
    match kind {
        Kind::Text => Ok(Cond::Matches(folded_literal(alloc, truth_word(truth))?)),
        _ => Ok(Cond::Flag(truth, !truth)),
    }
}

/// What a policy's value asks of a value of a key of the kind, a negated operator read without its
/// `Not`.
pub fn cond_of(alloc: Global, kind: Kind, base: Base, operand: &Operand) -> Result<Cond, NoMemory>
    ensures { IfOk result (λ c. c ≡ cond_of kind base operand.now) }
{
    match operand {
        Operand::Pattern(pattern) => pattern_cond(kind, pattern),
        Operand::Number(number) => Ok(Cond::Compares(base.compare(), *number)),
        Operand::Block(block) => Ok(Cond::Inside(*block)),
        Operand::Truth(truth) => truth_cond(alloc, kind, *truth),
        Operand::Bytes(bytes) => Ok(Cond::Equals(bytes.copy()?)),
    }
}

/// What the condition's values ask of a value of a key of the kind, in their order.
pub fn conds_of(alloc: Global, kind: Kind, condition: &Condition) -> Result<CondList, NoMemory>
    ensures { IfOk result (λ cs. cs ≡ conds_of kind condition.now) }
{
    let mut conds = List::new(alloc);
    for operand in condition.values.as_slice() {
        let cond = cond_of(alloc, kind, condition.operator.base, operand)?;
        conds.push(cond)?;
    }
    Ok(conds)
}

// Whether the value is a truth value whose word the pattern matches.
fn word_is_taken(value: &Value, pattern: &Pattern) -> bool
    ensures { IsTrue result ↔ CondMeets value.now (pattern_cond kind.Truth pattern.now) }
{
    match value {
        Value::Truth(truth) => takes_word(pattern, *truth),
        _ => false,
    }
}

// Whether the value is a text that is the truth value's word in any case of its letters.
fn is_written(value: &Value, truth: bool) -> bool
    ensures { IsTrue result ↔ CondMeets value.now (truth_cond kind.Text truth) }
{
    match value {
        Value::Word(text) => is_word_of(truth, text),
        _ => false,
    }
}

fn pattern_is_met(kind: Kind, pattern: &Pattern, value: &Value) -> bool
    ensures { IsTrue result ↔ CondMeets value.now (pattern_cond kind pattern.now) }
{
    match kind {
        Kind::Truth => word_is_taken(value, pattern),
        _ => word_matches(value, pattern),
    }
}

fn truth_is_met(kind: Kind, truth: bool, value: &Value) -> bool
    ensures { IsTrue result ↔ CondMeets value.now (truth_cond kind truth) }
{
    match kind {
        Kind::Text => is_written(value, truth),
        _ => truth_is_taken(value, truth, !truth),
    }
}

/// Whether a value meets what a policy's value asks, as `cond_of` says it. It takes no memory.
pub fn operand_meets(kind: Kind, base: Base, operand: &Operand, value: &Value) -> bool
    ensures { IsTrue result ↔ CondMeets value.now (cond_of kind base operand.now) }
{
    match operand {
        Operand::Pattern(pattern) => pattern_is_met(kind, pattern, value),
        Operand::Number(number) => number_stands(value, base.compare(), *number),
        Operand::Block(block) => address_is_inside(value, block),
        Operand::Truth(truth) => truth_is_met(kind, *truth, value),
        Operand::Bytes(bytes) => bytes_are(value, bytes),
    }
}
