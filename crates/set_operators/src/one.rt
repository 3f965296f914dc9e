//! One value for the chosen asks.
ghost use Rattle.std.specs.Prelude.{◌≡◌, ◌≤◌, IfOk};
ghost use Rattle.policy_model.specs.declared.value.Kind.TheVariants.{Text};
ghost use Rattle.set_operators.specs.Plain.{as_kind};
ghost use Rattle.set_operators.specs.Steps.{IsChoiceIn, IsOne, IsPosed, chosen_asks};

use crate::ask::KeyAsk;
use crate::listed::listed_member;
use crate::plain::{plain_kind, value_for};
use crate::steps::{Choice, One};
use crate::wants::text_for;
use pattern_automata::Product;
use plain_lists::NoMemory;
use policy_model::{KeyRule, Value};
use std::alloc::Global;
use value_theory::PlainKind;

// As above, for a text key. A product has the listed texts among its patterns, and walks through what they
// have in common, so it is made only where none of them is found by itself.
fn one_text(
    alloc: Global,
    rule: &KeyRule,
    asks: &[(KeyAsk, bool)],
    choice: Choice,
    states: u32,
) -> Result<One, NoMemory>
    requires posed { IsPosed rule.now asks.now }
    requires kind { rule.now.kind ≡ Text }
    requires choice { IsChoiceIn asks.now choice }
    requires positive { 1 ≤ states }
    ensures { IfOk result (IsOne rule.now (chosen_asks asks.now choice) states) }
{
    if let Some(value) = listed_member(rule, asks, choice)? {
        return Ok(One::Found(value));
    }
    match text_for(alloc, rule, asks, choice, states)? {
        Product::Found(text) => Ok(One::Found(Value::Word(text))),
        Product::Empty(closed) => Ok(One::Closed(closed)),
        Product::TooMany(texts) => Ok(One::TooMany(texts)),
    }
}

// As above, for a key of another kind.
fn one_plain(
    alloc: Global,
    kind: PlainKind,
    rule: &KeyRule,
    asks: &[(KeyAsk, bool)],
    choice: Choice,
    states: u32,
) -> Result<One, NoMemory>
    requires posed { IsPosed rule.now asks.now }
    requires kind { as_kind kind ≡ rule.now.kind }
    requires choice { IsChoiceIn asks.now choice }
    ensures { IfOk result (IsOne rule.now (chosen_asks asks.now choice) states) }
{
    match value_for(alloc, kind, rule, asks, choice)? {
        Some(value) => Ok(One::Found(value)),
        None => Ok(One::Nothing),
    }
}

/// A member for the chosen asks, or what shows that there is none, or too many product states. None of
/// the asks wants the key to be absent: that is no clause of a product.
pub fn one(
    alloc: Global,
    rule: &KeyRule,
    asks: &[(KeyAsk, bool)],
    choice: Choice,
    states: u32,
) -> Result<One, NoMemory>
    requires posed { IsPosed rule.now asks.now }
    requires choice { IsChoiceIn asks.now choice }
    requires positive { 1 ≤ states }
    ensures { IfOk result (IsOne rule.now (chosen_asks asks.now choice) states) }
{
    match plain_kind(rule.kind) {
        None => one_text(alloc, rule, asks, choice, states),
        Some(kind) => one_plain(alloc, kind, rule, asks, choice, states),
    }
}
