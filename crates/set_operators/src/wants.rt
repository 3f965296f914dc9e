//! One value of a text key: the patterns and clauses that the asks and the rule put on it, and the search for it.
ghost use Rattle.std.specs.Prelude.{◌≡◌, ◌++◌, ◌≤◌, ◌↔◌, [], unwrap_or, length, All, IfOk, OnOk, IsTrue};
ghost use Rattle.std.specs.Option.{option_to_list};
ghost use Rattle.policy_model.specs.Soundness.{IsShortValue, RuleIsSound};
ghost use Rattle.set_operators.specs.Steps.{IsChoiceIn, IsProductOf, IsWantsFor, chosen_asks};
ghost use Rattle.set_operators.specs.Wants.{IsClosedForValue, list_clause, listed_pattern, listed_patterns, shape_clause};

use crate::ask::KeyAsk;
use crate::numbered::{Asked, Item, Numbered, asked_of, push_some};
use crate::steps::Choice;
use pattern_automata::{Closed, Literal, Product, Wants, is_closed, product};
use plain_lists::NoMemory;
use policy_model::{Cond, KeyRule, Value};
use std::alloc::Global;
use wildcard_lang::{Pattern, PatternList};

impl Item for Pattern {
    ghost use Rattle.set_operators.specs.Wants.{cond_patterns};

    ghost items_of = { cond_patterns };

    fn of_cond(cond: &Cond) -> Result<Option<Pattern>, NoMemory> {
        match cond {
            Cond::Matches(pattern) => Ok(Some(pattern.copy()?)),
            _ => Ok(None),
        }
    }
}

impl Numbered for Literal {
    ghost use Rattle.set_operators.specs.Wants.{literal_at};

    ghost literal_of = { literal_at };

    fn literal(holds: bool, number: u32) -> Literal {
        Literal {
            pattern: number,
            holds,
        }
    }
}

// Adds the shape, where one is given, and the clause that it matches.
fn add_shape(
    alloc: Global,
    shape: &Option<Pattern>,
    asked: &mut Asked<Pattern, Literal>,
) -> Result<(), NoMemory>
    ensures items { OnOk result (
        asked.new.items ≡ asked.old.items ++ option_to_list shape.now) }
    ensures clauses { OnOk result (asked.new.clauses ≡
        asked.old.clauses ++ shape_clause shape.now (length asked.old.items)) }
{
    let Some(shape) = shape else {
        return Ok(());
    };
    let first = asked.items.len();
    asked.items.push(shape.copy()?)?;
    let count = asked.items.len() - first;
    push_some(alloc, true, first, count, &mut asked.clauses)
}

// Adds the pattern of a listed text.
fn push_value(alloc: Global, value: &Value, items: &mut PatternList) -> Result<(), NoMemory>
    requires { IsShortValue value.now }
    ensures { OnOk result (items.new ≡ items.old ++ listed_pattern value.now) }
{
    match value {
        Value::Word(text) => items.push(Pattern::literal(alloc, text)?),
        _ => Ok(()),
    }
}

// Adds the patterns of listed texts.
fn push_values(alloc: Global, listed: &[Value], items: &mut PatternList) -> Result<(), NoMemory>
    requires { All IsShortValue listed.now }
    ensures { OnOk result (items.new ≡ items.old ++ listed_patterns listed.now) }
{
    for value in listed {
        push_value(alloc, value, items)?;
    }
    Ok(())
}

// Adds the listed texts, where some are listed, and the clause that one of them matches.
fn add_listed(
    alloc: Global,
    rule: &KeyRule,
    asked: &mut Asked<Pattern, Literal>,
) -> Result<(), NoMemory>
    requires { RuleIsSound rule.now }
    ensures items { OnOk result (asked.new.items ≡
        asked.old.items ++ listed_patterns (unwrap_or rule.now.among [])) }
    ensures clauses { OnOk result (asked.new.clauses ≡
        asked.old.clauses ++ list_clause rule.now.among (length asked.old.items)) }
{
    let Some(listed) = &rule.among else {
        return Ok(());
    };
    let first = asked.items.len();
    push_values(alloc, listed.as_slice(), &mut asked.items)?;
    let count = asked.items.len() - first;
    push_some(alloc, true, first, count, &mut asked.clauses)
}

// The patterns and clauses that the chosen asks, and then the rule, put on one value.
fn wants_of(
    alloc: Global,
    rule: &KeyRule,
    asks: &[(KeyAsk, bool)],
    choice: Choice,
) -> Result<Wants, NoMemory>
    requires sound { RuleIsSound rule.now }
    requires choice { IsChoiceIn asks.now choice }
    ensures { IfOk result (IsWantsFor rule.now (chosen_asks asks.now choice)) }
{
    let mut asked = asked_of(alloc, asks, choice)?;
    add_shape(alloc, &rule.shape, &mut asked)?;
    add_listed(alloc, rule, &mut asked)?;
    Ok(Wants {
        patterns: asked.items,
        clauses: asked.clauses,
    })
}

/// A text that the rule permits and that answers the chosen asks, or what shows that there is none, or too many
/// product states. The only error is want of memory.
pub fn text_for(
    alloc: Global,
    rule: &KeyRule,
    asks: &[(KeyAsk, bool)],
    choice: Choice,
    states: u32,
) -> Result<Product, NoMemory>
    requires sound { RuleIsSound rule.now }
    requires choice { IsChoiceIn asks.now choice }
    requires positive { 1 ≤ states }
    ensures { IfOk result (IsProductOf rule.now (chosen_asks asks.now choice) states) }
{
    let wants = wants_of(alloc, rule, asks, choice)?;
    product(alloc, &wants, states)
}

/// Whether the set is closed for one value of the key. It then shows that no text that the rule permits answers the
/// chosen asks. The only error is want of memory.
pub fn is_closed_for_value(
    alloc: Global,
    rule: &KeyRule,
    asks: &[(KeyAsk, bool)],
    choice: Choice,
    closed: &Closed,
) -> Result<bool, NoMemory>
    requires sound { RuleIsSound rule.now }
    requires choice { IsChoiceIn asks.now choice }
    ensures { IfOk result (λ yes.
        IsTrue yes ↔ IsClosedForValue rule.now (chosen_asks asks.now choice) closed.now) }
{
    let wants = wants_of(alloc, rule, asks, choice)?;
    is_closed(alloc, &wants, closed)
}
