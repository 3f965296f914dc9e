//! One value of a key whose values aren't texts.
ghost use Rattle.std.specs.Prelude.{◌≡◌, All, IfOk, MatchOption};
ghost use Rattle.policy_model.specs.declared.value.Kind.TheVariants.{Text};
ghost use Rattle.set_operators.specs.Asks.{AskIsOf};
ghost use Rattle.set_operators.specs.Plain.{IsMemberFound, IsPlainFor, IsPlainFound, as_kind, as_value};
ghost use Rattle.set_operators.specs.Shown.{AbsentIsWanted};
ghost use Rattle.set_operators.specs.Steps.{IsChoiceIn, IsPosed, chosen_asks};

use crate::ask::KeyAsk;
use crate::listed::listed_member;
use crate::numbered::{Item, Numbered, asked_of};
use crate::steps::Choice;
use plain_lists::{EqualClone, NoMemory};
use policy_model::{Cond, KeyRule, Kind, Value};
use std::alloc::Global;
use value_theory::{
    Literal, PlainCond, PlainKind, PlainValue, PlainWants, Solved, meets_is_meaning, sample_points,
    solve,
};

impl Item for PlainCond {
    ghost use Rattle.set_operators.specs.Plain.{plain_conds};

    ghost items_of = { plain_conds };

    fn of_cond(cond: &Cond) -> Result<Option<PlainCond>, NoMemory> {
        match cond {
            Cond::Matches(_) => Ok(None),
            Cond::Compares(compare, bound) => Ok(Some(PlainCond::Compares(*compare, *bound))),
            Cond::Inside(block) => Ok(Some(PlainCond::Inside(*block))),
            Cond::Flag(at_true, at_false) => Ok(Some(PlainCond::Flag(*at_true, *at_false))),
            Cond::Equals(bytes) => Ok(Some(PlainCond::Equals(bytes.copy()?))),
        }
    }
}

impl Numbered for Literal {
    ghost use Rattle.set_operators.specs.Plain.{plain_literal_at};

    ghost literal_of = { plain_literal_at };

    fn literal(holds: bool, number: u32) -> Literal {
        Literal {
            pattern: number,
            holds,
        }
    }
}

/// The kind as the theory of plain values has it, or none of texts.
pub fn plain_kind(kind: Kind) -> Option<PlainKind>
    ensures { MatchOption result (kind ≡ Text) (λ k. as_kind k ≡ kind) }
{
    match kind {
        Kind::Text => None,
        Kind::Truth => Some(PlainKind::Truth),
        Kind::Number => Some(PlainKind::Number),
        Kind::Address => Some(PlainKind::Address),
        Kind::Bytes => Some(PlainKind::Bytes),
    }
}

// The value of a key.
fn as_value(value: PlainValue) -> Value
    ensures { result ≡ as_value value }
{
    match value {
        PlainValue::Truth(truth) => Value::Truth(truth),
        PlainValue::Number(number) => Value::Number(number),
        PlainValue::Address(address) => Value::Address(address),
        PlainValue::Bytes(bytes) => Value::Bytes(bytes),
    }
}

// What the chosen asks want of a value of the kind.
fn plain_wants(
    alloc: Global,
    kind: PlainKind,
    asks: &[(KeyAsk, bool)],
    choice: Choice,
) -> Result<PlainWants, NoMemory>
    requires { IsChoiceIn asks.now choice }
    ensures { IfOk result (IsPlainFor kind (chosen_asks asks.now choice)) }
{
    let asked = asked_of(alloc, asks, choice)?;
    Ok(PlainWants {
        kind,
        conds: asked.items,
        clauses: asked.clauses,
    })
}

/// Values of the kind. If any value answers the asks, one of these does. Asks on values of another kind have
/// none.
pub fn points_of(
    alloc: Global,
    kind: PlainKind,
    asks: &[(KeyAsk, bool)],
) -> Result<Vec<Option<Value>>, NoMemory> {
    let mut values = Vec::new(alloc);
    let wants = plain_wants(alloc, kind, asks, Choice::Each)?;
    if wants.is_proper() {
        for point in sample_points(alloc, kind, wants.conds.as_slice())?.into_vec() {
            values.push(Some(as_value(point)))?;
        }
    }
    Ok(values)
}

// A value of the kind that answers the chosen asks, by the sample points of their conditions.
fn point_for(
    alloc: Global,
    kind: PlainKind,
    asks: &[(KeyAsk, bool)],
    choice: Choice,
) -> Result<Option<Value>, NoMemory>
    requires choice { IsChoiceIn asks.now choice }
    requires asks { All (λ a. AskIsOf (as_kind kind) a.0) asks.now }
    requires there { ¬ AbsentIsWanted asks.now }
    ensures { IfOk result (IsPlainFound kind (chosen_asks asks.now choice)) }
{
    meets_is_meaning();
    let wants = plain_wants(alloc, kind, asks, choice)?;
    match solve(alloc, &wants)? {
        Solved::Found(value) => Ok(Some(as_value(value))),
        Solved::Empty => Ok(None),
    }
}

/// A member for the chosen asks, or none where there is none.
pub fn value_for(
    alloc: Global,
    kind: PlainKind,
    rule: &KeyRule,
    asks: &[(KeyAsk, bool)],
    choice: Choice,
) -> Result<Option<Value>, NoMemory>
    requires posed { IsPosed rule.now asks.now }
    requires kind { as_kind kind ≡ rule.now.kind }
    requires choice { IsChoiceIn asks.now choice }
    ensures { IfOk result (IsMemberFound rule.now (chosen_asks asks.now choice)) }
{
    match &rule.among {
        Some(_) => listed_member(rule, asks, choice),
        None => point_for(alloc, kind, asks, choice),
    }
}
