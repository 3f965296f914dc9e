//! Listed values of a key, which are tried one by one: there are at most 100.
ghost use Rattle.std.specs.Prelude.{◌↔◌, IfOk, IsTrue};
ghost use Rattle.policy_model.specs.Soundness.{RuleIsSound};
ghost use Rattle.set_operators.specs.Listed.{IsListedFound, IsListedMember};
ghost use Rattle.set_operators.specs.Members.{MeetsAsk};
ghost use Rattle.set_operators.specs.Steps.{AnswersAt, AnswersPicked, IsChoiceIn, chosen_asks};

use crate::ask::KeyAsk;
use crate::steps::{Choice, is_chosen};
use plain_lists::{EqualClone, NoMemory};
use policy_model::{KeyRule, Value, cond_meets, meets_some};

/// Whether the value meets the ask: it alone makes the ask hold.
pub fn meets_ask(value: &Value, ask: &KeyAsk) -> bool
    ensures { IsTrue result ↔ MeetsAsk value.now ask.now }
{
    match ask {
        KeyAsk::Present => true,
        KeyAsk::SomeMeets(cond) => cond_meets(value, cond),
        KeyAsk::SomeMeetsNone(conds) => !meets_some(value, conds),
    }
}

// Whether the value answers the ask of this number, if it is chosen.
fn answers_at(value: &Value, choice: Choice, index: usize, asked: &(KeyAsk, bool)) -> bool
    ensures { IsTrue result ↔ AnswersAt value.now choice index asked.now }
{
    if !is_chosen(choice, index, asked.1) {
        return true;
    }
    meets_ask(value, &asked.0) == asked.1
}

// Whether the value answers each of the asks that are chosen.
fn answers_each(value: &Value, asks: &[(KeyAsk, bool)], choice: Choice) -> bool
    ensures { IsTrue result ↔ AnswersPicked value.now choice asks.now }
{
    for i in 0..asks.len() {
        if !answers_at(value, choice, i, &asks[i]) {
            return false;
        }
    }
    true
}

// The first of the listed values that answers the chosen asks.
fn listed_for(
    listed: &[Value],
    asks: &[(KeyAsk, bool)],
    choice: Choice,
) -> Result<Option<Value>, NoMemory>
    requires { IsChoiceIn asks.now choice }
    ensures { IfOk result (IsListedFound listed.now (chosen_asks asks.now choice)) }
{
    for value in listed {
        if answers_each(value, asks, choice) {
            return Ok(Some(value.copy()?));
        }
    }
    Ok(None)
}

/// A listed value that is a member for the chosen asks. Where values are listed and none is found, there
/// is no member.
pub fn listed_member(
    rule: &KeyRule,
    asks: &[(KeyAsk, bool)],
    choice: Choice,
) -> Result<Option<Value>, NoMemory>
    requires sound { RuleIsSound rule.now }
    requires choice { IsChoiceIn asks.now choice }
    ensures { IfOk result (IsListedMember rule.now (chosen_asks asks.now choice)) }
{
    match &rule.among {
        Some(listed) => listed_for(listed.as_slice(), asks, choice),
        None => Ok(None),
    }
}
