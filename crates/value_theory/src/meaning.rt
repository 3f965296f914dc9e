//! Which values meet which conditions.
ghost use Rattle.std.specs.Prelude.{◌≡◌};
ghost use Rattle.value_theory.specs.Meaning.{PlainMeetsIsMeaning, plain_meets};

use crate::kinds::{PlainCond, PlainValue};
use cidr_bits::contains;
use intervals::satisfies;

/// Whether the value meets the condition. A value of another kind than the condition's never does. It
/// takes no memory.
pub fn meets_condition(value: &PlainValue, cond: &PlainCond) -> bool
    ensures { result ≡ plain_meets value.now cond.now }
{
    match (value, cond) {
        (PlainValue::Truth(truth), PlainCond::Flag(at_true, at_false)) => {
            if *truth { *at_true } else { *at_false }
        }
        (PlainValue::Number(number), PlainCond::Compares(compare, bound)) => {
            satisfies(*compare, *bound, *number)
        }
        (PlainValue::Address(address), PlainCond::Inside(block)) => contains(block, address),
        (PlainValue::Bytes(bytes), PlainCond::Equals(wanted)) => {
            bytes.as_slice() == wanted.as_slice()
        }
        _ => false,
    }
}

/// The computation whether a value meets a condition says what the relation says.
pub fn meets_is_meaning()
    ensures { PlainMeetsIsMeaning }
{}
