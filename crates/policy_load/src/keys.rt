//! The keys, and what the first set asks of them.
ghost use Rattle.std.specs.Prelude.{◌≡◌, ◌+◌, ◌++◌, ◌<◌, chars, IfOk, OnOk};
ghost use Rattle.policy_load.specs.declared.keys.TheConstants.{KEY_NUMBERS};
ghost use Rattle.policy_load.specs.Loads.{LoadLimits, load_condition, load_conditions, load_key, load_values, three_digits};

use crate::patterns::literal;
use plain_lists::{List, NoMemory};
use policy_model::{Base, Condition, ConditionList, Operand, OperandList, Operator, Quantifier};
use std::alloc::Global;
use wildcard_lang::Text;

/// How many numbers three digits write. The name of a key has three, so its number is below this.
pub const KEY_NUMBERS: u32 = 1_000;

/// Three digits write 1,000 numbers.
pub fn load_limits()
    ensures { LoadLimits }
{}

// The decimal digit of a number below ten.
fn digit(number: u32) -> char
    requires { number < 10 }
    ensures { result ≡ 48 + number }
{
    (b'0' + number as u8) as char
}

// The characters of a text.
fn chars_of(alloc: Global, text: &str) -> Result<Vec<char>, NoMemory>
    ensures { IfOk result (λ name. name.items ≡ chars text.now) }
{
    let name: Vec<char> = text.chars().collect(alloc)?;
    Ok(name)
}

// Adds the three decimal digits of a number.
#[tactic(auto, using(crate::proofs::Names::three_more))]
fn push_digits(name: &mut Vec<char>, number: u32) -> Result<(), NoMemory>
    requires { number < KEY_NUMBERS }
    ensures { OnOk result (name.new.items ≡ name.old.items ++ three_digits number) }
{
    name.push(digit(number / 100))?;
    name.push(digit(number / 10 % 10))?;
    name.push(digit(number % 10))?;
    Ok(())
}

// The name of the key of this number.
#[tactic(auto, using(crate::proofs::Names::key_is_text))]
fn load_key(alloc: Global, number: u32) -> Result<Text, NoMemory>
    requires { number < KEY_NUMBERS }
    ensures { IfOk result (λ key. key ≡ load_key number) }
{
    let mut name = chars_of(alloc, "load:k")?;
    push_digits(&mut name, number)?;
    Ok(Text::from_chars(name))
}

// The two values that a key may have.
fn load_values(alloc: Global) -> Result<OperandList, NoMemory>
    ensures { IfOk result (λ values. values ≡ load_values) }
{
    let mut values = List::new(alloc);
    values.push(Operand::Pattern(literal(alloc, "a")?))?;
    values.push(Operand::Pattern(literal(alloc, "b")?))?;
    Ok(values)
}

// The condition on the key of this number.
fn load_condition(alloc: Global, number: u32) -> Result<Condition, NoMemory>
    requires { number < KEY_NUMBERS }
    ensures { IfOk result (λ condition. condition ≡ load_condition number) }
{
    Ok(Condition {
        operator: Operator {
            base: Base::StringEquals,
            quantifier: Quantifier::Plain,
            if_exists: false,
        },
        key: load_key(alloc, number)?,
        written: load_key(alloc, number)?,
        values: load_values(alloc)?,
    })
}

/// The conditions on the keys of the numbers from 1 on, so many of them.
pub(crate) fn load_conditions(alloc: Global, count: u32) -> Result<ConditionList, NoMemory>
    requires { count < KEY_NUMBERS }
    ensures { IfOk result (λ conditions. conditions ≡ load_conditions count) }
{
    let mut conditions = List::new(alloc);
    for i in 0..count {
        conditions.push(load_condition(alloc, i + 1)?)?;
    }
    Ok(conditions)
}
