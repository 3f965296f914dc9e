//! The sample points: finitely many values that stand for all values of a kind.
ghost use Rattle.std.specs.Prelude.{◌≡◌, ◌+◌, ◌<◌, [], ◌∷◌, ◌++◌, All, IfOk, OnOk, replicate, map};
ghost use Rattle.std.specs.Option.{option_to_list};
ghost use Rattle.intervals.specs.Scaled.{IsScaled};
ghost use Rattle.cidr_bits.specs.Numbers.{number};
ghost use Rattle.value_theory.specs.declared.kinds.PlainKind.TheVariants as Kind;
ghost use Rattle.value_theory.specs.declared.kinds.PlainValue.TheVariants as Value;
ghost use Rattle.value_theory.specs.Meaning.{plain_kind, IsOfPlainKind};
ghost use Rattle.value_theory.specs.Samples.{SamplesStandForAll, samples, first_samples, last_samples, samples_at, number_samples, address_samples, address_at, longest_length, length_named};

use crate::kinds::{PlainCond, PlainKind, PlainValue};
use cidr_bits::{Address, Block, bounds};
use intervals::{ByteList, Scaled};
use plain_lists::{List, NoMemory};
use std::alloc::Global;

/// The least number: 10^27 is out of range.
const LEAST_UNITS: i128 = -999_999_999_999_999_999_999_999_999;

/// A list of values.
pub type SampleList = List<PlainValue>;

/// The sample points of the kind for these conditions, which are on values of it: each value of the kind
/// has one that answers all conditions as it does. They are in the order in which they are tried.
pub fn sample_points(
    alloc: Global,
    kind: PlainKind,
    conds: &[PlainCond],
) -> Result<SampleList, NoMemory>
    requires { All (λ c. plain_kind c ≡ kind) conds.now }
    ensures items { IfOk result (λ points. points ≡ samples kind conds.now) }
    ensures kinds { IfOk result (λ points. All (IsOfPlainKind kind) points) }
{
    let mut points = List::new(alloc);
    push_first(alloc, kind, conds, &mut points)?;
    for cond in conds {
        push_points(alloc, cond, &mut points)?;
    }
    push_last(kind, &mut points)?;
    Ok(points)
}

// Adds the points that are tried first.
fn push_first(
    alloc: Global,
    kind: PlainKind,
    conds: &[PlainCond],
    points: &mut SampleList,
) -> Result<(), NoMemory>
    ensures items { OnOk result (points.new ≡ points.old ++ first_samples kind conds.now) }
    ensures kinds { OnOk result (All (IsOfPlainKind kind) (first_samples kind conds.now)) }
{
    match kind {
        PlainKind::Truth => {
            points.push(PlainValue::Truth(false))?;
            points.push(PlainValue::Truth(true))
        }
        PlainKind::Number => points.push(PlainValue::Number(number_of(0))),
        PlainKind::Address => {
            points.push(PlainValue::Address(Address::V4(0)))?;
            points.push(PlainValue::Address(Address::V6(0)))
        }
        PlainKind::Bytes => points.push(PlainValue::Bytes(zeros(alloc, longest_length(conds))?)),
    }
}

// Adds the point that is tried last.
fn push_last(kind: PlainKind, points: &mut SampleList) -> Result<(), NoMemory>
    ensures items { OnOk result (points.new ≡ points.old ++ last_samples kind) }
    ensures kinds { OnOk result (All (IsOfPlainKind kind) (last_samples kind)) }
{
    match kind {
        PlainKind::Number => points.push(PlainValue::Number(number_of(LEAST_UNITS))),
        PlainKind::Truth | PlainKind::Address | PlainKind::Bytes => Ok(()),
    }
}

fn number_of(units: i128) -> Scaled
    requires { IsScaled units }
    ensures { result ≡ units }
{
    match Scaled::from_units(units) {
        Ok(number) => number,
        Err(_) => unreachable!(),
    }
}

// A byte string of zeros with one more than `count`.
fn zeros(alloc: Global, count: usize) -> Result<ByteList, NoMemory>
    ensures items { IfOk result (λ bytes. bytes ≡ replicate count 0 ++ 0 ∷ []) }
{
    let mut bytes = vec![in alloc; 0u8; count]?;
    bytes.push(0)?;
    Ok(List::from_vec(bytes))
}

// The length of the longest byte string that a condition names.
fn longest_length(conds: &[PlainCond]) -> usize
    ensures { result ≡ longest_length conds.now }
{
    conds.iter().fold(0, |most, cond| most.max(length_of(cond)))
}

fn length_of(cond: &PlainCond) -> usize
    ensures { result ≡ length_named cond.now }
{
    match cond {
        PlainCond::Equals(bytes) => bytes.len(),
        _ => 0,
    }
}

// Adds the points at which the answer to the condition changes.
fn push_points(alloc: Global, cond: &PlainCond, points: &mut SampleList) -> Result<(), NoMemory>
    ensures items { OnOk result (points.new ≡ points.old ++ samples_at cond.now) }
    ensures kinds { OnOk result (All (IsOfPlainKind (plain_kind cond.now)) (samples_at cond.now)) }
{
    match cond {
        PlainCond::Compares(_, bound) => push_numbers(*bound, points),
        PlainCond::Inside(block) => push_addresses(block, points),
        PlainCond::Flag(_, _) => Ok(()),
        PlainCond::Equals(bytes) => push_bytes(alloc, bytes, points),
    }
}

// Adds the bound and the number past it.
fn push_numbers(bound: Scaled, points: &mut SampleList) -> Result<(), NoMemory>
    ensures items { OnOk result (points.new ≡ points.old ++ number_samples bound) }
    ensures kinds { OnOk result (All (IsOfPlainKind Kind.Number) (number_samples bound)) }
{
    points.push(PlainValue::Number(bound))?;
    if let Ok(after) = Scaled::from_units(bound.units() + 1) {
        points.push(PlainValue::Number(after))?;
    }
    Ok(())
}

// Adds the first address of the block and the one past its last.
fn push_addresses(block: &Block, points: &mut SampleList) -> Result<(), NoMemory>
    ensures items { OnOk result (points.new ≡ points.old ++ address_samples block.now) }
    ensures kinds { OnOk result (All (IsOfPlainKind Kind.Address) (address_samples block.now)) }
{
    let (first, last) = bounds(block);
    points.push(PlainValue::Address(first))?;
    if let Some(past) = next_address(last) {
        points.push(PlainValue::Address(past))?;
    }
    Ok(())
}

// The address after this one, where there is one.
fn next_address(address: Address) -> Option<Address>
    ensures { map Value.Address (option_to_list result) ≡ address_at address (number address + 1) }
{
    match address {
        Address::V4(number) => number.checked_add(1).map(Address::V4),
        Address::V6(number) => number.checked_add(1).map(Address::V6),
    }
}

// Adds the byte string.
fn push_bytes(alloc: Global, bytes: &ByteList, points: &mut SampleList) -> Result<(), NoMemory>
    ensures items { OnOk result (points.new ≡ points.old ++ Value.Bytes bytes.now ∷ []) }
    ensures kinds { OnOk result (All (IsOfPlainKind Kind.Bytes) (Value.Bytes bytes.now ∷ [])) }
{
    let copy = copy_of(alloc, bytes.as_slice())?;
    points.push(PlainValue::Bytes(copy))?;
    Ok(())
}

fn copy_of(alloc: Global, bytes: &[u8]) -> Result<ByteList, NoMemory>
    ensures items { IfOk result (λ copy. copy ≡ bytes.now) }
    ensures range { All (λ b. b < 256) bytes.now }
{
    Ok(List::from_vec(Vec::from_slice(alloc, bytes)?))
}

/// Each value of a kind has a sample point that answers all conditions as it does.
pub fn samples_stand_for_all()
    ensures { SamplesStandForAll }
{}
