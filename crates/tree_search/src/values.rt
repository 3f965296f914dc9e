//! The values of slots that a search carries along.
ghost use Rattle.std.specs.Prelude.{◌≡◌, ◌<◌, ◌↔◌, ◌++◌, Some, IsSome, length, slice_get, slice_set, option_to_list};
ghost use Rattle.tree_search.specs.Values.{IsIndexOf};

use policy_model::Slot;
use request_build::SlotValues;
use slot_theory::SlotValue;
use std::alloc::Global;
use std::mem::replace;

/// The index of the slot's value, where it has one.
pub fn index_of(values: &SlotValues, slot: &Slot) -> Option<usize>
    ensures { IsIndexOf slot.now values.now result }
{
    'slots: for i in 0..values.len() {
        if values.as_slice()[i].0 == *slot {
            return Some(i);
        }
    }
    None
}

/// Puts a slot's value in place of the one at the index, and gives that one. It takes no memory.
pub fn exchange(
    alloc: Global,
    values: &mut SlotValues,
    index: usize,
    value: (Slot, SlotValue),
) -> (Slot, SlotValue)
    requires { index < length values.old }
    ensures new { values.new ≡ slice_set values.old index value }
    ensures old { slice_get values.old index ≡ Some result }
{
    let mut items = replace(values, SlotValues::new(alloc)).into_vec();
    let before = replace(&mut items[index], value);
    *values = SlotValues::from_vec(items);
    before
}

/// Takes the last value away. It takes no memory.
pub fn pop(alloc: Global, values: &mut SlotValues) -> Option<(Slot, SlotValue)>
    ensures last { values.old ≡ values.new ++ option_to_list result }
    ensures nonempty { IsSome result ↔ (0 < length values.old) }
{
    let mut items = replace(values, SlotValues::new(alloc)).into_vec();
    let last = items.pop();
    *values = SlotValues::from_vec(items);
    last
}
