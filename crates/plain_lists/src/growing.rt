//! Lists that reach to an index.
ghost use Rattle.std.specs.Prelude.{◌≡◌, ◌⊎◌, ◌≤◌, ◌<◌, ◌+◌, ◌^◌, ℕ, length, slice_index_or, OnOk};

use crate::{EqualClone, NoMemory};

/// Puts the item behind a list's items until there is one at the index. Where there is no memory the
/// list may be left with some of them.
pub fn fill_to<T: EqualClone + Drop>(
    items: &mut Vec<T>,
    index: usize,
    item: T,
) -> Result<(), NoMemory>
    requires { index < 2 ^ 63 }
    ensures same { (n : ℕ) →
        slice_index_or items.new.items n item ≡ slice_index_or items.old.items n item }
    ensures room { OnOk result (index < length items.new.items) }
    ensures no_more { (length items.new.items ≡ length items.old.items) ⊎
        (length items.new.items ≤ index + 1) }
{
    'room: for _ in items.len()..index + 1 {
        items.push(item.copy()?)?;
    }
    Ok(())
}
