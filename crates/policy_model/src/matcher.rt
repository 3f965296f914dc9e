//! The items of an element of a statement, or of its Not element.
ghost use Rattle.std.specs.Prelude.{◌≡◌};
ghost use Rattle.std.proofs.Common.{rules};

use plain_lists::{EqualClone, List, NoMemory};

/// The items of an element such as `Action`, or with `not` of its Not element such as `NotAction`.
#[derive(Drop)]
pub struct Matcher<T> {
    pub not: bool,
    pub items: List<T>,
}

impl<T: EqualClone> Clone for Matcher<T> {
    ghost is_clone = { λ x y. y ≡ x };

    fn clone(&self) -> Result<Matcher<T>, NoMemory> {
        let items = self.items.copy()?;
        Ok(Matcher {
            not: self.not,
            items,
        })
    }
}

impl<T: EqualClone> EqualClone for Matcher<T> {
    ghost clones_are_equal = { Prim.search rules };
}
