//! Values with equal copies.
ghost use Rattle.std.specs.Prelude.{◌≡◌, IfOk};
ghost use Rattle.std.proofs.Common.{rules};

use crate::{List, NoMemory};

/// A value whose clones are equal to it. `Clone` alone doesn't promise that.
pub trait EqualClone: Clone {
    ghost clones_are_equal: { (x y : Self) → Self.is_clone x y → y ≡ x };

    /// An equal value.
    final fn copy(&self) -> Result<Self, NoMemory>
        ensures { IfOk result (λ v. v ≡ self.now) }
    {
        self.clone()
    }
}

impl<T: EqualClone> Clone for List<T> {
    ghost is_clone = { λ x y. y ≡ x };

    fn clone(&self) -> Result<List<T>, NoMemory> {
        let items = self.items.clone()?;
        Ok(List { items })
    }
}

impl<T: EqualClone> EqualClone for List<T> {
    ghost clones_are_equal = { Prim.search rules };
}

impl EqualClone for bool {
    ghost clones_are_equal = { Prim.search rules };
}

impl EqualClone for u8 {
    ghost clones_are_equal = { Prim.search rules };
}

impl EqualClone for u32 {
    ghost clones_are_equal = { Prim.search rules };
}

impl EqualClone for usize {
    ghost clones_are_equal = { Prim.search rules };
}

impl<T: EqualClone> EqualClone for Option<T> {
    ghost clones_are_equal = { Prim.search rules };
}
