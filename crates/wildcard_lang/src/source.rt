//! The characters of a text or the pieces of a pattern, taken from the front or the end one by one.
ghost use Rattle.std.specs.Prelude.{◌≡◌, ℕ, List, [], ◌∷◌, ◌++◌, IfSome, IfNone, slice_get, Some};
ghost use Rattle.std.specs.Str.{chars};

// What gives items one by one. Matching goes over it, so that a `Text`, a `str` and a pattern share it.
pub(crate) trait Source<X>: Copy {
    // The items that are left.
    ghost left: { Self → List X };

    fn next_item(&mut self) -> Option<X>
        ensures split { IfSome result (λ x. left self.old ≡ x ∷ left self.new) }
        ensures none { IfNone result (left self.old ≡ []) };

    fn last_item(&mut self) -> Option<X>
        ensures split { IfSome result (λ x. left self.old ≡ left self.new ++ x ∷ []) }
        ensures none { IfNone result (left self.old ≡ []) };

    // The item at an index, counted from 0, where it is found in one step.
    fn item_at(&self, i: usize) -> Option<X>
        ensures { IfSome result (λ x. slice_get (left self.now) i ≡ Some x) };
}

impl<'a, X: Copy> Source<X> for &'a [X] {
    ghost left = { λ s. s.now };

    fn next_item(&mut self) -> Option<X> {
        let (x, rest) = self.split_first()?;
        *self = rest;
        Some(*x)
    }

    fn last_item(&mut self) -> Option<X> {
        let (x, rest) = self.split_last()?;
        *self = rest;
        Some(*x)
    }

    fn item_at(&self, i: usize) -> Option<X> {
        self.get(i).copied()
    }
}

impl<'a> Source<char> for &'a str {
    ghost left = { λ s. chars s.now };

    fn next_item(&mut self) -> Option<char> {
        let (c, rest) = split_first(*self)?;
        *self = rest;
        Some(c)
    }

    fn last_item(&mut self) -> Option<char> {
        let (c, rest) = split_last(*self)?;
        *self = rest;
        Some(c)
    }

    // A string finds none: its characters are of different lengths.
    fn item_at(&self, _i: usize) -> Option<char> {
        None
    }
}

fn split_first(text: &str) -> Option<(char, &str)>
    ensures split { IfSome result (λ r. chars text.now ≡ r.0 ∷ chars r.1.now) }
    ensures none { IfNone result (chars text.now ≡ []) }
{
    let mut rest = text.chars();
    let c = rest.next()?;
    Some((c, rest.as_str()))
}

fn split_last(text: &str) -> Option<(char, &str)>
    ensures split { IfSome result (λ r. chars text.now ≡ chars r.1.now ++ r.0 ∷ []) }
    ensures none { IfNone result (chars text.now ≡ []) }
{
    let mut rest = text.chars();
    let c = rest.next_back()?;
    Some((c, rest.as_str()))
}
