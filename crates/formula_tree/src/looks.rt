//! What a look at a formula gives: its value, and the test that it waits for.
ghost use Rattle.std.specs.Prelude.{◌≡◌};
ghost use Rattle.formula_tree.specs.Looks.{look_of_both, look_of_either, pick_in, look_of_test, look_of_not, value_in};

use crate::value::Three;

/// A value, and where it is unknown the number of the test that the formula waits for.
#[derive(Clone, Copy, PartialEq, Eq)]
pub enum Look {
    Yes,
    No,
    Waits(u32),
}

/// The value.
pub fn value_in(look: Look) -> Three
    ensures { result ≡ value_in look }
{
    match look {
        Look::Yes => Three::Yes,
        Look::No => Three::No,
        Look::Waits(_) => Three::Unknown,
    }
}

/// The test that the formula waits for, or none where the value is known.
pub fn pick_in(look: Look) -> Option<u32>
    ensures { result ≡ pick_in look }
{
    match look {
        Look::Yes => None,
        Look::No => None,
        Look::Waits(test) => Some(test),
    }
}

/// A test with this answer or none.
pub fn look_of_test(answer: Option<bool>, test: u32) -> Look
    ensures { result ≡ look_of_test answer test }
{
    match answer {
        Some(true) => Look::Yes,
        Some(false) => Look::No,
        None => Look::Waits(test),
    }
}

/// The formula turned.
pub fn look_of_not(look: Look) -> Look
    ensures { result ≡ look_of_not look }
{
    match look {
        Look::Yes => Look::No,
        Look::No => Look::Yes,
        Look::Waits(test) => Look::Waits(test),
    }
}

/// Two formulas that both must hold: the first that isn't yes, unless one is no.
pub fn look_of_both(first: Look, second: Look) -> Look
    ensures { result ≡ look_of_both first second }
{
    match (first, second) {
        (Look::No, _) | (_, Look::No) => Look::No,
        (Look::Yes, _) => second,
        (Look::Waits(test), _) => Look::Waits(test),
    }
}

/// Two formulas, one of which must hold: the first that isn't no, unless one is yes.
pub fn look_of_either(first: Look, second: Look) -> Look
    ensures { result ≡ look_of_either first second }
{
    match (first, second) {
        (Look::Yes, _) | (_, Look::Yes) => Look::Yes,
        (Look::No, _) => second,
        (Look::Waits(test), _) => Look::Waits(test),
    }
}
