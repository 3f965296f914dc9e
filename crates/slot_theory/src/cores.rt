//! Cores: lists of test numbers that strictly rise.
ghost use Rattle.std.specs.Prelude.{◌≡◌, ◌<◌, ◌≤◌, ◌↔◌, ℕ, true, IfOk, IsTrue, All, Contains, MatchOption, Some, length, slice_get, slice_index, remove};
ghost use Rattle.pattern_automata.specs.Closed.{rises_from};
ghost use Rattle.slot_theory.specs.Possible.{PathInRange};
ghost use Rattle.slot_theory.specs.Cores.{IsAnsweredOn, IsCore, IsWith};

use crate::outcome::Core;
use crate::slots::is_on;
use formula_tree::Path;
use pattern_automata::rises;
use plain_lists::NoMemory;
use policy_model::{Slot, Test};
use std::alloc::Global;

/// Whether the path answers the test, and the test is on the slot.
fn is_answered_on(tests: &[Test], path: &Path, slot: &Slot, n: u32) -> bool
    requires range { PathInRange tests.now path.now }
    ensures { IsTrue result ↔ IsAnsweredOn tests.now path.now slot.now n }
{
    match path.answer(n) {
        None => false,
        Some(_) => is_on(slot, &tests[n as usize]),
    }
}

/// Whether the path answers each test, and each is on the slot.
fn all_answered_on(tests: &[Test], path: &Path, slot: &Slot, core: &[u32]) -> bool
    requires range { PathInRange tests.now path.now }
    ensures { IsTrue result ↔ All (IsAnsweredOn tests.now path.now slot.now) core.now }
{
    for n in core {
        if !is_answered_on(tests, path, slot, *n) {
            return false;
        }
    }
    true
}

/// Whether the numbers are a core of the slot.
pub fn is_core(tests: &[Test], path: &Path, slot: &Slot, core: &[u32]) -> bool
    requires range { PathInRange tests.now path.now }
    ensures { IsTrue result ↔ IsCore tests.now path.now core.now slot.now }
{
    if core.is_empty() || !rises(core) {
        return false;
    }
    all_answered_on(tests, path, slot, core)
}

/// The index of the first number above n, or the length where there is none.
fn index_of(core: &[u32], n: u32) -> usize
    ensures within { result ≤ length core.now }
    ensures before { (k : ℕ) → k < result → slice_index core.now k ≤ n }
    ensures behind { result < length core.now → n < slice_index core.now result }
{
    for (i, m) in core.iter().enumerate() {
        if *m > n {
            return i;
        }
    }
    core.len()
}

/// The index of the number, or none where it isn't among them.
pub fn index_in(core: &[u32], n: u32) -> Option<usize>
    ensures { MatchOption result (Contains core.now n → ⊥) (λ i. slice_get core.now i ≡ Some n) }
{
    for (i, m) in core.iter().enumerate() {
        if *m == n {
            return Some(i);
        }
    }
    None
}

/// The core with one more test.
pub fn with_test(alloc: Global, core: &[u32], n: u32) -> Result<Core, NoMemory>
    requires rises { rises_from 0 core.now ≡ true }
    requires new { Contains core.now n → ⊥ }
    ensures { IfOk result (IsWith core.now n) }
{
    let index = index_of(core, n);
    let mut numbers = Vec::from_slice(alloc, core)?;
    numbers.insert(index, n)?;
    Ok(Core::from_vec(numbers))
}

/// The core without the test at an index.
pub fn without(alloc: Global, core: &[u32], index: usize) -> Result<Core, NoMemory>
    requires { index < length core.now }
    ensures { IfOk result (λ v. v ≡ remove core.now index) }
{
    let mut numbers = Vec::from_slice(alloc, core)?;
    numbers.remove(index);
    Ok(Core::from_vec(numbers))
}
