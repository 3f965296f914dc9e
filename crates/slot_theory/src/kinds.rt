//! The tests of a core on principals of one kind.
ghost use Rattle.std.specs.Prelude.{◌≡◌, ◌≢◌, ◌<◌, ◌↔◌, IfOk, IsTrue, IsSomeAnd, All, Any, Some, length};
ghost use Rattle.slot_theory.specs.Slots.{fixed_at};
ghost use Rattle.slot_theory.specs.Cores.{IsContradicted, open_tests};

use crate::outcome::Core;
use crate::slots::fixed_at;
use formula_tree::Path;
use plain_lists::NoMemory;
use policy_model::{PrincipalKind, Test};
use std::alloc::Global;

/// Whether the test has a fixed answer for the kind, and it isn't this one.
fn contradicts(test: &Test, kind: PrincipalKind, answer: Option<bool>) -> bool
    ensures { IsTrue result ↔ IsSomeAnd (fixed_at kind test.now) (λ b. answer ≢ Some b) }
{
    match fixed_at(test, kind) {
        None => false,
        Some(fixed) => answer != Some(fixed),
    }
}

/// Whether some test has a fixed answer for the kind, and the path answers it otherwise.
pub fn is_contradicted(tests: &[Test], path: &Path, core: &[u32], kind: PrincipalKind) -> bool
    requires { All (λ n. n < length tests.now) core.now }
    ensures { IsTrue result ↔ Any (IsContradicted tests.now path.now kind) core.now }
{
    for n in core {
        if contradicts(&tests[*n as usize], kind, path.answer(*n)) {
            return true;
        }
    }
    false
}

/// The tests that have no fixed answer for the kind.
pub fn open_tests(
    alloc: Global,
    tests: &[Test],
    core: &[u32],
    kind: PrincipalKind,
) -> Result<Core, NoMemory>
    requires { All (λ n. n < length tests.now) core.now }
    ensures { IfOk result (λ v. v ≡ open_tests tests.now kind core.now) }
{
    let mut open = Core::new(alloc);
    for n in core {
        if fixed_at(&tests[*n as usize], kind).is_none() {
            open.push(*n)?;
        }
    }
    Ok(open)
}
