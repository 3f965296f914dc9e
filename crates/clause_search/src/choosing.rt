//! Few answers of an assignment that already make a formula yes, so that slots are asked about no more than these.
use clause_learning::Assignment;
use formula_tree::{Branches, Formula, Path};
use plain_lists::NoMemory;

// The price of what the assignment doesn't make so.
const NEVER: u64 = u64::MAX;

// The price of an answer: whether the path lacks it.
fn price_of_test(assignment: &Assignment, path: &Path, test: u32, wanted: bool) -> u64 {
    if assignment.value(test) != Some(wanted) {
        return NEVER;
    }
    u64::from(path.answer(test).is_none())
}

// How many answers more than those of the path the formula needs at most to have the wanted value.
#[cycle(price)]
fn price(assignment: &Assignment, path: &Path, formula: &Formula, wanted: bool) -> u64 {
    match formula {
        Formula::Yes => if wanted { 0 } else { NEVER },
        Formula::No => if wanted { NEVER } else { 0 },
        Formula::Test(test) => price_of_test(assignment, path, *test, wanted),
        Formula::Not(inner) => price(assignment, path, inner, !wanted),
        Formula::All(branches) => price_in(assignment, path, branches, wanted, true),
        Formula::OneOf(branches) => price_in(assignment, path, branches, wanted, false),
    }
}

// As above, for branches. All of them need the value where it is that of each, and else one of them does.
#[cycle(price)]
fn price_in(
    assignment: &Assignment,
    path: &Path,
    branches: &Branches,
    wanted: bool,
    of_each: bool,
) -> u64 {
    let mut sum = 0u64;
    let mut least = NEVER;
    'branches: for i in 0..branches.len() {
        if let Some(branch) = branches.get(i) {
            let own = price(assignment, path, branch, wanted);
            sum = sum.saturating_add(own);
            least = least.min(own);
        }
    }
    if wanted == of_each { sum } else { least }
}

/// Adds to the path answers of the assignment by which the formula has the wanted value.
#[cycle(choose)]
pub(crate) fn choose(
    assignment: &Assignment,
    path: &mut Path,
    formula: &Formula,
    wanted: bool,
) -> Result<(), NoMemory> {
    match formula {
        Formula::Yes => Ok(()),
        Formula::No => Ok(()),
        Formula::Test(test) => {
            if path.answer(*test).is_some() {
                return Ok(());
            }
            path.push(*test, wanted)
        }
        Formula::Not(inner) => choose(assignment, path, inner, !wanted),
        Formula::All(branches) => choose_in(assignment, path, branches, wanted, true),
        Formula::OneOf(branches) => choose_in(assignment, path, branches, wanted, false),
    }
}

#[cycle(choose)]
fn choose_in(
    assignment: &Assignment,
    path: &mut Path,
    branches: &Branches,
    wanted: bool,
    of_each: bool,
) -> Result<(), NoMemory> {
    let only = if wanted == of_each {
        None
    } else {
        Some(cheapest(assignment, path, branches, wanted))
    };
    'branches: for i in 0..branches.len() {
        if let Some(branch) = branches.get(i) {
            if only.is_none() || only == Some(i) {
                choose(assignment, path, branch, wanted)?;
            }
        }
    }
    Ok(())
}

// The branch that has the wanted value by fewest further answers, the first of several.
fn cheapest(assignment: &Assignment, path: &Path, branches: &Branches, wanted: bool) -> usize {
    let mut place = 0;
    let mut least = NEVER;
    'branches: for i in 0..branches.len() {
        if let Some(branch) = branches.get(i) {
            let own = price(assignment, path, branch, wanted);
            if own < least {
                place = i;
                least = own;
            }
        }
    }
    place
}
