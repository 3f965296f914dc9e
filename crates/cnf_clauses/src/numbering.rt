//! The clauses of a formula.
ghost use Rattle.std.specs.Prelude.{◌≡◌, ◌+◌, ◌-◌, ◌^◌, ◌<◌, min, IfOk};
ghost use Rattle.formula_tree.specs.Trees.{children_of, tree_of};
ghost use Rattle.cnf_clauses.specs.Numbering.{Adds, all_ties, clauses_of, node_clauses, node_clauses_in, nodes, nodes_in, not_ties, one_of_ties, variable_of, variables_of};

use crate::clauses::Clauses;
use crate::making::Made;
use formula_tree::{Branches, Formula};
use plain_lists::NoMemory;
use std::alloc::{AllocError, Global};

// How many nodes of the formula aren't tests, up to the greatest number.
#[cycle(count)]
fn count(formula: &Formula) -> u64
    ensures { result ≡ min (nodes (tree_of formula.now)) (2 ^ 64 - 1) }
{
    match formula {
        Formula::Yes => 1,
        Formula::No => 1,
        Formula::Test(_) => 0,
        Formula::Not(inner) => count(inner).saturating_add(1),
        Formula::All(branches) => count_in(branches).saturating_add(1),
        Formula::OneOf(branches) => count_in(branches).saturating_add(1),
    }
}

#[cycle(count)]
fn count_in(branches: &Branches) -> u64
    ensures { result ≡ min (nodes_in (children_of branches.now)) (2 ^ 64 - 1) }
{
    let mut sum = 0u64;
    'branches: for i in 0..branches.len() {
        match branches.get(i) {
            None => break,
            Some(branch) => sum = sum.saturating_add(count(branch)),
        }
    }
    sum
}

// The variable of a formula, where the next node that isn't a test gets `next`.
fn variable_of(formula: &Formula, next: u32) -> u32
    ensures { result ≡ variable_of next (tree_of formula.now) }
{
    match formula {
        Formula::Test(test) => *test,
        Formula::Yes => next,
        Formula::No => next,
        Formula::Not(_) => next,
        Formula::All(_) => next,
        Formula::OneOf(_) => next,
    }
}

// The variables of the branches.
fn variables_of(alloc: Global, branches: &Branches, next: u32) -> Result<Vec<u32>, NoMemory>
    requires { next + nodes_in (children_of branches.now) < 2 ^ 32 }
    ensures { IfOk result (λ vs. vs.items ≡ variables_of next (children_of branches.now)) }
{
    let mut variables = Vec::new(alloc);
    let mut next = next;
    'branches: for i in 0..branches.len() {
        let Some(branch) = branches.get(i) else {
            break;
        };
        variables.push(variable_of(branch, next))?;
        next += count(branch) as u32;
    }
    Ok(variables)
}

// Adds the clauses that tie a `Not` node to its child.
fn tie_not(made: &mut Made, inner: &Formula, next: u32) -> Result<(), NoMemory>
    requires { next + 1 < 2 ^ 32 }
    ensures { Adds result made.old made.new (not_ties next (tree_of inner.now)) }
{
    let inside = variable_of(inner, next + 1);
    made.add_two((next, false), (inside, false))?;
    made.add_two((next, true), (inside, true))
}

// Adds the clauses that tie an `All` node to its branches.
fn tie_all(alloc: Global, made: &mut Made, branches: &Branches, next: u32) -> Result<(), NoMemory>
    requires { next + nodes_in (children_of branches.now) + 1 < 2 ^ 32 }
    ensures { Adds result made.old made.new (all_ties next (children_of branches.now)) }
{
    let variables = variables_of(alloc, branches, next + 1)?;
    made.add_pairs((next, false), true, variables.as_slice())?;
    made.add_long((next, true), false, variables.as_slice())
}

// Adds the clauses that tie a `OneOf` node to its branches.
fn tie_one_of(
    alloc: Global,
    made: &mut Made,
    branches: &Branches,
    next: u32,
) -> Result<(), NoMemory>
    requires { next + nodes_in (children_of branches.now) + 1 < 2 ^ 32 }
    ensures { Adds result made.old made.new (one_of_ties next (children_of branches.now)) }
{
    let variables = variables_of(alloc, branches, next + 1)?;
    made.add_long((next, false), true, variables.as_slice())?;
    made.add_pairs((next, true), false, variables.as_slice())
}

// Adds the clauses of each node that isn't a test, in prefix order.
#[cycle(make)]
fn make(alloc: Global, made: &mut Made, formula: &Formula, next: u32) -> Result<(), NoMemory>
    requires { next + nodes (tree_of formula.now) < 2 ^ 32 }
    ensures { Adds result made.old made.new (node_clauses next (tree_of formula.now)) }
{
    match formula {
        Formula::Yes => made.add_one((next, true)),
        Formula::No => made.add_one((next, false)),
        Formula::Test(_) => Ok(()),
        Formula::Not(inner) => {
            tie_not(made, inner, next)?;
            make(alloc, made, inner, next + 1)
        }
        Formula::All(branches) => {
            tie_all(alloc, made, branches, next)?;
            make_in(alloc, made, branches, next + 1)
        }
        Formula::OneOf(branches) => {
            tie_one_of(alloc, made, branches, next)?;
            make_in(alloc, made, branches, next + 1)
        }
    }
}

#[cycle(make)]
fn make_in(alloc: Global, made: &mut Made, branches: &Branches, next: u32) -> Result<(), NoMemory>
    requires { next + nodes_in (children_of branches.now) < 2 ^ 32 }
    ensures { Adds result made.old made.new (node_clauses_in next (children_of branches.now)) }
{
    let mut next = next;
    'branches: for i in 0..branches.len() {
        let Some(branch) = branches.get(i) else {
            break;
        };
        make(alloc, made, branch, next)?;
        next += count(branch) as u32;
    }
    Ok(())
}

/// The clauses of the formula, over the tests from 0 up to `tests`, which come first among the
/// variables. Each node that isn't a test gets the next variable, in prefix order, a shared part anew
/// wherever it stands, and clauses that tie it to its branches, in that order too: a Tseitin encoding.
/// Clause 0 says that the formula holds. Clauses beyond the number 4,294,967,295 aren't made.
/// Where there are more than 4,294,967,295 variables there is no memory for them.
pub fn clauses_of(alloc: Global, formula: &Formula, tests: u32) -> Result<Clauses, NoMemory>
    ensures { IfOk result (λ clauses. clauses ≡ clauses_of tests (tree_of formula.now)) }
{
    if u64::from(tests).saturating_add(count(formula)) > u64::from(u32::MAX) {
        return Err(AllocError);
    }
    let mut made = Made::new(alloc);
    made.add_one((variable_of(formula, tests), true))?;
    make(alloc, &mut made, formula, tests)?;
    made.indexed()
}
