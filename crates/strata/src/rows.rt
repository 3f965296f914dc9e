//! Rows of answers: for each predicate that is kept, how it stands to those before it.
ghost use Rattle.std.specs.Prelude.{◌≡◌, ◌<◌, ◌↔◌, [], IsTrue, false, length, slice_index_or};
ghost use Rattle.strata.specs.Rows.{IsNothingBetween, IsBelowByRows, IsMaximalByRows, below_by_rows, between_by_rows, strictly_by_rows};

use plain_lists::List;
use std::alloc::Global;

// A predicate and those that are kept before it.
#[derive(Drop)]
pub(crate) struct Row {
    // Whether the predicate is below each of them.
    pub(crate) below: List<bool>,
    // Whether each of them is below the predicate.
    pub(crate) above: List<bool>,
}

impl Row {
    pub(crate) fn new(alloc: Global) -> Row
        ensures below { result.below ≡ [] }
        ensures above { result.above ≡ [] }
    {
        Row {
            below: List::new(alloc),
            above: List::new(alloc),
        }
    }
}

// The answer of a number, or no where it isn't there.
fn answer_at(answers: &List<bool>, number: usize) -> bool
    ensures { result ≡ slice_index_or answers.now number false }
{
    match answers.get(number) {
        Some(answer) => *answer,
        None => false,
    }
}

// Whether number j is below number i.
fn is_below(rows: &[Row], j: usize, i: usize) -> bool
    requires lower { j < length rows.now }
    requires upper { i < length rows.now }
    ensures { result ≡ below_by_rows rows.now j i }
{
    if j == i {
        return true;
    }
    if j < i {
        answer_at(&rows[i].above, j)
    } else {
        answer_at(&rows[j].below, i)
    }
}

// Whether both numbers are there and number j is below number i.
pub(crate) fn is_told_below(rows: &[Row], j: usize, i: usize) -> bool
    ensures { IsTrue result ↔ IsBelowByRows rows.now j i }
{
    j < rows.len() && i < rows.len() && is_below(rows, j, i)
}

// Whether number j is strictly below number i.
fn is_strictly_below(rows: &[Row], j: usize, i: usize) -> bool
    requires lower { j < length rows.now }
    requires upper { i < length rows.now }
    ensures { result ≡ strictly_by_rows rows.now j i }
{
    j != i && is_below(rows, j, i)
}

// Whether number k is strictly between number j and number i.
fn is_between(rows: &[Row], j: usize, k: usize, i: usize) -> bool
    requires lower { j < length rows.now }
    requires between { k < length rows.now }
    requires upper { i < length rows.now }
    ensures { result ≡ between_by_rows rows.now j k i }
{
    is_strictly_below(rows, j, k) && is_strictly_below(rows, k, i)
}

// Whether nothing lies strictly between number j and number i.
fn is_nothing_between(rows: &[Row], j: usize, i: usize) -> bool
    requires lower { j < length rows.now }
    requires upper { i < length rows.now }
    ensures { IsTrue result ↔ IsNothingBetween rows.now j i }
{
    for k in 0..rows.len() {
        if is_between(rows, j, k, i) {
            return false;
        }
    }
    true
}

// Whether number j is maximal strictly below number i.
pub(crate) fn is_maximal_below(rows: &[Row], j: usize, i: usize) -> bool
    requires lower { j < length rows.now }
    requires upper { i < length rows.now }
    ensures { IsTrue result ↔ IsMaximalByRows rows.now i j }
{
    is_strictly_below(rows, j, i) && is_nothing_between(rows, j, i)
}
