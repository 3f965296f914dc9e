//! For each predicate that is kept those that are maximal strictly below it.
ghost use Rattle.std.specs.Prelude.{◌+◌, ◌<◌, ◌^◌, IfOk, OnOk, length};
ghost use Rattle.strata.specs.Rows.{AreListed, AreMaximalByRows, IsMaximalByRows};

use crate::rows::{Row, is_maximal_below};
use crate::stratum::NumberList;
use plain_lists::{List, NoMemory};
use std::alloc::Global;

// Adds number j where it is maximal strictly below number i.
fn look_at(rows: &[Row], i: usize, j: usize, numbers: &mut NumberList) -> Result<(), NoMemory>
    requires few { length rows.now < 2 ^ 32 }
    requires upper { i < length rows.now }
    requires lower { j < length rows.now }
    requires before { AreListed (IsMaximalByRows rows.now i) j numbers.old }
    ensures { OnOk result (AreListed (IsMaximalByRows rows.now i) (j + 1) numbers.new) }
{
    if !is_maximal_below(rows, j, i) {
        return Ok(());
    }
    numbers.push(j as u32)?;
    Ok(())
}

// The numbers of those that are maximal strictly below number i.
fn covered(alloc: Global, rows: &[Row], i: usize) -> Result<NumberList, NoMemory>
    requires few { length rows.now < 2 ^ 32 }
    requires upper { i < length rows.now }
    ensures { IfOk result (AreListed (IsMaximalByRows rows.now i) (length rows.now)) }
{
    let mut numbers = NumberList::new(alloc);
    for j in 0..rows.len() {
        look_at(rows, i, j, &mut numbers)?;
    }
    Ok(numbers)
}

// These numbers for each number.
pub(crate) fn all_covered(alloc: Global, rows: &[Row]) -> Result<List<NumberList>, NoMemory>
    requires { length rows.now < 2 ^ 32 }
    ensures { IfOk result (AreMaximalByRows rows.now (length rows.now)) }
{
    let mut lists = List::new(alloc);
    for i in 0..rows.len() {
        let numbers = covered(alloc, rows, i)?;
        lists.push(numbers)?;
    }
    Ok(lists)
}
