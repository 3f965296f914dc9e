//! Lists of at most two numbers.
use std::alloc::{AllocError, Global};

fn list_of(alloc: Global, numbers: &[usize]) -> Result<Vec<usize>, AllocError> {
    Vec::from_slice(alloc, numbers)
}

fn add_ones(alloc: Global, count: usize, lists: &mut Vec<Vec<usize>>) -> Result<(), AllocError> {
    for one in 0..count {
        lists.push(list_of(alloc, &[one])?)?;
    }
    Ok(())
}

fn add_twos(
    alloc: Global,
    one: usize,
    count: usize,
    lists: &mut Vec<Vec<usize>>,
) -> Result<(), AllocError> {
    for other in 0..count {
        lists.push(list_of(alloc, &[one, other])?)?;
    }
    Ok(())
}

/// The lists of numbers below `count`: the empty one, those of one, and with `two` those of two, the same
/// one twice among them.
pub(crate) fn short_lists(
    alloc: Global,
    count: usize,
    two: bool,
) -> Result<Vec<Vec<usize>>, AllocError> {
    let mut lists = Vec::new(alloc);
    lists.push(list_of(alloc, &[])?)?;
    add_ones(alloc, count, &mut lists)?;
    let firsts = if two { count } else { 0 };
    for one in 0..firsts {
        add_twos(alloc, one, count, &mut lists)?;
    }
    Ok(lists)
}
