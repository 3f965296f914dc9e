//! Which parts of the tree of a set are one formula.
use crate::sets::set_read;
use formula_tree::Formula;
use policy_compile::{QueryFault, set_query};
use policy_model::{PolicySet, Schema};
use std::alloc::Global;
use std::io;
use std::io::{ErrorKind, Write};
use std::rc::Rc;

fn tree_under(alloc: Global, schema: &Schema, set: &PolicySet) -> io::Result<Rc<Formula>> {
    match set_query(alloc, schema, set) {
        Ok(query) => Ok(query.formula),
        Err(QueryFault::NoMemory) => Err(ErrorKind::OutOfMemory.into()),
        Err(_) => Err(ErrorKind::InvalidData.into()),
    }
}

/// The tree of the set of a file, which has no conditions on keys of other kinds than texts.
fn tree_of_file(alloc: Global, file: &str) -> io::Result<Rc<Formula>> {
    let set = set_read(alloc, file)?;
    tree_under(alloc, &Schema::new(alloc), &set)
}

/// The branch at an index, or what a negation is of.
fn branch(formula: &Rc<Formula>, i: usize) -> Option<&Rc<Formula>> {
    match &**formula {
        Formula::All(branches) => branches.get(i),
        Formula::OneOf(branches) => branches.get(i),
        Formula::Not(inner) => Some(inner),
        _ => None,
    }
}

/// The part at a place: a way from the root by the numbers of branches, as `0.2`.
fn part_at<'a>(tree: &'a Rc<Formula>, place: &str) -> Option<&'a Rc<Formula>> {
    let mut part = tree;
    for number in place.split('.') {
        let Ok(i) = number.parse::<usize>() else {
            return None;
        };
        part = branch(part, i)?;
    }
    Some(part)
}

/// Whether the parts at two places `PLACE=PLACE` are one formula.
fn are_one(tree: &Rc<Formula>, places: &str) -> io::Result<bool> {
    let (first, second) = places.split_once('=').unwrap_or((places, ""));
    match (part_at(tree, first), part_at(tree, second)) {
        (Some(first), Some(second)) => Ok(Rc::ptr_eq(first, second)),
        _ => Err(ErrorKind::InvalidData.into()),
    }
}

fn print_letter(out: &mut impl Write, tree: &Rc<Formula>, places: &str) -> io::Result<()> {
    let shared = are_one(tree, places)?;
    out.write_all(if shared { b"y" } else { b"n" })
}

fn print_letters(out: &mut impl Write, tree: &Rc<Formula>, pairs: &str) -> io::Result<()> {
    out.write_all(b"shared: ")?;
    for places in pairs.split(';') {
        print_letter(out, tree, places)?;
    }
    out.write_all(b"\n")
}

/// Prints a letter for each pair of places of a line, behind the set's file: `y` where the parts there are
/// one formula.
pub(crate) fn print_sharing(alloc: Global, out: &mut impl Write, line: &str) -> io::Result<()> {
    let (file, pairs) = line.split_once('|').unwrap_or((line, ""));
    print_letters(out, &tree_of_file(alloc, file)?, pairs)
}
