//! What trees of tests are under answers, and their clauses.
use crate::tree_words::{answers_of, number_of, tree_of};
use cnf_clauses::{Clauses, Hints, clauses_of, conflict, replay};
use formula_tree::{Formula, Path, pick, value3};
use line_expansion::expand;
use std::alloc::Global;
use std::io;

fn replayed_word(
    alloc: Global,
    clauses: &Clauses,
    path: &Path,
    hints: &Hints,
) -> io::Result<&'static str> {
    if replay(alloc, clauses, path, hints)? {
        Ok("replays")
    } else {
        Ok("doesn't replay")
    }
}

fn conflict_word(alloc: Global, clauses: &Clauses, path: &Path) -> io::Result<&'static str> {
    match conflict(alloc, clauses, path)? {
        Some(hints) => replayed_word(alloc, clauses, path, &hints),
        None => Ok("no conflict"),
    }
}

fn push_looked(line: &mut String, tree: &Formula, path: &Path, conflict: &str) -> io::Result<()> {
    let value = value3(tree, path);
    match pick(tree, path) {
        Some(test) => write!(line, "{value:?} {test}, {conflict}")?,
        None => write!(line, "{value:?}, {conflict}")?,
    }
    Ok(())
}

// Adds the tree's value, the test that it waits for, and whether its clauses conflict.
fn push_under(
    alloc: Global,
    line: &mut String,
    tree: &Formula,
    clauses: &Clauses,
    path: &Path,
) -> io::Result<()> {
    let conflict = conflict_word(alloc, clauses, path)?;
    push_looked(line, tree, path, conflict)
}

fn push_clause(line: &mut String, literals: &[(u32, bool)]) -> io::Result<()> {
    for (i, (variable, value)) in literals.iter().enumerate() {
        let before = if i == 0 { "" } else { " " };
        let sign = if *value { "+" } else { "-" };
        write!(line, "{before}{sign}{variable}")?;
    }
    Ok(())
}

fn push_clauses(line: &mut String, clauses: &Clauses) -> io::Result<()> {
    for number in 0..clauses.len() {
        if number > 0 {
            line.push_str(", ")?;
        }
        push_clause(line, clauses.get(number).unwrap_or(&[]))?;
    }
    Ok(())
}

/// The field at an index of a line, or the empty text behind the last one.
fn field(line: &str, i: usize) -> &str {
    line.split('\t').nth(i).unwrap_or("")
}

fn push_of_clauses(
    alloc: Global,
    line: &mut String,
    tree: &Formula,
    clauses: &Clauses,
    asked: &str,
    answered: bool,
) -> io::Result<()> {
    if answered {
        push_under(
            alloc,
            line,
            tree,
            clauses,
            &answers_of(alloc, field(asked, 2))?,
        )
    } else {
        push_clauses(line, clauses)
    }
}

fn push_of_tree(
    alloc: Global,
    line: &mut String,
    tree: &Formula,
    asked: &str,
    answered: bool,
) -> io::Result<()> {
    let clauses = clauses_of(alloc, tree, number_of(field(asked, 1))?)?;
    push_of_clauses(alloc, line, tree, &clauses, asked, answered)
}

fn push_asked(alloc: Global, line: &mut String, asked: &str, answered: bool) -> io::Result<()> {
    let tree = tree_of(alloc, field(asked, 0))?;
    push_of_tree(alloc, line, &tree, asked, answered)
}

/// The answer to `TREE TESTS ANSWERS`, or to `TREE TESTS`, where none are asked for.
pub(crate) fn tree_answer(alloc: Global, asked: &str, answered: bool) -> io::Result<String> {
    let asked = expand(alloc, asked)?;
    let mut line = String::new(alloc);
    push_asked(alloc, &mut line, asked.as_str(), answered)?;
    Ok(line)
}
