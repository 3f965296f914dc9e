//! Trees and answers of a line. A tree is words in which a node stands behind its branches: a number
//! is a test, `yes` and `no` are themselves, `!` is that the tree before it doesn't hold, `&2` that the last two
//! trees hold, `|2` that one of them does, and `=` is the last tree once more, shared.
use formula_tree::{Branches, Formula, Path};
use std::alloc::Global;
use std::io;
use std::io::ErrorKind;
use std::rc::Rc;

/// That a line isn't of its form.
fn bad_line() -> io::Error {
    ErrorKind::InvalidData.into()
}

pub(crate) fn number_of(word: &str) -> io::Result<u32> {
    match word.parse::<u32>() {
        Ok(number) => Ok(number),
        Err(_) => Err(bad_line()),
    }
}

/// Adds trees to a list, in their order.
fn add_branches(list: &mut Branches, trees: &[Rc<Formula>]) -> io::Result<()> {
    for tree in trees {
        list.push(tree.clone()?)?;
    }
    Ok(())
}

fn branches_of(alloc: Global, trees: &[Rc<Formula>]) -> io::Result<Branches> {
    let mut list = Branches::new(alloc);
    add_branches(&mut list, trees)?;
    Ok(list)
}

/// Takes the last so many trees, in their order.
fn taken(alloc: Global, trees: &mut Vec<Rc<Formula>>, count: &str) -> io::Result<Branches> {
    let from = trees.len().saturating_sub(number_of(count)? as usize);
    let list = branches_of(alloc, &trees.as_slice()[from..])?;
    trees.truncate(from);
    Ok(list)
}

/// The node of a word over the trees before it.
fn node(alloc: Global, trees: &mut Vec<Rc<Formula>>, word: &str) -> io::Result<Formula> {
    if let Some(count) = word.strip_prefix('&') {
        return Ok(Formula::All(taken(alloc, trees, count)?));
    }
    if let Some(count) = word.strip_prefix('|') {
        return Ok(Formula::OneOf(taken(alloc, trees, count)?));
    }
    match word {
        "yes" => Ok(Formula::Yes),
        "no" => Ok(Formula::No),
        "!" => match trees.pop() {
            Some(inner) => Ok(Formula::Not(inner)),
            None => Err(bad_line()),
        },
        _ => Ok(Formula::Test(number_of(word)?)),
    }
}

fn repeat_last(trees: &mut Vec<Rc<Formula>>) -> io::Result<()> {
    let last = match trees.last() {
        Some(last) => last.clone()?,
        None => return Err(bad_line()),
    };
    trees.push(last)?;
    Ok(())
}

fn add_word(alloc: Global, trees: &mut Vec<Rc<Formula>>, word: &str) -> io::Result<()> {
    if word == "=" {
        return repeat_last(trees);
    }
    let made = Rc::new(alloc, node(alloc, trees, word)?)?;
    trees.push(made)?;
    Ok(())
}

/// The last tree of the words.
pub(crate) fn tree_of(alloc: Global, words: &str) -> io::Result<Rc<Formula>> {
    let mut trees = Vec::new(alloc);
    for word in words.split_whitespace() {
        add_word(alloc, &mut trees, word)?;
    }
    match trees.pop() {
        Some(tree) => Ok(tree),
        None => Err(bad_line()),
    }
}

fn answer_of(word: &str) -> io::Result<(u32, bool)> {
    if let Some(test) = word.strip_prefix('+') {
        return Ok((number_of(test)?, true));
    }
    if let Some(test) = word.strip_prefix('-') {
        return Ok((number_of(test)?, false));
    }
    Err(bad_line())
}

fn add_answer(path: &mut Path, word: &str) -> io::Result<()> {
    let (test, answer) = answer_of(word)?;
    if path.answer(test).is_some() {
        return Err(bad_line());
    }
    path.push(test, answer)?;
    Ok(())
}

/// The path that gives these answers.
pub(crate) fn answers_of(alloc: Global, words: &str) -> io::Result<Path> {
    let mut path = Path::new(alloc);
    for word in words.split_whitespace() {
        add_answer(&mut path, word)?;
    }
    Ok(path)
}
