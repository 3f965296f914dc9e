//! Certificates whose splits and labels nest deep.
use std::alloc::Global;
use std::io;

fn push_set(set: &mut String, count: u32) -> io::Result<()> {
    set.push_str("{\"Statement\":{\"Effect\":\"Allow\",\"Action\":[")?;
    for before in 0..count {
        let comma = if before > 0 { "," } else { "" };
        let number = before + 1;
        write!(set, "{comma}\"a{number}\"")?;
    }
    set.push_str("],\"Resource\":\"*\"}}")?;
    Ok(())
}

/// A set with one statement, which allows so many actions, `a1`, `a2` and so on, on each resource.
pub fn set_of_actions(alloc: Global, count: u32) -> io::Result<String> {
    let mut set = String::new(alloc);
    push_set(&mut set, count)?;
    Ok(set)
}

/// Puts a label of this number behind a text, with the answer no to each test before that of the number.
fn push_label(text: &mut String, number: u32) -> io::Result<()> {
    write!(text, "label {number}")?;
    for test in 0..number {
        write!(text, " -{test}")?;
    }
    text.push_str("\n")?;
    Ok(())
}

fn push_split(text: &mut String, count: u32, test: u32, labels: bool) -> io::Result<()> {
    if labels {
        push_label(text, test)?;
    }
    write!(text, "split {test}\nsplit {count}\nvalue\nvalue\n")?;
    Ok(())
}

fn push_chain(text: &mut String, count: u32, labels: bool) -> io::Result<()> {
    text.push_str("certificate 1\n")?;
    for test in 0..count {
        push_split(text, count, test, labels)?;
    }
    text.push_str("value\n")?;
    Ok(())
}

/// A certificate that the set covers itself: it splits on each action in turn, and on the resource where
/// the action is answered yes. With labels each split but those on the resource stands in a label of its
/// own.
pub fn chain_of_splits(alloc: Global, count: u32, labels: bool) -> io::Result<String> {
    let mut text = String::new(alloc);
    push_chain(&mut text, count, labels)?;
    Ok(text)
}
