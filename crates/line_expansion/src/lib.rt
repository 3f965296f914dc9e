//! Lines in which a text that stands many times is written once.
#![tactic(auto)]

ghost use Rattle.std.specs.Prelude.{IfOk, string_bytes};
ghost use Rattle.line_expansion.specs.Expansion.{IsRepeated, ExpandsTo};

use std::alloc::Global;
use std::io;
use std::io::ErrorKind;

// The N times TEXT of `N|TEXT`.
fn repeated(alloc: Global, group: &str) -> io::Result<String>
    ensures { IfOk result (λ s. IsRepeated group.now (string_bytes s)) }
{
    let Some((number, text)) = group.split_once('|') else {
        return Err(ErrorKind::InvalidData.into());
    };
    let Ok(times) = number.parse::<usize>() else {
        return Err(ErrorKind::InvalidData.into());
    };
    Ok(text.repeat(alloc, times)?)
}

/// The text that a line stands for: in it `⟦N|TEXT⟧` stands for N times TEXT.
pub fn expand(alloc: Global, line: &str) -> io::Result<String>
    ensures { IfOk result (λ s. ExpandsTo line.now (string_bytes s)) }
{
    let mut file = String::new(alloc);
    let mut rest = line;
    while let Some((before, opened)) = rest.split_once('⟦') {
        let Some((group, after)) = opened.split_once('⟧') else {
            return Err(ErrorKind::InvalidData.into());
        };
        file.push_str(before)?;
        file.push_str(repeated(alloc, group)?.as_str())?;
        rest = after;
    }
    file.push_str(rest)?;
    Ok(file)
}
