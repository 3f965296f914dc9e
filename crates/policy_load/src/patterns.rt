//! The patterns of plain texts, which hold no policy variable and aren't too long.
ghost use Rattle.std.specs.Prelude.{◌≡◌, ◌≤◌, chars, false, length, IfOk};
ghost use Rattle.wildcard_lang.specs.Reading.{literals, wildcards};
ghost use Rattle.wildcard_lang.specs.declared.pattern.TheConstants.{MOST_PIECES};

use plain_lists::NoMemory;
use std::alloc::{AllocError, Global};
use wildcard_lang::{Pattern, PatternFault, read_glob, read_literal};

/// The pattern of the text in which `*` and `?` are wildcards, with `fold` in any case of its ASCII letters.
pub(crate) fn glob(alloc: Global, text: &str, fold: bool) -> Result<Pattern, NoMemory>
    requires { length (chars text.now) ≤ MOST_PIECES }
    ensures { IfOk result (λ pattern. pattern ≡ wildcards fold (chars text.now)) }
{
    match read_glob(alloc, text, fold, false) {
        Ok(pattern) => Ok(pattern),
        Err(PatternFault::NoMemory) => Err(AllocError),
        Err(_) => unreachable!(),
    }
}

/// The pattern that takes the text alone.
pub(crate) fn literal(alloc: Global, text: &str) -> Result<Pattern, NoMemory>
    requires { length (chars text.now) ≤ MOST_PIECES }
    ensures { IfOk result (λ pattern. pattern ≡ literals false (chars text.now)) }
{
    match read_literal(alloc, text, false, false) {
        Ok(pattern) => Ok(pattern),
        Err(PatternFault::NoMemory) => Err(AllocError),
        Err(_) => unreachable!(),
    }
}
