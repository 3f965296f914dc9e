//! What the written form of a pattern is read as: laws of the definitions, without a body.
ghost use Rattle.wildcard_lang.specs.Limits.{PatternLimits};
ghost use Rattle.wildcard_lang.specs.WrittenAgain.{GlobsAreReadAgain, LiteralsAreReadAgain, ArnsAreReadAgain, ActionsAreReadAgain};
ghost use Rattle.wildcard_lang.specs.WrittenAgain.{GlobsAreFoundWithEscapes, LiteralsAreFoundWithEscapes, ArnsAreFoundWithEscapes};
ghost use Rattle.wildcard_lang.specs.WrittenAgain.{GlobsAreOfTheirPieces, LiteralsAreGlobs, WideArnsAreGlobs};
ghost use Rattle.wildcard_lang.specs.WrittenAgain.{GlobsAreWrittenApart, LiteralsAreWrittenApart, ArnsAreWrittenApart, ActionsAreWrittenApart};

/// A pattern that was read is what its written form is read as, with escapes; the form of an action is
/// read so without escapes.
pub fn patterns_are_read_again()
    ensures globs { GlobsAreReadAgain }
    ensures literals { LiteralsAreReadAgain }
    ensures arns { ArnsAreReadAgain }
    ensures actions { ActionsAreReadAgain }
{}

/// What a reader makes without escapes, it makes of some text with escapes too.
pub fn patterns_are_found_with_escapes()
    ensures globs { GlobsAreFoundWithEscapes }
    ensures literals { LiteralsAreFoundWithEscapes }
    ensures arns { ArnsAreFoundWithEscapes }
{}

/// The patterns with wildcards are all lists of plain characters and of wildcards that take colons. So
/// literal patterns are among them, and those patterns of ARNs in which each wildcard takes colons.
pub fn globs_are_of_their_pieces()
    ensures globs { GlobsAreOfTheirPieces }
    ensures literals { LiteralsAreGlobs }
    ensures arns { WideArnsAreGlobs }
{}

/// Two patterns that one reader made are equal where their written forms are.
pub fn patterns_are_written_apart()
    ensures globs { GlobsAreWrittenApart }
    ensures literals { LiteralsAreWrittenApart }
    ensures arns { ArnsAreWrittenApart }
    ensures actions { ActionsAreWrittenApart }
{}

/// How many pieces a pattern may have.
pub fn pattern_limits()
    ensures { PatternLimits }
{}
