//! Which texts a pattern matches that was read from a text: laws of the definitions, without a body.
ghost use Rattle.wildcard_lang.specs.Escapes.{SymbolsAreRead};
ghost use Rattle.wildcard_lang.specs.Meanings.{LiteralMatchesItself, FoldedLiteralMatchesEitherCase, LiteralsMatchThemselves, FoldedLiteralsMatchEitherCase, GlobMatchesItsForm, ArnMatchesItsParts};

/// The symbols of a text with escapes are those as which the relation `Reads` reads it.
pub fn symbols_are_read()
    ensures { SymbolsAreRead }
{}

/// A literal pattern matches the plain text that was written, and no other. With folding it matches
/// the texts that are equal once ASCII letters are lowered.
pub fn literal_matches_itself()
    ensures exact { LiteralMatchesItself }
    ensures folded { FoldedLiteralMatchesEitherCase }
    ensures plain { LiteralsMatchThemselves }
    ensures plain_folded { FoldedLiteralsMatchEitherCase }
{}

/// A pattern with wildcards matches exactly the texts that have the form of its symbols.
pub fn glob_matches_its_form()
    ensures { GlobMatchesItsForm }
{}

/// The pattern of an ARN matches exactly the texts whose six parts, cut at the first five colons, have
/// the form of its own.
pub fn arn_matches_its_parts()
    ensures { ArnMatchesItsParts }
{}
