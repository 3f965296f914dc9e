//! The pieces of a pattern.
ghost use Rattle.std.specs.Prelude.{◌≡◌};

/// One piece of a pattern.
#[derive(Clone, Copy, PartialEq, Eq, Hash)]
pub enum Piece {
    /// Takes this character.
    Lit(char),
    /// Takes this lower-case ASCII letter or its capital.
    LitFold(char),
    /// Takes any one character.
    One,
    /// Takes any number of characters, none included.
    Many,
    /// Takes any one character but the colon.
    OneNoColon,
    /// Takes any number of characters, none included, and no colon.
    ManyNoColon,
}

impl Piece {
    ghost use Rattle.wildcard_lang.specs.Matching.{is_many, takes};

    /// Whether the piece takes any number of characters.
    pub fn is_many(self) -> bool
        ensures { result ≡ is_many self }
    {
        match self {
            Piece::Many | Piece::ManyNoColon => true,
            _ => false,
        }
    }

    /// Whether the piece takes the character.
    pub fn takes(self, c: char) -> bool
        ensures { result ≡ takes self c }
    {
        match self {
            Piece::Lit(own) => c == own,
            Piece::LitFold(own) => c == own || c == own.to_ascii_uppercase(),
            Piece::One | Piece::Many => true,
            Piece::OneNoColon | Piece::ManyNoColon => c != ':',
        }
    }
}
