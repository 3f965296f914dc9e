//! Texts as lists of Unicode scalars.
ghost use Rattle.std.specs.Prelude.{◌≡◌, ◌↔◌, [], IsTrue, length, slice_get, IfOk, string_bytes};
ghost use Rattle.std.specs.Str.{chars, encode_utf8_all};
ghost use Rattle.std.proofs.Common.{rules};
ghost use Rattle.wildcard_lang.specs.Text.{IsText, folded_text};

use plain_lists::{EqualClone, List, NoMemory};
use std::alloc::Global;
use std::marker::Model;

/// A text: a list of Unicode scalars. It keeps its allocator.
#[derive(Drop)]
pub struct Text {
    chars: Vec<char>,
}

impl Model for Text {
    ghost use Rattle.std.specs.Prelude.{List, ℕ};
    ghost use Rattle.wildcard_lang.specs.Text.{IsText};

    ghost Value = { List ℕ };

    ghost view = { λ t. t.chars.items };

    ghost invariant = { λ t. IsText t.chars.items };
}

/// A list of texts.
pub type TextList = List<Text>;

impl Text {
    /// The characters of a string.
    pub fn of(alloc: Global, s: &str) -> Result<Text, NoMemory>
        ensures { IfOk result (λ t. t ≡ chars s.now) }
    {
        let chars: Vec<char> = s.chars().collect(alloc)?;
        Ok(Text { chars })
    }

    /// The text of these characters. It takes no memory.
    pub fn from_chars(chars: Vec<char>) -> Text
        requires { IsText chars.items }
        ensures { result ≡ chars.items }
    {
        Text { chars }
    }

    /// How many characters there are.
    pub fn len(&self) -> usize
        ensures length { result ≡ length self.now }
        ensures text { IsText self.now }
    {
        self.chars.len()
    }

    /// Whether there is no character.
    pub fn is_empty(&self) -> bool
        ensures empty { IsTrue result ↔ (self.now ≡ []) }
        ensures text { IsText self.now }
    {
        self.chars.is_empty()
    }

    /// The characters.
    pub fn as_slice(&self) -> &[char]
        ensures value { result.now ≡ self.now }
        ensures text { IsText self.now }
    {
        self.chars.as_slice()
    }

    /// The character at an index, counted from 0, or none where the text has no such index.
    pub fn get(&self, i: usize) -> Option<char>
        ensures { result ≡ slice_get self.now i }
    {
        self.chars.as_slice().get(i).copied()
    }

    /// An equal text.
    pub fn copy(&self) -> Result<Text, NoMemory>
        ensures { IfOk result (λ t. t ≡ self.now) }
    {
        let chars = self.chars.clone()?;
        Ok(Text { chars })
    }

    /// The text with its ASCII letters lowered. Folded once more it stays as it is.
    pub fn folded(&self) -> Result<Text, NoMemory>
        ensures value { IfOk result (λ t. t ≡ folded_text self.now) }
        ensures folded { IfOk result (λ t. folded_text t ≡ t) }
    {
        let alloc = *self.chars.allocator();
        let chars: Vec<char> = self
            .chars
            .iter()
            .map(|c| c.to_ascii_lowercase())
            .collect(alloc)?;
        Ok(Text { chars })
    }

    /// The text's UTF-8 form (RFC 3629).
    pub fn to_utf8(&self) -> Result<String, NoMemory>
        ensures { IfOk result (λ s. string_bytes s ≡ encode_utf8_all self.now) }
    {
        let text: String = self.chars.iter().copied().collect(*self.chars.allocator())?;
        Ok(text)
    }
}

impl Clone for Text {
    ghost is_clone = { λ t u. u ≡ t };

    fn clone(&self) -> Result<Text, NoMemory> {
        self.copy()
    }
}

impl EqualClone for Text {
    ghost clones_are_equal = { Prim.search rules };
}
