//! The tree of a search, and the texts that it spells.
ghost use Rattle.std.specs.Prelude.{◌≡◌, ◌+◌, ◌<◌, ℕ, [], length, slice_index_or, IfOk};
ghost use Rattle.pattern_automata.specs.Tree.{IsRooted, Spells};
ghost use Rattle.pattern_automata.specs.Answer.{SpellEach};

use plain_lists::NoMemory;
use std::alloc::Global;
use wildcard_lang::{Text, TextList};

/// From which product state, and by which character, one was found.
#[derive(Clone, Copy)]
pub struct Parent {
    pub state: usize,
    pub character: char,
}

/// What a turn comes to.
#[derive(Clone, Copy)]
pub enum Step {
    /// The search goes on.
    Left,
    /// The last product state meets the clauses.
    Met,
    /// There is one product state more than the limit.
    Full,
}

/// The text that leads to the product state at i.
pub fn text_of(alloc: Global, parents: &[Parent], i: usize) -> Result<Text, NoMemory>
    requires rooted { IsRooted parents.now }
    requires within { i < length parents.now }
    ensures { IfOk result (λ t. Spells parents.now i t) }
{
    let mut chars = Vec::new(alloc);
    let mut at = i;
    while at > 0 {
        let parent = parents[at];
        chars.push(parent.character)?;
        at = parent.state;
    }
    chars.reverse();
    Ok(Text::from_chars(chars))
}

/// The text of each product state.
pub fn texts_of(alloc: Global, parents: &[Parent]) -> Result<TextList, NoMemory>
    requires { IsRooted parents.now }
    ensures count { IfOk result (λ ts. length ts ≡ length parents.now) }
    ensures each { IfOk result (SpellEach parents.now) }
{
    let mut texts = TextList::new(alloc);
    for i in 0..parents.len() {
        texts.push(text_of(alloc, parents, i)?)?;
    }
    Ok(texts)
}
