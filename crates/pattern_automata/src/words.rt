//! Marks packed into words, one bit each.

ghost use Rattle.std.specs.Prelude.{◌≡◌, ◌<◌, ◌≤◌, ◌*◌, ℕ, false, length, slice_index, All, IfOk, IsTrue, OnOk};
ghost use Rattle.pattern_automata.specs.Packed.{mark_before, filled_marks, is_bit_on, pack, word_mark, word_with};
ghost use Rattle.pattern_automata.specs.Steps.{masked_at, moved_at, near_at, AreFilled, AreMoved, ArePatched, AreStepped, AreWords, HaveSize, IsAway};

use crate::moves::{Masks, Patch};
use plain_lists::NoMemory;
use std::alloc::Global;

/// Whether the bit is set.
pub fn is_on(word: u64, bit: usize) -> bool
    requires { bit < 64 }
    ensures { result ≡ is_bit_on word bit }
{
    (word >> bit) & 1 == 1
}

/// Whether the mark is set.
pub fn has_mark(words: &[u64], mark: usize) -> bool
    requires { mark < 64 * length words.now }
    ensures { result ≡ word_mark words.now mark }
{
    is_on(words[mark / 64], mark % 64)
}

/// The word with these bits.
fn word_with(marks: &[bool]) -> u64
    requires { length marks.now ≤ 64 }
    ensures { result ≡ word_with marks.now }
{
    let mut word = 0;
    let mut i = marks.len();
    while i > 0 {
        i -= 1;
        word = word * 2 + u64::from(marks[i]);
    }
    word
}

/// The words with these marks.
pub fn pack(alloc: Global, marks: &[bool]) -> Result<Vec<u64>, NoMemory>
    ensures { IfOk result (λ v. v.items ≡ pack marks.now) }
{
    let mut words = Vec::new(alloc);
    let mut rest = marks;
    for block in 0..marks.len() / 64 {
        let (first, more) = rest.split_at(64);
        words.push(word_with(first))?;
        rest = more;
    }
    words.push(word_with(rest))?;
    Ok(words)
}

/// The word with its bits one place on, and the first bit in their front.
fn shifted(word: u64, first: bool) -> u64
    ensures { (i : ℕ) → i < 64 → is_bit_on result i ≡ mark_before first (is_bit_on word) i }
{
    (word << 1) | u64::from(first)
}

/// The bits that are set, and those that follow a set one and are led to.
fn fill(set: u64, leads: u64, first: bool) -> u64
    ensures { (i : ℕ) → i < 64 →
        is_bit_on result i ≡ filled_marks (is_bit_on set) (is_bit_on leads) first i }
{
    let mut word = set;
    for round in 0..64usize {
        let next = set | (shifted(word, first) & leads);
        if next == word {
            return word;
        }
        word = next;
    }
    word
}

/// What stands before the first bit of the word at an index: the last bit of the word before it.
fn carry(state: &[u64], index: usize) -> bool
    requires { index ≤ length state.now }
    ensures { result ≡ mark_before false (word_mark state.now) (64 * index) }
{
    if index == 0 {
        return false;
    }
    is_on(state[index - 1], 63)
}

/// The word at an index after a step, without what is led to.
fn moved_word(state: &[u64], index: usize, one: u64, stay: u64) -> u64
    requires { index < length state.now }
    ensures { (b : ℕ) → b < 64 → is_bit_on result b ≡ moved_at one stay state.now index b }
{
    (shifted(state[index], carry(state, index)) & one) | (state[index] & stay)
}

/// This word after a step by a character that no piece names.
fn masked_word(state: &[u64], index: usize, masks: &Masks) -> u64
    requires size { HaveSize masks.now (length state.now) }
    requires within { index < length state.now }
    ensures { (b : ℕ) → b < 64 → is_bit_on result b ≡ masked_at masks.now state.now index b }
{
    moved_word(state, index, masks.one[index], masks.many[index])
}

/// The words after a step by a character that no piece names, without what is led to.
fn moved_words(state: &[u64], masks: &Masks, moved: &mut Vec<u64>) -> Result<(), NoMemory>
    requires { HaveSize masks.now (length state.now) }
    ensures { OnOk result (AreMoved masks.now state.now moved.new.items) }
{
    moved.clear();
    for index in 0..state.len() {
        moved.push(masked_word(state, index, masks))?;
    }
    Ok(())
}

/// These words after a step by a character that has these patches.
fn patch_words(state: &[u64], patches: &[Patch], moved: &mut Vec<u64>)
    requires within { All (λ p. p.index < length state.now) patches.now }
    requires count { length moved.old.items ≡ length state.now }
    ensures count { length moved.new.items ≡ length state.now }
    ensures patched { ArePatched state.now patches.now moved.old.items moved.new.items }
{
    for patch in patches {
        moved[patch.index] = moved_word(state, patch.index, patch.one, patch.stay);
    }
}

/// The words with what is led to.
fn fill_words(moved: &[u64], leads: &[u64], words: &mut Vec<u64>) -> Result<(), NoMemory>
    requires { length leads.now ≡ length moved.now }
    ensures count { OnOk result (length words.new.items ≡ length moved.now) }
    ensures small { OnOk result (AreWords words.new.items) }
    ensures marks { OnOk result (AreFilled moved.now leads.now words.new.items) }
{
    words.clear();
    let mut below = false;
    for index in 0..moved.len() {
        let word = fill(moved[index], leads[index], below);
        words.push(word)?;
        below = is_on(word, 63);
    }
    Ok(())
}

/// The marks of the state at an index, and those that follow them.
fn near_word(state: &[u64], index: usize) -> u64
    requires { index < length state.now }
    ensures { (b : ℕ) → b < 64 → is_bit_on result b ≡ near_at state.now index b }
{
    state[index] | shifted(state[index], carry(state, index))
}

/// Whether no mark of the state comes near the bits at which the patch differs from the masks.
fn is_away(state: &[u64], patch: Patch) -> bool
    requires { patch.index < length state.now }
    ensures { IsTrue result → IsAway state.now patch }
{
    near_word(state, patch.index) & patch.differs == 0
}

/// Whether a character with these patches leads from the state where one that no piece names does. Only
/// where it doesn't it is worth a step.
pub fn leads_alike(state: &[u64], patches: &[Patch]) -> bool
    requires { All (λ p. p.index < length state.now) patches.now }
    ensures { IsTrue result → All (IsAway state.now) patches.now }
{
    for patch in patches {
        if !is_away(state, *patch) {
            return false;
        }
    }
    true
}

/// Makes the words those to which a character with these patches leads from the state.
pub fn step_words(
    state: &[u64],
    masks: &Masks,
    patches: &[Patch],
    moved: &mut Vec<u64>,
    words: &mut Vec<u64>,
) -> Result<(), NoMemory>
    requires size { HaveSize masks.now (length state.now) }
    requires within { All (λ p. p.index < length state.now) patches.now }
    ensures count { OnOk result (length words.new.items ≡ length state.now) }
    ensures small { OnOk result (AreWords words.new.items) }
    ensures marks { OnOk result (AreStepped masks.now patches.now state.now words.new.items) }
{
    moved_words(state, masks, moved)?;
    patch_words(state, patches, moved);
    fill_words(moved.as_slice(), masks.many.as_slice(), words)
}
