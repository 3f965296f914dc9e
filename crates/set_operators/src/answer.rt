//! What a search for the values of a key answers.
use pattern_automata::Closed;
use policy_model::ValueList;
use wildcard_lang::TextList;

/// Values of a key, or why there are none that answer what is asked.
#[derive(Drop)]
pub enum KeyAnswer {
    /// Values that the rule permits and that answer each ask as is wanted. The empty list stands for
    /// an absent key.
    Found(ValueList),
    /// The key is to be absent, and another ask is wanted yes.
    Absent,
    /// The key is to be absent, and it is required.
    Required,
    /// No values answer so; the key's values aren't texts.
    Points,
    /// No text answers all asks, of a text key with at most one value that needs it: a closed set of
    /// product states for the patterns of all asks and of the rule.
    Together(Closed),
    /// No text can be the value for the ask of this number, which is wanted yes, of a text key with
    /// several values: a closed set for the patterns of that ask, of those that are wanted no, and of
    /// the rule.
    Member(u32, Closed),
    /// No text can be a value, of a required text key with several values: a closed set for the
    /// patterns of the asks that are wanted no, and of the rule.
    SomeMember(Closed),
    /// One more text than the number of states, with pairwise different product states.
    TooMany(TextList),
}
