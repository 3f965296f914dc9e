//! The steps of a search for values.
ghost use Rattle.std.specs.Prelude.{◌≡◌};
ghost use Rattle.set_operators.specs.Steps.{is_chosen};

use pattern_automata::Closed;
use policy_model::Value;
use wildcard_lang::TextList;

/// Which asks one member has to meet.
#[derive(Clone, Copy)]
pub enum Choice {
    /// Each: the key has at most one value.
    Each,
    /// Those that are wanted no: a member that is only there because the key is required.
    Denied,
    /// Those that are wanted no, and this one.
    DeniedAnd(usize),
}

/// What a search for one value comes to.
#[derive(Drop)]
pub enum One {
    Found(Value),
    /// No text: a closed set.
    Closed(Closed),
    /// No value of another kind.
    Nothing,
    /// One more text than the number of states.
    TooMany(TextList),
}

/// Whether the ask at the index, with this answer, is among the chosen ones.
pub fn is_chosen(choice: Choice, index: usize, answer: bool) -> bool
    ensures { result ≡ is_chosen choice index answer }
{
    match choice {
        Choice::Each => true,
        Choice::Denied => !answer,
        Choice::DeniedAnd(named) => index == named || !answer,
    }
}
