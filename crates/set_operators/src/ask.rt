//! What is asked of the values of a key.
ghost use Rattle.std.specs.Prelude.{◌≡◌, ◌↔◌, IsTrue, false};
ghost use Rattle.set_operators.specs.declared.ask.KeyAsk.TheVariants.{Present};
ghost use Rattle.set_operators.specs.Members.{SomeIsWanted};
ghost use Rattle.set_operators.specs.Shown.{AbsentIsWanted};

use plain_lists::List;
use policy_model::{Cond, CondList};

/// A question on the values of a key. An absent key has none.
#[derive(Drop)]
pub enum KeyAsk {
    /// Whether there is a value.
    Present,
    /// Whether some value meets the condition.
    SomeMeets(Cond),
    /// Whether some value meets none of the conditions. Of an empty list that is whether there is a
    /// value.
    SomeMeetsNone(CondList),
}

/// Questions on the values of one key, each with the answer that is wanted.
pub type KeyAsks = List<(KeyAsk, bool)>;

// Whether the ask with its answer says that the key is to be absent.
fn is_absence(asked: &(KeyAsk, bool)) -> bool
    ensures { IsTrue result ↔ (asked.now ≡ (Present, false)) }
{
    match asked.0 {
        KeyAsk::Present => !asked.1,
        _ => false,
    }
}

/// Whether it is asked that the key be absent.
pub fn wants_absent(asks: &[(KeyAsk, bool)]) -> bool
    ensures { IsTrue result ↔ AbsentIsWanted asks.now }
{
    asks.iter().any(|asked| is_absence(asked))
}

/// Whether some ask is wanted yes.
pub fn wants_some(asks: &[(KeyAsk, bool)]) -> bool
    ensures { IsTrue result ↔ SomeIsWanted asks.now }
{
    asks.iter().any(|asked| asked.1)
}
