//! The answers on a statement.
ghost use Rattle.std.specs.Prelude.{◌≡◌};
ghost use Rattle.idle_answers.specs.UseTexts.{is_idle, is_undecided};

use policy_model::Request;
use run_inputs::Shortage;

/// Whether a set needs one of its statements.
#[derive(Drop)]
pub enum UseAnswer {
    /// A valid request that the set answers otherwise without the statement.
    Used(Request),
    /// Without the statement the set allows the same valid requests.
    Idle,
    /// `Idle`, with the text of its certificate.
    Proved(String),
    /// The search would need more than it may take.
    Undecided(Shortage),
}

/// Whether it says that the statement is idle.
pub(crate) fn is_idle(answer: &UseAnswer) -> bool
    ensures { result ≡ is_idle answer.now }
{
    match answer {
        UseAnswer::Idle => true,
        UseAnswer::Proved(_) => true,
        UseAnswer::Used(_) => false,
        UseAnswer::Undecided(_) => false,
    }
}

/// Whether it says that the search would need more than it may take.
pub(crate) fn is_undecided(answer: &UseAnswer) -> bool
    ensures { result ≡ is_undecided answer.now }
{
    match answer {
        UseAnswer::Undecided(_) => true,
        UseAnswer::Used(_) => false,
        UseAnswer::Idle => false,
        UseAnswer::Proved(_) => false,
    }
}
