//! Answers, and how many of them there are.
use std::fmt;

/// The two answers to whether a condition holds of a request.
#[derive(Clone, Copy)]
pub(crate) struct Answers {
    /// By the definition.
    pub(crate) defined: bool,
    /// By evaluation.
    pub(crate) evaluated: bool,
}

impl Answers {
    pub(crate) fn agree(&self) -> bool {
        self.evaluated == self.defined
    }
}

/// How many pairs of a condition and a request were tried, how many of the conditions hold by the
/// definition, and on how many pairs the answers differ.
#[derive(Clone, Copy)]
pub(crate) struct Tally {
    tried: u64,
    hold: u64,
    differ: u64,
}

impl Tally {
    pub(crate) const NONE: Tally = Tally {
        tried: 0,
        hold: 0,
        differ: 0,
    };

    /// That of one pair.
    pub(crate) fn of(answers: &Answers) -> Tally {
        Tally {
            tried: 1,
            hold: u64::from(answers.defined),
            differ: u64::from(!answers.agree()),
        }
    }

    pub(crate) fn add(&mut self, other: Tally) {
        self.tried = self.tried.saturating_add(other.tried);
        self.hold = self.hold.saturating_add(other.hold);
        self.differ = self.differ.saturating_add(other.differ);
    }
}

impl fmt::Display for Tally {
    fn fmt<W: fmt::Write>(&self, f: &mut fmt::Formatter<W>) -> fmt::Result {
        let (tried, hold, differ) = (self.tried, self.hold, self.differ);
        write!(f, "{tried} tried, {hold} hold, {differ} differ")
    }
}
