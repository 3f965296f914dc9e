//! What the words of a command line ask for. The first word picks the command by its exact text, and
//! one simple `clap` command for each reads the rest.
#![tactic(auto)]

mod asked;
mod dimensions;
mod findings;
mod forms;
mod limits;
mod names;
mod parsing;
mod ranges;
mod reading;
mod uses;

pub use asked::{
    CheckArguments, CheckNewAccessArguments, CheckSummaryArguments, Command, CompareArguments,
    EvalArguments, FileNames, FindingArguments, IdleArguments, NewAccessArguments, ReachArguments,
    SummaryArguments,
};
pub use limits::{
    DEFAULT_FINDINGS, DEFAULT_SPLITS, DEFAULT_STATES, MOST_DIMENSIONS, MOST_FINDINGS, MOST_KEYS,
    MOST_SPLITS, MOST_STATES,
};
pub use plain_lists::NoMemory;
pub use ranges::word_limits;
pub use reading::read_words;
