//! Questions on one set of policies: which of its statements matter to what it allows.
#![tactic(auto)]

mod asking;
mod changes;
mod cutting;
mod excluding;
mod meaning;
mod names;
mod numbering;
mod outcome;
mod removal;
mod settling;

pub use asking::{change_query, use_of, uses};
pub use changes::Changes;
pub use meaning::{
    change_queries_tell, changes_ask_as_the_set, last_allows_of_guards, twins_are_idle,
    without_stays_sound, without_takes_one,
};
pub use names::{NameList, is_allow, named_statement, names_of};
pub use outcome::{Use, UseFault, UseList};
pub use removal::without;
pub use settling::{Settle, Settled};
