//! Values for one condition key: a list of values that the key's rule permits and that answers what is
//! asked of it, or what shows that there is none.
#![tactic(auto)]

mod answer;
mod ask;
mod few;
mod listed;
mod numbered;
mod one;
mod plain;
mod search;
mod shown;
mod steps;
mod theorems;
mod wants;

pub use answer::KeyAnswer;
pub use ask::{KeyAsk, KeyAsks};
pub use few::few_asks;
pub use plain_lists::NoMemory;
pub use search::solve;
pub use shown::{
    shows_absent, shows_member, shows_points, shows_required, shows_some_member, shows_together,
};
pub use theorems::{
    asks_are_of_members, one_member_each, one_value_or_none, shown_is_right, wants_are_of_members,
};
