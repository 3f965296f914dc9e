//! Products of wildcard patterns: for patterns and clauses that say which of them are to match, a text
//! that meets the clauses, or a closed set of product states, which shows that no text does.
#![tactic(auto)]

mod check;
mod eager;
mod found;
mod fronts;
mod joined;
mod last;
mod left;
mod machine;
mod marks;
mod meets;
mod moves;
mod named;
mod names;
mod outcome;
mod places;
mod proposal;
mod quick_moves;
mod search;
mod states;
mod theorems;
mod tree;
mod waiting;
mod wants;
mod words;

pub use check::{is_closed, rises};
pub use eager::text_soon;
pub use last::{LastClosed, product_after};
pub use outcome::Product;
pub use search::product;
pub use states::{Closed, PlaceList, PlaceLists, State};
pub use theorems::{
    closed_sets_are_empty, lists_meet_as_texts, meets_is_tested, scalars_step_as_representatives,
};
pub use wants::{ClauseList, Literal, LiteralList, Wants};
