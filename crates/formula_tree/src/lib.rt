//! Formulas over numbered tests, paths of answered tests, and the value of a formula under a path.
#![tactic(auto)]

mod formula;
mod looks;
mod path;
mod runs;
mod value;

pub use formula::{Branches, Formula};
pub use looks::{Look, look_of_both, look_of_either, look_of_not, look_of_test, pick_in, value_in};
pub use path::Path;
pub use plain_lists::NoMemory;
pub use runs::{
    Extensible, Possible, few_tests_need_few_splits, paths_have_runs, runs_are_bounded,
    runs_are_determined, runs_end_where_met, runs_miss_none, unmet_stays_unmet,
};
pub use value::{Three, longer_paths_keep_values, pick, value3, values_hold_for_completions};
