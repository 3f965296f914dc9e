//! The predicates that a query names of each dimension, and their order by the valid requests that meet
//! them.
#![tactic(auto)]

mod asking;
mod covers;
mod inclusion;
mod kept;
mod meaning;
mod names;
mod outcome;
mod predicate;
mod rows;
mod search;
mod sharing;
mod stratum;

pub use inclusion::{Inclusion, Within};
pub use meaning::{strata_are_determined, strata_limits};
pub use names::MOST_PREDICATES;
pub use outcome::StrataFault;
pub use predicate::{Predicate, PredicateList, test_of};
pub use search::{strata, strata_of};
pub use stratum::{NumberList, Strata, Stratum};
