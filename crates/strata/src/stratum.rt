//! The predicates of each dimension and their order.
ghost use Rattle.std.specs.Prelude.{◌≡◌, length, slice_get};
ghost use Rattle.std.specs.Option.{option_copied};
ghost use Rattle.strata.specs.Dimensions.{below_in, predicates_in, slot_in};
ghost use Rattle.strata.specs.Strata.{AnswersOrderIn, AnswersOrderOf};

use crate::predicate::{Predicate, PredicateList};
use crate::rows::{Row, is_told_below};
use plain_lists::List;
use policy_model::Slot;

/// A list of numbers of predicates.
pub type NumberList = List<u32>;

/// The predicates of one dimension, numbered from 0, and their order.
#[derive(Drop)]
pub struct Stratum {
    pub slot: Slot,
    /// The predicates in the order of their numbers. The first is `Every`.
    pub predicates: PredicateList,
    /// For each predicate the numbers of those that are maximal strictly below it, in rising order.
    pub below: List<NumberList>,
    // For each predicate how it stands to those before it.
    pub(crate) rows: List<Row>,
}

impl Stratum {
    /// Whether every valid request that meets the predicate of the one number meets that of the other. It
    /// is false where one of the numbers isn't there.
    pub fn is_below(&self, one: usize, other: usize) -> bool
        ensures { AnswersOrderOf self.now one other result }
    {
        is_told_below(self.rows.as_slice(), one, other)
    }
}

/// The predicates of each dimension and their order.
#[derive(Drop)]
pub struct Strata {
    pub dimensions: List<Stratum>,
}

impl Strata {
    /// The slot of a dimension, or none where there is no such dimension.
    pub fn slot(&self, d: usize) -> Option<&Slot>
        ensures { option_copied result ≡ slot_in self.now d }
    {
        match self.dimensions.get(d) {
            Some(stratum) => Some(&stratum.slot),
            None => None,
        }
    }

    /// How many predicates a dimension has. It is 0 where there is no such dimension.
    pub fn count(&self, d: usize) -> usize
        ensures { result ≡ length (predicates_in self.now d) }
    {
        match self.dimensions.get(d) {
            Some(stratum) => stratum.predicates.len(),
            None => 0,
        }
    }

    /// The predicate of a number, or none where the dimension or the number isn't there.
    pub fn predicate(&self, d: usize, n: u32) -> Option<&Predicate>
        ensures { option_copied result ≡ slice_get (predicates_in self.now d) n }
    {
        match self.dimensions.get(d) {
            Some(stratum) => stratum.predicates.get(n as usize),
            None => None,
        }
    }

    /// The numbers of those that are maximal strictly below the predicate of a number, in rising order,
    /// or none where the dimension or the number isn't there.
    pub fn below(&self, d: usize, n: u32) -> Option<&NumberList>
        ensures { option_copied result ≡ slice_get (below_in self.now d) n }
    {
        match self.dimensions.get(d) {
            Some(stratum) => stratum.below.get(n as usize),
            None => None,
        }
    }

    /// Whether every valid request that meets the predicate of the one number meets that of the other, both
    /// in one dimension. It is false where the dimension or one of the numbers isn't there.
    pub fn is_below(&self, dimension: usize, one: usize, other: usize) -> bool
        ensures { AnswersOrderIn self.now dimension one other result }
    {
        match self.dimensions.get(dimension) {
            Some(stratum) => stratum.is_below(one, other),
            None => false,
        }
    }
}
