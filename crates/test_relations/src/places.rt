//! Where the values of a list stand. Nothing rests on it: the value at a place that is proposed is compared.

use indexmap::IndexMap;
use plain_lists::NoMemory;
use policy_model::{Cond, CondList, Test, TestList};
use std::alloc::Global;

// A list of fewer values is gone through.
const FEWEST_VALUES: usize = 16;

/// A place of each value of a list.
#[derive(Drop)]
pub(crate) struct Places<'a> {
    places: IndexMap<&'a Cond, usize>,
}

impl<'a> Places<'a> {
    fn of(alloc: Global, values: &'a CondList) -> Result<Places<'a>, NoMemory> {
        let mut places = IndexMap::new(alloc);
        'values: for place in 0..values.len() {
            let Some(value) = values.get(place) else {
                break;
            };
            places.insert(value, place)?;
        }
        Ok(Places { places })
    }

    /// Where an equal value may stand.
    pub(crate) fn proposed(&self, value: &Cond) -> Option<usize> {
        self.places.get(&value).copied()
    }
}

// The places of the values of the test's list, if it is a long one.
fn places_of<'a>(alloc: Global, test: &'a Test) -> Result<Option<Places<'a>>, NoMemory> {
    let Test::SomeMeetsNone(_, values) = test else {
        return Ok(None);
    };
    if values.len() < FEWEST_VALUES {
        return Ok(None);
    }
    Ok(Some(Places::of(alloc, values)?))
}

/// By test the places of the values of its list, if it is a long one.
pub(crate) fn places_in<'a>(
    alloc: Global,
    tests: &'a TestList,
) -> Result<Vec<Option<Places<'a>>>, NoMemory> {
    let mut places = Vec::new(alloc);
    'tests: for test in tests.as_slice() {
        places.push(places_of(alloc, test)?)?;
    }
    Ok(places)
}
