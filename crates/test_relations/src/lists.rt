//! Lists of what is asked of a value.
ghost use Rattle.std.specs.Prelude.{IsTrue};
ghost use Rattle.test_relations.specs.Parts.{CondExcludesEach, CondLeadsToSome, EachLeadsToSome};

use crate::conds::{cond_excludes, cond_leads};
use crate::places::Places;
use policy_model::{Cond, CondList};

// How often an item of the one list is compared with one of the other, besides where an equal one stands.
const MOST_COMPARED: usize = 16_384;

/// Whether no value that meets it meets some of the list.
pub(crate) fn excludes_each(one: &Cond, others: &CondList) -> bool
    ensures { IsTrue result → CondExcludesEach one.now others.now }
{
    'others: for other in others.as_slice() {
        if !cond_excludes(one, other) {
            return false;
        }
    }
    true
}

// Where in a list to look next, and how often still. Lists of two versions of a policy have one order mostly,
// so each item is looked for behind the one that was found before.
#[derive(Drop)]
struct Walk {
    place: usize,
    left: usize,
}

impl Walk {
    // Looks next where an equal item stands, if that is known.
    fn turn_to(&mut self, one: &Cond, places: Option<&Places<'_>>) {
        let Some(known) = places else {
            return;
        };
        if let Some(place) = known.proposed(one) {
            self.place = place;
            self.left = self.left.saturating_add(1);
        }
    }

    // The next place of a list with so many items, or one past its end where none is to be looked at.
    fn next(&mut self, count: usize) -> usize {
        if self.left == 0 {
            return count;
        }
        self.left -= 1;
        let place = if self.place < count { self.place } else { 0 };
        self.place = place.saturating_add(1);
        place
    }

    // Whether each value that meets it meets one of the list, looked for from the next place on.
    fn leads_to_some(&mut self, one: &Cond, others: &CondList) -> bool
        ensures { IsTrue result → CondLeadsToSome one.now others.now }
    {
        'others: for _ in 0..others.len() {
            let Some(other) = others.get(self.next(others.len())) else {
                return false;
            };
            if cond_leads(one, other) {
                return true;
            }
        }
        false
    }
}

/// Whether each value that meets it meets one of the list.
pub(crate) fn leads_to_some(one: &Cond, others: &CondList) -> bool
    ensures { IsTrue result → CondLeadsToSome one.now others.now }
{
    let mut walk = Walk {
        place: 0,
        left: others.len(),
    };
    walk.leads_to_some(one, others)
}

/// Whether each value that meets some of the first list meets some of the second, where equal items may be known to
/// stand. The answer is no where too much would have to be compared.
pub(crate) fn each_leads_to_some(
    ones: &CondList,
    others: &CondList,
    places: Option<&Places<'_>>,
) -> bool
    ensures { IsTrue result → EachLeadsToSome ones.now others.now }
{
    let mut walk = Walk {
        place: 0,
        left: MOST_COMPARED,
    };
    'ones: for one in ones.as_slice() {
        walk.turn_to(one, places);
        if !walk.leads_to_some(one, others) {
            return false;
        }
    }
    true
}
