//! What is known of the tests of a query, by their numbers.
ghost use Rattle.std.specs.Prelude.{◌≡◌, ◌<◌, ◌/◌, ◌%◌, length, IfOk, IfSome, IsTrue};
ghost use Rattle.test_relations.specs.Kept.{IsKnownAt, IsNothingKept};
ghost use Rattle.test_relations.specs.Relations.{AlwaysAt, ExcludesAt, LeadsAt};
ghost use Rattle.test_relations.specs.declared.kept.TheConstants.{MOST_KEPT};

use crate::places::{Places, places_in};
use crate::tests::{always, excludes, leads_by};
use plain_lists::NoMemory;
use policy_model::{Cond, Schema, Test, TestList};
use std::alloc::Global;
use std::marker::Model;
use wildcard_lang::MarkedPattern;

// Between how many tests, the first ones, what is known is kept.
const MOST_KEPT: usize = 1_024;

/// What is known of the tests of a query, found when it is first asked for and kept. Contracts see it as
/// the schema and the tests.
#[derive(Drop)]
pub struct Relations<'a> {
    schema: &'a Schema,
    tests: &'a TestList,
    // By test its pattern. Marks decide most pairs of patterns at once.
    marks: Vec<Option<MarkedPattern<'a>>>,
    // By test where the values of its list stand, if it is a long one.
    places: Vec<Option<Places<'a>>>,
    // By the place of a pair whether the one is known to lead to the other, where this was asked for.
    led: Vec<Option<bool>>,
    // Likewise whether they are known to exclude each other.
    excluded: Vec<Option<bool>>,
}

impl<'a> Model for Relations<'a> {
    ghost use Rattle.test_relations.specs.Kept.{AreKnown};
    ghost use Rattle.test_relations.specs.Relations.{ExcludesAt, LeadsAt, SchemaTests};

    ghost Value = { SchemaTests };

    ghost view = { λ r. record { schema = r.schema.now; tests = r.tests.now } };

    ghost invariant = { λ r.
        AreKnown (LeadsAt (record { schema = r.schema.now; tests = r.tests.now })) r.led.items ×
        AreKnown (ExcludesAt (record { schema = r.schema.now; tests = r.tests.now })) r.excluded.items };
}

// The pattern that the test is on, marked.
fn marks_of<'a>(test: &'a Test) -> Option<MarkedPattern<'a>> {
    match test {
        Test::Action(pattern) => Some(MarkedPattern::of(pattern)),
        Test::Resource(pattern) => Some(MarkedPattern::of(pattern)),
        Test::SomeMeets(_, Cond::Matches(pattern)) => Some(MarkedPattern::of(pattern)),
        _ => None,
    }
}

fn marks_of_tests<'a>(
    alloc: Global,
    tests: &'a TestList,
) -> Result<Vec<Option<MarkedPattern<'a>>>, NoMemory> {
    let mut marks = Vec::new(alloc);
    for test in tests.as_slice() {
        marks.push(marks_of(test))?;
    }
    Ok(marks)
}

// Room for what is known of each pair, and nothing known.
fn empty_room(alloc: Global, tests: usize) -> Result<Vec<Option<bool>>, NoMemory>
    ensures { IfOk result (λ kept. IsNothingKept kept.items) }
{
    vec![in alloc; None; tests.min(MOST_KEPT) * MOST_KEPT]
}

// The place of a pair whose second test is one of those between which is kept.
fn place_of(one: u32, other: u32) -> usize
    requires { other < MOST_KEPT }
    ensures one { result / MOST_KEPT ≡ one }
    ensures other { result % MOST_KEPT ≡ other }
{
    one as usize * MOST_KEPT + other as usize
}

impl<'a> Relations<'a> {
    /// Nothing known yet of these tests, with room for what will be.
    pub fn of(
        alloc: Global,
        schema: &'a Schema,
        tests: &'a TestList,
    ) -> Result<Relations<'a>, NoMemory>
        ensures schema { IfOk result (λ r. r.schema ≡ schema.now) }
        ensures tests { IfOk result (λ r. r.tests ≡ tests.now) }
    {
        let marks = marks_of_tests(alloc, tests)?;
        let places = places_in(alloc, tests)?;
        let led = empty_room(alloc, tests.len())?;
        let excluded = empty_room(alloc, tests.len())?;
        Ok(Relations {
            schema,
            tests,
            marks,
            places,
            led,
            excluded,
        })
    }

    /// How many tests there are.
    pub fn len(&self) -> usize
        ensures { result ≡ length self.now.tests }
    {
        self.tests.len()
    }

    fn marks(&self, test: u32) -> Option<&MarkedPattern<'a>> {
        match self.marks.get(test as usize) {
            Some(marks) => marks.as_ref(),
            None => None,
        }
    }

    // Whether it is worth asking, by the marks: nothing rests on it.
    fn may_lead(&self, one: u32, other: u32) -> bool {
        match (self.marks(one), self.marks(other)) {
            (Some(first), Some(second)) => second.covers(first),
            _ => true,
        }
    }

    // Where the values of the test's list stand, if it is a long one.
    fn places(&self, test: u32) -> Option<&Places<'a>> {
        match self.places.get(test as usize) {
            Some(places) => places.as_ref(),
            None => None,
        }
    }

    // Whether the one leads to the other, found anew.
    fn found_led(&self, one: u32, other: u32) -> bool
        ensures { IsTrue result → LeadsAt self.now one other }
    {
        let Some(first) = self.tests.get(one as usize) else {
            return false;
        };
        let Some(second) = self.tests.get(other as usize) else {
            return false;
        };
        if !self.may_lead(one, other) {
            return false;
        }
        leads_by(self.schema, first, second, self.places(one))
    }

    // Whether the two exclude each other, found anew.
    fn found_excluded(&self, one: u32, other: u32) -> bool
        ensures { IsTrue result → ExcludesAt self.now one other }
    {
        let Some(first) = self.tests.get(one as usize) else {
            return false;
        };
        let Some(second) = self.tests.get(other as usize) else {
            return false;
        };
        excludes(self.schema, first, second)
    }

    // What is kept at the place of a pair.
    fn led_at(&self, place: usize) -> Option<bool>
        ensures { IfSome result (IsKnownAt (LeadsAt self.now) place) }
    {
        match self.led.get(place) {
            Some(known) => *known,
            None => None,
        }
    }

    // Keeps it, where there is room.
    fn keep_led(&mut self, place: usize, known: bool)
        requires { IsKnownAt (LeadsAt self.old) place known }
        ensures { self.new ≡ self.old }
    {
        if place < self.led.len() {
            self.led[place] = Some(known);
        }
    }

    fn excluded_at(&self, place: usize) -> Option<bool>
        ensures { IfSome result (IsKnownAt (ExcludesAt self.now) place) }
    {
        match self.excluded.get(place) {
            Some(known) => *known,
            None => None,
        }
    }

    fn keep_excluded(&mut self, place: usize, known: bool)
        requires { IsKnownAt (ExcludesAt self.old) place known }
        ensures { self.new ≡ self.old }
    {
        if place < self.excluded.len() {
            self.excluded[place] = Some(known);
        }
    }

    /// Whether the one test is known to lead to the other. It takes no memory.
    pub fn leads(&mut self, one: u32, other: u32) -> bool
        ensures same { self.new ≡ self.old }
        ensures leads { IsTrue result → LeadsAt self.old one other }
    {
        if other as usize >= MOST_KEPT {
            return self.found_led(one, other);
        }
        let place = place_of(one, other);
        if let Some(known) = self.led_at(place) {
            return known;
        }
        let found = self.found_led(one, other);
        self.keep_led(place, found);
        found
    }

    /// Whether the two tests are known to exclude each other. It takes no memory.
    pub fn excludes(&mut self, one: u32, other: u32) -> bool
        ensures same { self.new ≡ self.old }
        ensures excludes { IsTrue result → ExcludesAt self.old one other }
    {
        if other as usize >= MOST_KEPT {
            return self.found_excluded(one, other);
        }
        let place = place_of(one, other);
        if let Some(known) = self.excluded_at(place) {
            return known;
        }
        let found = self.found_excluded(one, other);
        self.keep_excluded(place, found);
        found
    }

    /// Whether it is known that every valid request meets the test. It takes no memory.
    pub fn always(&self, test: u32) -> bool
        ensures { IsTrue result → AlwaysAt self.now test }
    {
        match self.tests.get(test as usize) {
            Some(own) => always(self.schema, own),
            None => false,
        }
    }
}
