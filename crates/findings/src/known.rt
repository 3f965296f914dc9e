//! What the predicates of findings say of the tests of a query by themselves: a table, made once for a summary,
//! by which much is known of a finding without a search.
ghost use Rattle.std.specs.Prelude.{◌≡◌, ◌<◌, ◌^◌, IfOk, IfSome, OnOk, false, length, true};
ghost use Rattle.formula_tree.specs.Values.{AreBelow};
ghost use Rattle.policy_compile.specs.Queries.{asked_tree};
ghost use Rattle.findings.specs.Findings.{IsFinding};
ghost use Rattle.findings.specs.KnownAnswers.{AddsFinerAt, AddsTestAnswer, AnswersOther, AnswersTests, AreGivenByEach, AreGivenInDimension, AreInsideAnswers, AreKnownAnswers, AreOwnAnswers, IsAnswerTable, JoinsAnswers, answers_in};

use crate::less::{Less, is_marked};
use crate::outcome::Finding;
use crate::reading::{dimension_at, predicate_number_at};
use formula_tree::Path;
use plain_lists::{List, NoMemory};
use policy_compile::Query;
use policy_model::{Schema, Slot, Test};
use std::alloc::Global;
use strata::{Predicate, Strata, Stratum, test_of};
use test_relations::{excludes, leads};

/// For each predicate of a dimension, answers to tests of the query.
type PathList = List<Path>;

/// What the predicates of each dimension say of the tests of a query.
#[derive(Drop)]
pub(crate) struct KnownAnswers {
    /// The query whose tests these are: what is left of the region's.
    pub(crate) less: Less,
    /// By dimensions and numbers of predicates: what each request answers that meets the predicate.
    pub(crate) met: List<PathList>,
    /// What each answers that misses it.
    pub(crate) missed: List<PathList>,
}

// What each valid request answers to the other test that passes the one.
fn answer_where_passed(schema: &Schema, one: &Test, other: &Test) -> Option<bool>
    ensures { IfSome result (AnswersOther schema.now one.now true other.now) }
{
    if leads(schema, one, other) {
        return Some(true);
    }
    if excludes(schema, one, other) {
        return Some(false);
    }
    None
}

// What each answers that fails the one.
fn answer_where_failed(schema: &Schema, one: &Test, other: &Test) -> Option<bool>
    ensures { IfSome result (AnswersOther schema.now one.now false other.now) }
{
    if leads(schema, other, one) {
        return Some(false);
    }
    None
}

fn answer_where(schema: &Schema, met: bool, one: &Test, other: &Test) -> Option<bool>
    ensures { IfSome result (AnswersOther schema.now one.now met other.now) }
{
    if met {
        return answer_where_passed(schema, one, other);
    }
    answer_where_failed(schema, one, other)
}

// The answer is added to the path, where the test has none yet.
fn add_answer(path: &mut Path, test: u32, answer: bool) -> Result<(), NoMemory>
    ensures { OnOk result (AddsTestAnswer path.old test answer path.new) }
{
    match path.answer(test) {
        Some(_) => Ok(()),
        None => {
            path.push(test, answer)?;
            Ok(())
        }
    }
}

// What the one test, passed or failed, says of the tests that are asked.
fn path_of(
    alloc: Global,
    schema: &Schema,
    met: bool,
    one: &Test,
    tests: &[Test],
    asked: &[bool],
) -> Result<Path, NoMemory>
    requires few { length tests.now < 2 ^ 32 }
    ensures { IfOk result (AnswersTests schema.now one.now met tests.now) }
{
    let mut path = Path::new(alloc);
    'tests: for i in 0..tests.len() {
        if !is_marked(asked, i) {
            continue;
        }
        let Some(answer) = answer_where(schema, met, one, &tests[i]) else {
            continue;
        };
        add_answer(&mut path, i as u32, answer)?;
    }
    Ok(path)
}

// What the predicate of the slot, met or missed, says of them. `Every` says nothing.
fn answers_where(
    alloc: Global,
    schema: &Schema,
    met: bool,
    slot: &Slot,
    one: &Predicate,
    less: &Less,
) -> Result<Path, NoMemory>
    requires few { length less.now.query.tests < 2 ^ 32 }
    ensures { IfOk result (
        AreGivenByEach schema.now met slot.now one.now less.now.query.tests) }
{
    let Some(test) = test_of(slot, one)? else {
        return Ok(Path::new(alloc));
    };
    let tests = less.query.tests.as_slice();
    path_of(alloc, schema, met, &test, tests, less.asked.as_slice())
}

// What each predicate of the dimension says.
fn paths_in(
    alloc: Global,
    schema: &Schema,
    met: bool,
    stratum: &Stratum,
    less: &Less,
) -> Result<PathList, NoMemory>
    requires few { length less.now.query.tests < 2 ^ 32 }
    ensures { IfOk result (
        AreGivenInDimension schema.now met stratum.now less.now.query.tests) }
{
    let mut paths = List::new(alloc);
    'numbers: for number in 0..stratum.predicates.len() {
        let one = &stratum.predicates.as_slice()[number];
        let path = answers_where(alloc, schema, met, &stratum.slot, one, less)?;
        paths.push(path)?;
    }
    Ok(paths)
}

// What those of each dimension say.
fn table_of(
    alloc: Global,
    schema: &Schema,
    met: bool,
    strata: &Strata,
    less: &Less,
) -> Result<List<PathList>, NoMemory>
    requires few { length less.now.query.tests < 2 ^ 32 }
    ensures { IfOk result (
        IsAnswerTable schema.now met strata.now.dimensions less.now.query.tests) }
{
    let mut table = List::new(alloc);
    'dimensions: for i in 0..strata.dimensions.len() {
        let paths = paths_in(alloc, schema, met, dimension_at(strata, i), less)?;
        table.push(paths)?;
    }
    Ok(table)
}

// The answers of the predicate of a number.
fn path_in(table: &List<PathList>, i: usize, number: usize) -> Option<&Path>
    ensures { IfSome result (λ path. path.now ≡ answers_in table.now i number) }
{
    let paths = table.get(i)?;
    paths.get(number)
}

// Adds the answers of the other path to tests that have none yet.
fn join(path: &mut Path, more: &Path) -> Result<(), NoMemory>
    ensures { OnOk result (JoinsAnswers path.old more.now path.new) }
{
    'more: for i in 0..more.len() {
        let test = more.as_slice()[i].0;
        let Some(answer) = more.answer(test) else {
            continue;
        };
        add_answer(path, test, answer)?;
    }
    Ok(())
}

// Adds what the predicate of a number says.
fn join_at(path: &mut Path, table: &List<PathList>, i: usize, number: usize) -> Result<(), NoMemory>
    ensures { OnOk result (JoinsAnswers path.old (answers_in table.now i number) path.new) }
{
    let Some(more) = path_in(table, i, number) else {
        return Ok(());
    };
    join(path, more)?;
    Ok(())
}

impl KnownAnswers {
    /// The table for the region whose query is `base`.
    pub(crate) fn new(
        alloc: Global,
        schema: &Schema,
        strata: &Strata,
        base: &Query,
    ) -> Result<KnownAnswers, NoMemory>
        requires few { length base.now.tests < 2 ^ 32 }
        requires below { AreBelow (length base.now.tests) (asked_tree base.now) }
        ensures { IfOk result (AreKnownAnswers schema.now base.now strata.now) }
    {
        let less = Less::of(alloc, schema, base)?;
        let met = table_of(alloc, schema, true, strata, &less)?;
        let missed = table_of(alloc, schema, false, strata, &less)?;
        Ok(KnownAnswers { less, met, missed })
    }

    /// What each request answers that lies in the finding.
    pub(crate) fn inside_answers(&self, alloc: Global, finding: &Finding) -> Result<Path, NoMemory>
        ensures { IfOk result (AreInsideAnswers self.now finding.now) }
    {
        let mut path = Path::new(alloc);
        'dimensions: for i in 0..finding.len() {
            let number = predicate_number_at(finding, i) as usize;
            join_at(&mut path, &self.met, i, number)?;
        }
        Ok(path)
    }

    // Adds what is said where a predicate of the dimension is missed that is maximal strictly below that of
    // the finding.
    fn add_finer_at(
        &self,
        path: &mut Path,
        stratum: &Stratum,
        finding: &Finding,
        i: usize,
    ) -> Result<(), NoMemory>
        requires index { i < length finding.now }
        ensures { OnOk result
            (AddsFinerAt self.now stratum.now finding.now i path.old path.new) }
    {
        let number = predicate_number_at(finding, i) as usize;
        let Some(below) = stratum.below.get(number) else {
            return Ok(());
        };
        'below: for k in 0..below.len() {
            let lower = below.as_slice()[k] as usize;
            join_at(path, &self.missed, i, lower)?;
        }
        Ok(())
    }

    /// What each request answers that lies in the finding and in no finer one.
    pub(crate) fn own_answers(
        &self,
        alloc: Global,
        strata: &Strata,
        finding: &Finding,
    ) -> Result<Path, NoMemory>
        requires finding { IsFinding strata.now.dimensions finding.now }
        ensures { IfOk result
            (AreOwnAnswers self.now strata.now.dimensions finding.now) }
    {
        let mut path = self.inside_answers(alloc, finding)?;
        'dimensions: for i in 0..finding.len() {
            self.add_finer_at(&mut path, dimension_at(strata, i), finding, i)?;
        }
        Ok(path)
    }
}
