//! Compares two answers to whether a condition holds of a request: that of the definition, worked out
//! here from tables, and that of evaluation.
//!
//! A line of a text is `BASE|KIND|OPERANDS|VALUES|MEETS`: the name of an operator without prefix
//! and suffix, the kind of the key, what a policy gives the operator, as JSON, values of requests, and a
//! word for each operand with a letter for each value, which is `y` where the operator, read without its
//! `Not`, takes that value for that operand. A word of `Null` has two letters, one of the absent key and
//! one of a present key. Operands, values and words stand between semicolons.
//!
//! A line is tried with each prefix and suffix, each list of at most two operands, and requests with the
//! key absent, with one value and, where there is a prefix, with two. Of each it prints how many pairs of
//! a condition and a request that makes, how many conditions hold, and each pair on which the two
//! answers differ; then the same of all lines together.
//!
//! A line `shared|SET|PLACES` asks which parts of the tree of a set's file are one formula, as `sharing`
//! has it.
#![tactic(auto)]

ghost use Rattle.policy_model.specs.Soundness.{IsSound, SchemaFits};

mod asked;
mod definition;
mod lists;
mod row;
mod sets;
mod sharing;
mod tally;

use asked::{Asked, requests_of, schema_with_key};
use definition::{Case, holds};
use lists::short_lists;
use policy_model::{PolicySet, Schema};
use row::{Row, part_of, parts_in, row_of};
use sets::{evaluated, operands_text, schema_of, set_of};
use sharing::print_sharing;
use std::alloc::Global;
use std::io;
use std::io::{ErrorKind, Write};
use tally::{Answers, Tally};

/// Prefixes and suffixes, of which `Null` takes the first alone.
const AFFIXES: [(&str, &str); 6] = [
    ("", ""),
    ("", "IfExists"),
    ("ForAllValues:", ""),
    ("ForAllValues:", "IfExists"),
    ("ForAnyValue:", ""),
    ("ForAnyValue:", "IfExists"),
];

fn print_condition(alloc: Global, out: &mut impl Write, case: &Case) -> io::Result<()> {
    let operands = operands_text(alloc, case)?;
    let (prefix, base, suffix) = (case.prefix, case.row.base, case.suffix);
    write!(out, "{prefix}{base}{suffix} {operands} of")
}

fn print_values(out: &mut impl Write, row: &Row, numbers: &[usize]) -> io::Result<()> {
    for number in numbers {
        let value = part_of(row.values, *number);
        write!(out, " {value}")?;
    }
    Ok(())
}

/// Prints the answers to a condition of a request.
fn print_answers(
    alloc: Global,
    out: &mut impl Write,
    case: &Case,
    values: &[usize],
    answers: &Answers,
) -> io::Result<()> {
    print_condition(alloc, out, case)?;
    print_values(out, &case.row, values)?;
    let Answers { defined, evaluated } = *answers;
    writeln!(out, ": {defined} {evaluated}")
}

fn try_request(
    alloc: Global,
    out: &mut impl Write,
    case: &Case,
    schema: &Schema,
    set: &PolicySet,
    asked: &Asked,
) -> io::Result<Tally>
    requires { SchemaFits schema.now set.now }
{
    let answers = Answers {
        defined: holds(case, asked.values.as_slice()),
        evaluated: evaluated(schema, set, &asked.request)?,
    };
    if !answers.agree() {
        print_answers(alloc, out, case, asked.values.as_slice(), &answers)?;
    }
    Ok(Tally::of(&answers))
}

fn try_requests(
    alloc: Global,
    out: &mut impl Write,
    case: &Case,
    schema: &Schema,
    set: &PolicySet,
    asked: &[Asked],
) -> io::Result<Tally>
    requires { SchemaFits schema.now set.now }
{
    let mut tally = Tally::NONE;
    for one in asked {
        tally.add(try_request(alloc, out, case, schema, set, one)?);
    }
    Ok(tally)
}

fn try_set(
    alloc: Global,
    out: &mut impl Write,
    case: &Case,
    named: &Schema,
    set: &PolicySet,
    asked: &[Asked],
) -> io::Result<Tally>
    requires { IsSound set.now }
{
    let schema = schema_of(alloc, named, set)?;
    try_requests(alloc, out, case, &schema, set, asked)
}

fn try_condition(
    alloc: Global,
    out: &mut impl Write,
    case: &Case,
    named: &Schema,
    asked: &[Asked],
) -> io::Result<Tally> {
    let set = set_of(alloc, case)?;
    try_set(alloc, out, case, named, &set, asked)
}

/// An operator with its prefix and its suffix, and the row that has it.
#[derive(Clone, Copy)]
struct Operator<'a> {
    row: Row<'a>,
    prefix: &'a str,
    suffix: &'a str,
}

impl<'a> Operator<'a> {
    fn with(self, operands: &'a [usize]) -> Case<'a> {
        Case {
            row: self.row,
            prefix: self.prefix,
            suffix: self.suffix,
            operands,
        }
    }
}

fn try_lists(
    alloc: Global,
    out: &mut impl Write,
    operator: Operator,
    named: &Schema,
    asked: &[Asked],
    lists: &[Vec<usize>],
) -> io::Result<Tally> {
    let mut tally = Tally::NONE;
    for operands in lists {
        let case = operator.with(operands.as_slice());
        tally.add(try_condition(alloc, out, &case, named, asked)?);
    }
    Ok(tally)
}

fn try_under_key(
    alloc: Global,
    out: &mut impl Write,
    operator: Operator,
    named: &Schema,
    asked: &[Asked],
) -> io::Result<Tally> {
    let lists = short_lists(alloc, parts_in(operator.row.operands), true)?;
    try_lists(alloc, out, operator, named, asked, lists.as_slice())
}

fn try_asked(
    alloc: Global,
    out: &mut impl Write,
    operator: Operator,
    many: bool,
    asked: &[Asked],
) -> io::Result<Tally> {
    let named = schema_with_key(alloc, operator.row.kind, many)?;
    try_under_key(alloc, out, operator, &named, asked)
}

fn try_operator(alloc: Global, out: &mut impl Write, operator: Operator) -> io::Result<Tally> {
    let row = operator.row;
    let many = row.base == "Null" || !operator.prefix.is_empty();
    let asked = requests_of(alloc, &row, many)?;
    try_asked(alloc, out, operator, many, asked.as_slice())
}

fn affixes_of(row: &Row) -> &'static [(&'static str, &'static str)] {
    if row.base == "Null" {
        &[("", "")]
    } else {
        &AFFIXES
    }
}

fn try_row(alloc: Global, out: &mut impl Write, row: Row) -> io::Result<Tally> {
    let mut tally = Tally::NONE;
    for (prefix, suffix) in affixes_of(&row) {
        let operator = Operator {
            row,
            prefix: *prefix,
            suffix: *suffix,
        };
        tally.add(try_operator(alloc, out, operator)?);
    }
    Ok(tally)
}

fn try_line(alloc: Global, out: &mut impl Write, line: &str) -> io::Result<Tally> {
    if let Some(rest) = line.strip_prefix("shared|") {
        print_sharing(alloc, out, rest)?;
        return Ok(Tally::NONE);
    }
    let Some(row) = row_of(line) else {
        return Err(ErrorKind::InvalidData.into());
    };
    let tally = try_row(alloc, out, row)?;
    let (base, kind) = (row.base, row.kind);
    writeln!(out, "{base} of {kind:?}: {tally}")?;
    Ok(tally)
}

/// Prints how the two answers to the conditions of each line of a text compare, and then of all lines.
pub fn print_conditions(alloc: Global, out: &mut impl Write, text: &str) -> io::Result<()> {
    let mut total = Tally::NONE;
    for line in text.lines() {
        total.add(try_line(alloc, out, line)?);
    }
    writeln!(out, "all: {total}")
}
