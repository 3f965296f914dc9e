//! A line of standard input: an operator, the values that a policy gives it, values of requests, and
//! which of the one meet which of the other.
use policy_model::Kind;

/// What a line says. The parts of a field stand between semicolons.
#[derive(Clone, Copy)]
pub(crate) struct Row<'a> {
    /// The operator's name without a prefix and without `IfExists`.
    pub(crate) base: &'a str,
    /// The kind of the key.
    pub(crate) kind: Kind,
    /// What the policy gives the operator, as JSON.
    pub(crate) operands: &'a str,
    /// Values of requests, as files of requests write them.
    pub(crate) values: &'a str,
    /// A word for each operand, with a letter for each value, as `meets` has it.
    meets: &'a str,
}

fn kind_named(name: &str) -> Option<Kind> {
    match name {
        "text" => Some(Kind::Text),
        "truth" => Some(Kind::Truth),
        "number" => Some(Kind::Number),
        "address" => Some(Kind::Address),
        "bytes" => Some(Kind::Bytes),
        _ => None,
    }
}

/// The row of a line `BASE|KIND|OPERANDS|VALUES|MEETS`.
pub(crate) fn row_of(line: &str) -> Option<Row<'_>> {
    let mut fields = line.split('|');
    Some(Row {
        base: fields.next()?,
        kind: kind_named(fields.next()?)?,
        operands: fields.next()?,
        values: fields.next()?,
        meets: fields.next()?,
    })
}

/// How many parts a field has.
pub(crate) fn parts_in(field: &str) -> usize {
    field.split(';').count()
}

/// A part of a field, or the empty text behind the last one.
pub(crate) fn part_of(field: &str, i: usize) -> &str {
    field.split(';').nth(i).unwrap_or("")
}

impl Row<'_> {
    /// Whether the operator, read without its `Not`, takes the value for the operand: the letter is `y`.
    /// Letters of `Null` are that of the absent key and that of a present one.
    pub(crate) fn meets(&self, operand: usize, letter: usize) -> bool {
        part_of(self.meets, operand).as_bytes().get(letter) == Some(&b'y')
    }
}
