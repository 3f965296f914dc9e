//! What a condition means, by its definition: from the operator's `Not`, its prefix and its suffix, and
//! from which values meet which operands.
use crate::row::Row;

/// A condition that a row is tried with: the operands of these numbers under the operator with this prefix
/// and this suffix.
#[derive(Clone, Copy)]
pub(crate) struct Case<'a> {
    pub(crate) row: Row<'a>,
    pub(crate) prefix: &'a str,
    pub(crate) suffix: &'a str,
    pub(crate) operands: &'a [usize],
}

// Whether the letter meets one of the condition's operands.
fn meets_some(case: &Case, letter: usize) -> bool {
    case.operands
        .iter()
        .any(|operand| case.row.meets(*operand, letter))
}

// Of a key without a value: `IfExists` is content with it, no value of it fails, none holds, and without a
// prefix a negated operator alone is content.
fn holds_of_absent(case: &Case, negated: bool) -> bool {
    case.suffix == "IfExists"
        || match case.prefix {
            "ForAllValues:" => true,
            "ForAnyValue:" => false,
            _ => negated,
        }
}

fn holds_of_each(case: &Case, negated: bool, values: &[usize]) -> bool {
    values
        .iter()
        .all(|value| meets_some(case, *value) != negated)
}

fn holds_of_some(case: &Case, negated: bool, values: &[usize]) -> bool {
    values
        .iter()
        .any(|value| meets_some(case, *value) != negated)
}

// `Null` asks whether there is a value, whichever it is.
fn null_holds(case: &Case, values: &[usize]) -> bool {
    meets_some(case, if values.is_empty() { 0 } else { 1 })
}

/// Whether the condition holds of a request whose values of the key have these numbers.
pub(crate) fn holds(case: &Case, values: &[usize]) -> bool {
    let negated = case.row.base.contains("Not");
    if case.row.base == "Null" {
        null_holds(case, values)
    } else if values.is_empty() {
        holds_of_absent(case, negated)
    } else if case.prefix == "ForAllValues:" {
        holds_of_each(case, negated, values)
    } else {
        holds_of_some(case, negated, values)
    }
}
