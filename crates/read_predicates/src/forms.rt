//! The forms of predicates, and what follows from their texts. Each law is a function that does nothing,
//! and whose contract states it.
ghost use Rattle.read_predicates.specs.Laws.{FindingsAreWrittenApart, PredicatesAreOfWrittenForms, PredicatesAreWrittenApart};

use cidr_bits::{block_of_is_the_form, text_spells_one_block, written_block_spells};
use intervals::{decimal_of_is_the_form, moment_of_is_the_forms};

/// Each predicate in the strata of a file's set is of a form that can be read again from its text: an entry
/// that files give, other than that of every principal; a pattern that some text stands for; a number in
/// range; a block of addresses; a flag that true or false meets; or bytes.
pub fn predicates_are_of_written_forms()
    ensures { PredicatesAreOfWrittenForms }
{
    decimal_of_is_the_form();
    moment_of_is_the_forms();
    block_of_is_the_form();
}

/// Two predicates of a slot that are of such forms are equal where their texts are.
pub fn predicates_are_written_apart()
    ensures { PredicatesAreWrittenApart }
{
    written_block_spells();
    text_spells_one_block();
}

/// Two findings of such strata are equal where their texts are.
pub fn findings_are_written_apart()
    ensures { FindingsAreWrittenApart }
{
    predicates_are_of_written_forms();
    predicates_are_written_apart();
}
