//! The words of the command on the uses of statements, read.
ghost use Rattle.std.specs.Prelude.{◌≡◌, IfOk};
ghost use Rattle.clap.specs.Words.{found_of, rows_of};
ghost use Rattle.command_words.specs.Asked.{HasUseNumbersInRange, IdleCommand, use_question_in, use_question_of};
ghost use Rattle.command_words.specs.Parsing.{HasNumbers};

use crate::asked::IdleArguments;
use crate::limits::{DEFAULT_SPLITS, DEFAULT_STATES, MOST_SPLITS, MOST_STATES};
use crate::parsing::{file_of, has_flag, name_at, number_or};
use clap::ArgMatches;
use plain_lists::NoMemory;
use std::alloc::Global;

/// What the matches of `idle` ask.
pub(crate) fn use_question_in(
    alloc: Global,
    matches: &ArgMatches,
) -> Result<IdleArguments, NoMemory>
    requires { HasNumbers (found_of matches.now) }
    ensures value { IfOk result (λ u. IdleCommand (use_question_in u)
        ≡ use_question_of (rows_of (found_of matches.now))) }
    ensures within { IfOk result HasUseNumbersInRange }
{
    Ok(IdleArguments {
        set: name_at(alloc, matches, "set")?,
        schema: file_of(alloc, matches, "schema")?,
        splits: number_or(matches, "splits", MOST_SPLITS, DEFAULT_SPLITS),
        states: number_or(matches, "states", MOST_STATES, DEFAULT_STATES),
        certified: has_flag(matches, "proof"),
    })
}
