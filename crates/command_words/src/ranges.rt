//! The numbers of a command line as numbers. The law is a function that does nothing, and whose contract
//! states it.
ghost use Rattle.command_words.specs.Ranges.{WordLimits};

/// The greatest splits, states, findings, keys and dimensions that may be asked for, and those that are had
/// unless others are asked for.
pub fn word_limits()
    ensures { WordLimits }
{}
