//! The names of the commands.
ghost use Rattle.std.specs.Prelude.{◌≡◌, option_map};
ghost use Rattle.command_words.specs.Asked.{command_of};
ghost use Rattle.command_words.specs.Named.{named_command};

/// The name of a command.
#[derive(Clone, Copy)]
pub(crate) enum CommandName {
    Compare,
    Check,
    Summary,
    Eval,
    Load,
    Idle,
    Reach,
    Emit,
    CheckSummary,
    NewAccess,
    CheckNewAccess,
}

/// The command that the first word names, by its exact text, if it names one.
pub(crate) fn command_named(word: &str) -> Option<CommandName>
    ensures { option_map named_command result ≡ command_of word.now }
{
    match word {
        "compare" => Some(CommandName::Compare),
        "check" => Some(CommandName::Check),
        "summary" => Some(CommandName::Summary),
        "eval" => Some(CommandName::Eval),
        "load" => Some(CommandName::Load),
        "idle" => Some(CommandName::Idle),
        "reach" => Some(CommandName::Reach),
        "emit" => Some(CommandName::Emit),
        "check-summary" => Some(CommandName::CheckSummary),
        "new-access" => Some(CommandName::NewAccess),
        "check-new-access" => Some(CommandName::CheckNewAccess),
        _ => None,
    }
}
