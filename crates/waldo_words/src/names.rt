//! The names of commands and options.
ghost use Rattle.std.specs.Prelude.{◌≡◌};
ghost use Rattle.waldo_words.specs.Options.{command_named, most_times, option_named};

/// Which command it is.
#[derive(Clone, Copy, Debug, PartialEq, Eq)]
pub(crate) enum CommandName {
    Ask,
    Replay,
    Race,
    Make,
    Trace,
    Tamper,
    Tree,
    Groups,
}

/// Which option it is.
#[derive(Clone, Copy, Debug, PartialEq, Eq)]
pub(crate) enum OptionName {
    Query,
    Seed,
    Capacity,
    Workers,
    Schedule,
    Writers,
    Askers,
    Rounds,
    Number,
    Rows,
    Shift,
    From,
    To,
}

/// The command with this name.
#[tactic(auto, unfolding(crate::specs::Options::command_named))]
pub(crate) fn command_name(word: &str) -> Option<CommandName>
    ensures { result ≡ command_named word.now }
{
    if word == "ask" {
        Some(CommandName::Ask)
    } else if word == "replay" {
        Some(CommandName::Replay)
    } else if word == "race" {
        Some(CommandName::Race)
    } else if word == "make" {
        Some(CommandName::Make)
    } else if word == "trace" {
        Some(CommandName::Trace)
    } else if word == "tamper" {
        Some(CommandName::Tamper)
    } else if word == "tree" {
        Some(CommandName::Tree)
    } else if word == "groups" {
        Some(CommandName::Groups)
    } else {
        None
    }
}

/// The option with this name.
#[tactic(auto, unfolding(crate::specs::Options::option_named))]
pub(crate) fn option_name(word: &str) -> Option<OptionName>
    ensures { result ≡ option_named word.now }
{
    if word == "--query" {
        Some(OptionName::Query)
    } else if word == "--seed" {
        Some(OptionName::Seed)
    } else if word == "--capacity" {
        Some(OptionName::Capacity)
    } else if word == "--workers" {
        Some(OptionName::Workers)
    } else if word == "--schedule" {
        Some(OptionName::Schedule)
    } else if word == "--writers" {
        Some(OptionName::Writers)
    } else if word == "--askers" {
        Some(OptionName::Askers)
    } else if word == "--rounds" {
        Some(OptionName::Rounds)
    } else if word == "--number" {
        Some(OptionName::Number)
    } else if word == "--rows" {
        Some(OptionName::Rows)
    } else if word == "--shift" {
        Some(OptionName::Shift)
    } else if word == "--from" {
        Some(OptionName::From)
    } else if word == "--to" {
        Some(OptionName::To)
    } else {
        None
    }
}

impl OptionName {
    /// How often the option may stand in a command: not at all where the command does not have it.
    pub fn most(self, command: CommandName) -> usize
        ensures { result ≡ most_times self command }
    {
        match self {
            OptionName::Query => match command {
                CommandName::Tamper | CommandName::Tree => 1,
                _ => 16,
            },
            OptionName::Capacity => match command {
                CommandName::Make => 0,
                _ => 1,
            },
            OptionName::Seed | OptionName::Workers => 1,
            OptionName::Schedule => match command {
                CommandName::Replay => 1,
                _ => 0,
            },
            OptionName::Writers | OptionName::Askers | OptionName::Rounds => match command {
                CommandName::Race => 1,
                _ => 0,
            },
            OptionName::Number | OptionName::Rows => match command {
                CommandName::Make => 1,
                _ => 0,
            },
            OptionName::Shift => match command {
                CommandName::Tamper => 16,
                _ => 0,
            },
            OptionName::From | OptionName::To => match command {
                CommandName::Tree => 1,
                _ => 0,
            },
        }
    }
}
