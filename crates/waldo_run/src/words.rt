//! Command words, as far as their commands are built.
ghost use Rattle.std.specs.Prelude.{◌≡◌, Ok, IfOk, map, string_bytes};
ghost use Rattle.text_reading.specs.Reading.{Gives};
ghost use Rattle.waldo_words.specs.Legal.{IsLegal};
ghost use Rattle.waldo_words.specs.Words.{command_of};
ghost use Rattle.waldo_words.specs.declared.faults.WordFault.TheVariants.{Memory};
ghost use Rattle.waldo_run.specs.Races.{begin_race};
ghost use Rattle.waldo_run.specs.Words.{IsBuilt, begin_unbuilt, command_in, is_unbuilt, only_built};

use std::alloc::Global;
use waldo_words::{Command, WordFault, read_words};

// Whether the word names a command that is not built yet.
fn is_unbuilt(word: &str) -> bool
    ensures { result ≡ is_unbuilt word.now }
{
    word == "race"
}

// Whether the words begin with such a name.
fn begin_unbuilt(words: &[String]) -> bool
    ensures { result ≡ begin_unbuilt (map string_bytes words.now) }
{
    match words {
        [] => false,
        [word, ..] => is_unbuilt(word.as_str()),
    }
}

/// Whether the words begin with `race`.
pub(crate) fn begin_race(words: &[String]) -> bool
    ensures { result ≡ begin_race (map string_bytes words.now) }
{
    match words {
        [] => false,
        [word, ..] => word.as_str() == "race",
    }
}

// A command that is built.
fn only_built(command: Command) -> Result<Command, WordFault>
    requires { IsLegal command }
    ensures exact { Gives Memory (λ c. c) result (only_built (Ok command)) }
    ensures legal { IfOk result IsLegal }
    ensures built { IfOk result IsBuilt }
{
    match command {
        Command::Ask(_)
        | Command::Replay { .. }
        | Command::Make { .. }
        | Command::Trace(_)
        | Command::Tamper { .. }
        | Command::Tree { .. }
        | Command::Groups { .. } => Ok(command),
        Command::Race { .. } => Err(WordFault::Word { index: 0 }),
    }
}

// The command of any words, if it is built.
fn read_built(alloc: Global, words: &[String]) -> Result<Command, WordFault>
    ensures exact { Gives Memory (λ c. c) result (only_built (command_of (map string_bytes words.now))) }
    ensures legal { IfOk result IsLegal }
    ensures built { IfOk result IsBuilt }
{
    match read_words(alloc, words) {
        Ok(command) => only_built(command),
        Err(fault) => Err(fault),
    }
}

/// The command that the words say, or why they are refused. A command that is not built yet is an unknown one.
pub(crate) fn read_command(alloc: Global, words: &[String]) -> Result<Command, WordFault>
    ensures exact { Gives Memory (λ c. c) result (command_in (map string_bytes words.now)) }
    ensures legal { IfOk result IsLegal }
    ensures built { IfOk result IsBuilt }
{
    if begin_unbuilt(words) {
        return Err(WordFault::Word { index: 0 });
    }
    read_built(alloc, words)
}
