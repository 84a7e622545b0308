//! All words.
ghost use Rattle.std.specs.Prelude.{Ok, IfOk, map, string_bytes};
ghost use Rattle.text_reading.specs.Reading.{Gives};
ghost use Rattle.waldo_words.specs.Legal.{IsFound, IsLegal};
ghost use Rattle.waldo_words.specs.Words.{after_command, after_schema, beginning, command_of, options_from};
ghost use Rattle.waldo_words.specs.declared.faults.WordFault.TheVariants.{Memory};

use crate::command::Command;
use crate::faults::{ValueFault, WordFault};
use crate::finish::finish;
use crate::found::Found;
use crate::names::{CommandName, command_name};
use crate::progress::Progress;
use report_lines::Name;
use std::alloc::Global;
use table_schema::{Schema, SchemaFault, read_schema};

/// The command that the words say: a command, a schema, and options in any order, each as two words or as one with `=`. Or the
/// first word that is bad, or what is missing behind good ones.
#[tactic(auto, unfolding(crate::specs::Words::command_of))]
pub fn read_words(alloc: Global, words: &[String]) -> Result<Command, WordFault>
    ensures exact { Gives Memory (λ command. command) result (command_of (map string_bytes words.now)) }
    ensures legal { IfOk result IsLegal }
{
    match words {
        [] => Err(WordFault::missing(Name::Command)),
        [word, rest @ ..] => match command_name(word.as_str()) {
            None => Err(WordFault::Word { index: 0 }),
            Some(command) => behind_command(alloc, command, rest),
        },
    }
}

// The words behind the command.
fn behind_command(
    alloc: Global,
    command: CommandName,
    words: &[String],
) -> Result<Command, WordFault>
    ensures exact { Gives Memory (λ command. command) result (after_command command (map string_bytes words.now)) }
    ensures legal { IfOk result IsLegal }
{
    match words {
        [] => Err(WordFault::missing(Name::Schema)),
        [word, rest @ ..] => match read_schema(alloc, word.as_str()) {
            Ok(schema) => behind_schema(alloc, command, schema, rest),
            Err(SchemaFault::Memory) => Err(WordFault::Memory),
            Err(_) => Err(WordFault::Word { index: 1 }),
        },
    }
}

// The words behind the schema.
fn behind_schema(
    alloc: Global,
    command: CommandName,
    schema: Schema,
    words: &[String],
) -> Result<Command, WordFault>
    ensures exact { Gives Memory (λ command. command) result (after_schema command (map string_bytes words.now) (Ok schema)) }
    ensures legal { IfOk result IsLegal }
{
    match read_options(alloc, command, &schema, words) {
        Ok(found) => finish(command, schema, words, found),
        Err(fault) => Err(fault),
    }
}

// The options that the words behind the schema say.
fn read_options(
    alloc: Global,
    command: CommandName,
    schema: &Schema,
    words: &[String],
) -> Result<Found, WordFault>
    ensures exact { Gives Memory (λ found. found) result (options_from command schema.now 2 beginning (map string_bytes words.now)) }
    ensures legal { IfOk result (IsFound command schema.now) }
{
    let mut progress = Progress::new(alloc);
    for (i, word) in words.iter().enumerate() {
        match progress.next(alloc, command, schema, word.as_str()) {
            Ok(more) => progress = more,
            Err(ValueFault::Memory) => return Err(WordFault::Memory),
            Err(ValueFault::Refused) => {
                return Err(WordFault::Word {
                    index: i as u64 + 2,
                });
            }
        }
    }
    match progress.waiting {
        None => Ok(progress.found),
        Some(_) => Err(WordFault::Word {
            index: words.len() as u64 + 1,
        }),
    }
}
