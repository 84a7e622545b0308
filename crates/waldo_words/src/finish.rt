//! The command of the options found.
ghost use Rattle.std.specs.Prelude.{◌≡◌, map, string_bytes};
ghost use Rattle.table_schema.specs.Widths.{Fits, largest_in};
ghost use Rattle.text_reading.specs.Reading.{Reads};
ghost use Rattle.waldo_words.specs.Values.{bits_in};
ghost use Rattle.waldo_words.specs.Words.{finished, made, ranged, replayed, tampered, to_word};

use crate::command::{Command, Common};
use crate::faults::WordFault;
use crate::found::Found;
use crate::names::CommandName;
use crate::progress::split;
use crate::schedule::Schedule;
use crate::seeds::plain_seed;
use crate::shifts::ShiftWords;
use report_lines::Name;
use table_schema::Schema;

/// The command with the options found in these words behind the schema, or the first required one that is missing.
#[tactic(auto, unfolding(crate::specs::Words::finished))]
pub(crate) fn finish(
    command: CommandName,
    schema: Schema,
    words: &[String],
    found: Found,
) -> Result<Command, WordFault>
    ensures exact { Reads (λ command. command) result (finished (map string_bytes words.now) command schema found) }

    // So the capacity is one that fits also where none is given.
    ensures fits { Fits (bits_in schema) (largest_in (bits_in schema)) }
{
    let Found {
        queries,
        groups,
        seed,
        capacity,
        workers,
        schedule,
        writers,
        askers,
        rounds,
        number,
        rows,
        shifts,
        from,
        to,
    } = found;
    let capacity = capacity.unwrap_or(schema.widths().largest());
    if queries.is_empty() && groups.is_empty() {
        return Err(WordFault::missing(Name::Query));
    }
    let common = Common {
        schema,
        capacity,
        seed: seed.unwrap_or(plain_seed()),
        workers: workers.unwrap_or(1),
        queries,
    };
    match command {
        CommandName::Ask => Ok(Command::Ask(common)),
        CommandName::Replay => replay(common, schedule),
        CommandName::Race => Ok(Command::Race {
            common,
            writers: writers.unwrap_or(2),
            askers: askers.unwrap_or(2),
            rounds: rounds.unwrap_or(1),
        }),
        CommandName::Make => make(common, number, rows),
        CommandName::Trace => Ok(Command::Trace(common)),
        CommandName::Tamper => tamper(common, shifts),
        CommandName::Tree => tree(words, common, from, to),
        CommandName::Groups => Ok(Command::Groups { common, groups }),
    }
}

// The command to go through a schedule.
fn replay(common: Common, schedule: Option<Schedule>) -> Result<Command, WordFault>
    ensures { Reads (λ command. command) result (replayed common schedule) }
{
    match schedule {
        None => Err(WordFault::missing(Name::Schedule)),
        Some(schedule) => Ok(Command::Replay { common, schedule }),
    }
}

// The command to alter words.
fn tamper(common: Common, shifts: ShiftWords) -> Result<Command, WordFault>
    ensures { Reads (λ command. command) result (tampered common shifts) }
{
    if shifts.is_empty() {
        return Err(WordFault::missing(Name::Shift));
    }
    Ok(Command::Tamper { common, shifts })
}

// The number of the word in which the value of `--to` stands, among the words behind the schema.
fn to_word(words: &[String]) -> u64
    ensures { result ≡ to_word 2 (map string_bytes words.now) }
{
    for (i, word) in words.iter().enumerate() {
        let (front, text) = split(word.as_str());
        if front == "--to" {
            return match text {
                None => i as u64 + 3,
                Some(_) => i as u64 + 2,
            };
        }
    }
    words.len() as u64 + 2
}

// The command to count over a range of places. Where it ends before it begins, the value of `--to` is bad.
fn tree(
    words: &[String],
    common: Common,
    from: Option<u64>,
    to: Option<u64>,
) -> Result<Command, WordFault>
    ensures { Reads (λ command. command) result (ranged (map string_bytes words.now) common from to) }
{
    let low = match from {
        None => return Err(WordFault::missing(Name::From)),
        Some(low) => low,
    };
    match to {
        None => Err(WordFault::missing(Name::To)),
        Some(high) => {
            if low > high {
                return Err(WordFault::Word {
                    index: to_word(words),
                });
            }
            Ok(Command::Tree { common, low, high })
        }
    }
}

// The command to generate rows: the table has room for just these.
fn make(common: Common, number: Option<u32>, rows: Option<u32>) -> Result<Command, WordFault>
    ensures { Reads (λ command. command) result (made common number rows) }
{
    let number = match number {
        None => return Err(WordFault::missing(Name::Number)),
        Some(number) => number,
    };
    match rows {
        None => Err(WordFault::missing(Name::Rows)),
        Some(rows) => Ok(Command::Make {
            common: Common {
                capacity: rows,
                ..common
            },
            number,
            rows,
        }),
    }
}
