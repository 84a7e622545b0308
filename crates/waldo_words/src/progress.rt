//! One word after another.
ghost use Rattle.std.specs.Prelude.{◌≡◌, ◌<◌, IfOk, List};
ghost use Rattle.std.specs.Option.{option_copied};
ghost use Rattle.table_schema.specs.declared.schema.Column.{Column};
ghost use Rattle.text_reading.specs.Cut.{cut_at};
ghost use Rattle.text_reading.specs.Reading.{Gives};
ghost use Rattle.waldo_words.specs.Legal.{IsFound, IsProgress};
ghost use Rattle.waldo_words.specs.Options.{most_times, times_found};
ghost use Rattle.waldo_words.specs.Words.{after_option, after_value, after_word, beginning, is_dashed, with_text};
ghost use Rattle.waldo_words.specs.declared.faults.ValueFault.TheVariants as fault;
ghost use Rattle.waldo_words.specs.declared.names.CommandName.{CommandName};

use crate::faults::ValueFault;
use crate::found::Found;
use crate::names::{CommandName, OptionName, option_name};
use crate::value::read_value;
use std::alloc::Global;
use table_schema::Schema;

/// Where reading stands between two words: the values so far, and the option whose value the next word is.
#[derive(Drop)]
pub(crate) struct Progress {
    pub found: Found,
    pub waiting: Option<OptionName>,
}

impl Progress {
    /// Before the first option.
    pub fn new(alloc: Global) -> Progress
        ensures value { result ≡ beginning }
        ensures legal { (command : CommandName) (columns : List Column) → IsProgress command columns result }
    {
        Progress {
            found: Found::new(alloc),
            waiting: None,
        }
    }

    /// Behind one word more.
    pub fn next(
        self,
        alloc: Global,
        command: CommandName,
        schema: &Schema,
        word: &str,
    ) -> Result<Progress, ValueFault>
        requires { IsProgress command schema.now self }
        ensures exact { Gives fault.Memory (λ p. p) result (after_word command schema.now self.found self.waiting word.now) }
        ensures legal { IfOk result (IsProgress command schema.now) }
    {
        let Progress { found, waiting } = self;
        match waiting {
            None => begin_option(alloc, command, schema, found, word),
            Some(option) => take_value(alloc, command, schema, found, option, word),
        }
    }
}

// A word in an option's place.
#[tactic(auto, unfolding(crate::specs::Words::after_option))]
fn begin_option(
    alloc: Global,
    command: CommandName,
    schema: &Schema,
    found: Found,
    word: &str,
) -> Result<Progress, ValueFault>
    requires { IsFound command schema.now found }
    ensures exact { Gives fault.Memory (λ p. p) result (after_option command schema.now found word.now) }
    ensures legal { IfOk result (IsProgress command schema.now) }
{
    let (front, text) = split(word);
    let option = match option_name(front) {
        None => return Err(ValueFault::Refused),
        Some(option) => option,
    };
    if found.times(option) >= option.most(command) {
        return Err(ValueFault::Refused);
    }
    match text {
        None => Ok(Progress {
            found,
            waiting: Some(option),
        }),
        Some(text) => read_text(alloc, command, schema, found, option, text),
    }
}

// A word in the place of an option's value.
#[tactic(auto, unfolding(crate::specs::Words::after_value))]
fn take_value(
    alloc: Global,
    command: CommandName,
    schema: &Schema,
    found: Found,
    option: OptionName,
    word: &str,
) -> Result<Progress, ValueFault>
    requires legal { IsFound command schema.now found }
    requires room { times_found found option < most_times option command }
    ensures exact { Gives fault.Memory (λ p. p) result (after_value command schema.now found option word.now) }
    ensures legal { IfOk result (IsProgress command schema.now) }
{
    if begins_with_dash(word.as_bytes()) {
        return Err(ValueFault::Refused);
    }
    read_text(alloc, command, schema, found, option, word)
}

// The values with a text as the value of one option more.
#[tactic(auto, using(crate::proofs::LegalValues::one_more))]
fn read_text(
    alloc: Global,
    command: CommandName,
    schema: &Schema,
    found: Found,
    option: OptionName,
    text: &str,
) -> Result<Progress, ValueFault>
    requires legal { IsFound command schema.now found }
    requires room { times_found found option < most_times option command }
    ensures exact { Gives fault.Memory (λ p. p) result (with_text command schema.now found option text.now) }
    ensures legal { IfOk result (IsProgress command schema.now) }
{
    let value = read_value(alloc, command, schema, option, text)?;
    Ok(Progress {
        found: found.with(value)?,
        waiting: None,
    })
}

/// What stands before the first `=` of a word, or all of it, and what stands after it, where there is one.
pub(crate) fn split(word: &str) -> (&str, Option<&str>)
    ensures front { result.0.now ≡ (cut_at 61 word.now).0 }
    ensures after { option_copied result.1 ≡ (cut_at 61 word.now).1 }
{
    match word.split_once('=') {
        None => (word, None),
        Some((front, after)) => (front, Some(after)),
    }
}

fn begins_with_dash(text: &[u8]) -> bool
    ensures { result ≡ is_dashed text.now }
{
    match text {
        [b'-', ..] => true,
        _ => false,
    }
}
