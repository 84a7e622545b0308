//! The values of options.
ghost use Rattle.std.specs.Prelude.{◌≡◌, IfOk, IfSome};
ghost use Rattle.std.specs.Option.{ok_or};
ghost use Rattle.text_reading.specs.Reading.{Gives};
ghost use Rattle.std.specs.Result.{result_ok};
ghost use Rattle.query_plan.specs.Grouping.{group_of};
ghost use Rattle.waldo_words.specs.Legal.{IsGroup, IsQuery, IsValue};
ghost use Rattle.waldo_words.specs.Options.{asked_for, may_ask, option_of, query_for, value_of};
ghost use Rattle.waldo_words.specs.declared.names.OptionName.TheVariants as option;
ghost use Rattle.waldo_words.specs.declared.faults.ValueFault.TheVariants as fault;

use crate::amounts::shift_word;
use crate::faults::ValueFault;
use crate::names::{CommandName, OptionName};
use crate::numbers::{MOST_ROWS, capacity, few, start_number, within};
use crate::schedule::Schedule;
use crate::seeds::master_seed;
use crate::shifts::ShiftWord;
use crate::steps::read_schedule;
use prg_chacha::Seed;
use query_plan::{GroupQuery, Query, read_group, read_query};
use std::alloc::Global;
use table_schema::{Aggregate, Schema};

/// A value, with the option whose value it is.
#[derive(Drop)]
pub(crate) enum Value {
    Query(Query),
    Group(GroupQuery),
    Seed(Seed),
    Capacity(u32),
    Workers(u8),
    Schedule(Schedule),
    Writers(u8),
    Askers(u8),
    Rounds(u8),
    Number(u32),
    Rows(u32),
    Shift(ShiftWord),
    From(u64),
    To(u64),
}

// Whether a command asks such a query: `tree` a count with one predicate alone, `groups` none that is not by a column.
fn may_ask(command: CommandName, query: &Query) -> bool
    ensures { result ≡ may_ask command query.now }
{
    match command {
        CommandName::Tree => match query.aggregate {
            Aggregate::Count => query.count == 1,
            Aggregate::Sum => false,
        },
        CommandName::Groups => false,
        _ => true,
    }
}

// The query of a text, where the command may ask it.
#[tactic(auto, unfolding(crate::specs::Options::query_for))]
fn query_for(command: CommandName, schema: &Schema, text: &str) -> Option<Query>
    ensures value { result ≡ query_for command schema.now text.now }
    ensures legal { IfSome result (IsQuery command schema.now) }
{
    match read_query(schema, text) {
        Ok(query) => {
            if !may_ask(command, &query) {
                return None;
            }
            Some(query)
        }
        Err(_) => None,
    }
}

// The query by the buckets of a column that a text is.
fn group_for(schema: &Schema, text: &str) -> Option<GroupQuery>
    ensures value { result ≡ result_ok (group_of schema.now text.now) }
    ensures legal { IfSome result (IsGroup schema.now) }
{
    match read_group(schema, text) {
        Ok(group) => Some(group),
        Err(_) => None,
    }
}

// The value of `--query` that a text is: for `groups` a query by the buckets of a column, else a query that the command may ask.
fn asked_for(command: CommandName, schema: &Schema, text: &str) -> Option<Value>
    ensures value { result ≡ asked_for command schema.now text.now }
    ensures named { IfSome result (λ v. option_of v ≡ option.Query) }
    ensures legal { IfSome result (IsValue command schema.now) }
{
    match command {
        CommandName::Groups => Some(Value::Group(group_for(schema, text)?)),
        _ => Some(Value::Query(query_for(command, schema, text)?)),
    }
}

/// The value that a text is for an option of a command, over the columns of the table.
pub(crate) fn read_value(
    alloc: Global,
    command: CommandName,
    schema: &Schema,
    option: OptionName,
    text: &str,
) -> Result<Value, ValueFault>
    ensures exact { Gives fault.Memory (λ v. v) result (ok_or (value_of command schema.now option text.now) fault.Refused) }
    ensures named { IfOk result (λ v. option_of v ≡ option) }
    ensures legal { IfOk result (IsValue command schema.now) }
{
    let refused = ValueFault::Refused;
    let bytes = text.as_bytes();
    match option {
        OptionName::Query => Ok(asked_for(command, schema, text).ok_or(refused)?),
        OptionName::Seed => Ok(Value::Seed(master_seed(text).ok_or(refused)?)),
        OptionName::Capacity => Ok(Value::Capacity(capacity(schema, bytes).ok_or(refused)?)),
        OptionName::Workers => Ok(Value::Workers(few(bytes).ok_or(refused)?)),
        OptionName::Schedule => Ok(Value::Schedule(read_schedule(alloc, bytes)?)),
        OptionName::Writers => Ok(Value::Writers(few(bytes).ok_or(refused)?)),
        OptionName::Askers => Ok(Value::Askers(few(bytes).ok_or(refused)?)),
        OptionName::Rounds => Ok(Value::Rounds(few(bytes).ok_or(refused)?)),
        OptionName::Number => Ok(Value::Number(start_number(bytes).ok_or(refused)?)),
        OptionName::Rows => Ok(Value::Rows(capacity(schema, bytes).ok_or(refused)?)),
        OptionName::Shift => Ok(Value::Shift(shift_word(bytes).ok_or(refused)?)),
        OptionName::From => Ok(Value::From(within(0, MOST_ROWS, bytes).ok_or(refused)?)),
        OptionName::To => Ok(Value::To(within(0, MOST_ROWS, bytes).ok_or(refused)?)),
    }
}
