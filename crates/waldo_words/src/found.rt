//! What the options have said so far.
ghost use Rattle.std.specs.Prelude.{◌≡◌, ◌+◌, ◌≤◌, IfOk, length};
ghost use Rattle.waldo_words.specs.Options.{count_of, nothing_found, times_found, with_value};

use crate::groups::Groups;
use crate::names::OptionName;
use crate::queries::Queries;
use crate::schedule::Schedule;
use crate::shifts::ShiftWords;
use crate::value::Value;
use prg_chacha::Seed;
use std::alloc::{AllocError, Global};

/// The values of the options so far.
#[derive(Drop)]
pub(crate) struct Found {
    pub queries: Queries,
    pub groups: Groups,
    pub seed: Option<Seed>,
    pub capacity: Option<u32>,
    pub workers: Option<u8>,
    pub schedule: Option<Schedule>,
    pub writers: Option<u8>,
    pub askers: Option<u8>,
    pub rounds: Option<u8>,
    pub number: Option<u32>,
    pub rows: Option<u32>,
    pub shifts: ShiftWords,
    pub from: Option<u64>,
    pub to: Option<u64>,
}

// One where there is a value.
fn count<T>(value: &Option<T>) -> usize
    ensures { result ≡ count_of value.now }
{
    match value {
        None => 0,
        Some(_) => 1,
    }
}

impl Found {
    /// No values, which takes no memory.
    pub fn new(alloc: Global) -> Found
        ensures { result ≡ nothing_found }
    {
        Found {
            queries: Queries::new(alloc),
            groups: Groups::new(alloc),
            seed: None,
            capacity: None,
            workers: None,
            schedule: None,
            writers: None,
            askers: None,
            rounds: None,
            number: None,
            rows: None,
            shifts: ShiftWords::new(alloc),
            from: None,
            to: None,
        }
    }

    /// How often an option has stood.
    pub fn times(&self, option: OptionName) -> usize
        requires { length self.now.queries + length self.now.groups ≤ 16 }
        ensures { result ≡ times_found self.now option }
    {
        match option {
            OptionName::Query => self.queries.len() + self.groups.len(),
            OptionName::Seed => count(&self.seed),
            OptionName::Capacity => count(&self.capacity),
            OptionName::Workers => count(&self.workers),
            OptionName::Schedule => count(&self.schedule),
            OptionName::Writers => count(&self.writers),
            OptionName::Askers => count(&self.askers),
            OptionName::Rounds => count(&self.rounds),
            OptionName::Number => count(&self.number),
            OptionName::Rows => count(&self.rows),
            OptionName::Shift => self.shifts.len(),
            OptionName::From => count(&self.from),
            OptionName::To => count(&self.to),
        }
    }

    /// With one value more.
    pub fn with(mut self, value: Value) -> Result<Found, AllocError>
        ensures { IfOk result (λ found. found ≡ with_value self value) }
    {
        match value {
            Value::Query(query) => self.queries.push(query)?,
            Value::Group(group) => self.groups.push(group)?,
            Value::Seed(seed) => self.seed = Some(seed),
            Value::Capacity(capacity) => self.capacity = Some(capacity),
            Value::Workers(workers) => self.workers = Some(workers),
            Value::Schedule(schedule) => self.schedule = Some(schedule),
            Value::Writers(writers) => self.writers = Some(writers),
            Value::Askers(askers) => self.askers = Some(askers),
            Value::Rounds(rounds) => self.rounds = Some(rounds),
            Value::Number(number) => self.number = Some(number),
            Value::Rows(rows) => self.rows = Some(rows),
            Value::Shift(shift) => self.shifts.push(shift)?,
            Value::From(low) => self.from = Some(low),
            Value::To(high) => self.to = Some(high),
        }
        Ok(self)
    }
}
