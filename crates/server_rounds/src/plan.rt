ghost use Rattle.std.specs.Prelude.{◌≡◌, ◌<◌, ◌≤◌, ◌+◌, ◌*◌, ◌^◌, length, IfOk};
ghost use Rattle.transcript.specs.Setup.{count_of, column_of};
ghost use Rattle.transcript.specs.Steps.{bits, product, opening, counter_of};
ghost use Rattle.query_plan.specs.KeyMessages.{keys_read, message_length};
ghost use Rattle.server_rounds.specs.Plans.{AreLegal, HasTables};

use query_plan::{MessageFault, ServerKeys, read_message};
use ring128::{Memory, Words};
use std::alloc::Global;
use std::marker::Model;
use table_schema::{Aggregate, Shape, Widths};

/// The numbers of a query that are not secret: how many rows it is of, over which widths, and its shape.
#[derive(Drop)]
pub(crate) struct Plan {
    rows: u64,
    widths: Widths,
    shape: Shape,
}

impl Model for Plan {
    ghost use Rattle.transcript.specs.Setup.{Sizes};
    ghost use Rattle.server_rounds.specs.Plans.{AreLegal};

    ghost Value = { Sizes };

    ghost view = { λ p. record { rows = p.rows; widths = p.widths; shape = p.shape } };

    ghost invariant = { λ p. AreLegal (record { rows = p.rows; widths = p.widths; shape = p.shape }) };
}

impl Plan {
    /// The plan of a query within the limits.
    pub(crate) fn new(rows: u64, widths: Widths, shape: Shape) -> Plan
        requires { AreLegal (record { rows = rows; widths = widths; shape = shape }) }
        ensures { result ≡ record { rows = rows; widths = widths; shape = shape } }
    {
        Plan {
            rows,
            widths,
            shape,
        }
    }

    /// The same plan.
    pub(crate) fn same(&self) -> Plan
        ensures { result ≡ self.now }
    {
        Plan {
            rows: self.rows,
            widths: self.widths,
            shape: self.shape,
        }
    }

    /// What a server reads from the words that it received, which are as many as the client sent. The only error is out
    /// of memory.
    pub(crate) fn read_keys(&self, alloc: Global, words: &Words) -> Result<ServerKeys, Memory>
        requires { length words.now ≡ message_length self.now.shape self.now.widths.bits }
        ensures keys { IfOk result (λ k. k ≡ keys_read self.now.shape self.now.widths.bits words.now) }
        ensures tables { IfOk result (HasTables self.now) }
    {
        match read_message(alloc, &self.shape, &self.widths, words.as_slice()) {
            Ok(keys) => Ok(keys),
            Err(MessageFault::Memory) => Err(Memory),
            Err(MessageFault::Length { .. }) => unreachable!(),
        }
    }

    /// How many rows there are.
    pub(crate) fn rows(&self) -> u64
        ensures value { result ≡ self.now.rows }
        ensures few { result ≤ 65536 }
    {
        self.rows
    }

    /// The widths of the rows.
    pub(crate) fn widths(&self) -> Widths
        ensures { result ≡ self.now.widths }
    {
        self.widths
    }

    /// Whether values are summed, or rows counted.
    pub(crate) fn aggregate(&self) -> Aggregate
        ensures { result ≡ self.now.shape.aggregate }
    {
        self.shape.aggregate
    }

    /// How many predicates there are.
    pub(crate) fn count(&self) -> u8
        ensures value { result ≡ count_of self.now }
        ensures some { 0 < result }
        ensures few { result ≤ 4 }
    {
        self.shape.count
    }

    /// The column of predicate j.
    pub(crate) fn column(&self, j: u8) -> u8
        requires { j < count_of self.now }
        ensures value { result ≡ column_of self.now j }
        ensures there { result < self.now.widths.columns }
    {
        self.shape.parts[j as usize].column
    }

    /// The column of the value.
    pub(crate) fn value(&self) -> u8
        ensures { result ≡ self.now.widths.columns }
    {
        self.widths.columns
    }

    /// The first counter of the zero parts of the bits of predicate j.
    pub(crate) fn bits_counter(&self, run: u8, j: u8) -> u64
        requires run { run < 2 }
        requires j { j < count_of self.now }
        ensures value { result ≡ counter_of (count_of self.now) run (bits j) }
        ensures small { result + 65536 < 2 ^ 64 }
    {
        counter(self.shape.count, run, (2 * j).saturating_sub(1))
    }

    /// The first counter of the zero parts of product j.
    pub(crate) fn product_counter(&self, run: u8, j: u8) -> u64
        requires run { run < 2 }
        requires j { j < count_of self.now }
        ensures value { result ≡ counter_of (count_of self.now) run (product j) }
        ensures small { result + 65536 < 2 ^ 64 }
    {
        counter(self.shape.count, run, 2 * j)
    }

    /// The counter of the zero part of the opening.
    pub(crate) fn opening_counter(&self, run: u8) -> u64
        requires { run < 2 }
        ensures { result ≡ counter_of (count_of self.now) run opening }
    {
        counter(self.shape.count, run, 2 * self.shape.count - 1)
    }
}

// The first counter of a group, which is one of 2 * count in a run.
fn counter(count: u8, run: u8, group: u8) -> u64
    requires few { count ≤ 4 }
    requires run { run < 2 }
    requires group { group < 2 * count }
    ensures value { result ≡ (2 * count * run + group) * 65536 }
    ensures small { result + 65536 < 2 ^ 64 }
{
    let before = if run == 0 { 0 } else { 2 * count };
    u64::from(before + group) * 65536
}
