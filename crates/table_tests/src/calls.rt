// Calls on a table of one column with four buckets, which the tests share.
ghost use Rattle.std.specs.Prelude.{◌≡◌, IfOk};
ghost use Rattle.query_plan.specs.Query.{Suits};
ghost use Rattle.waldo_table.specs.Tables.{IsOf};

use prg_chacha::Seed;
use query_plan::{Predicate, Query, make_keys};
use ring128::Memory;
use std::alloc::Global;
use std::process::Abort;
use std::sync::Wait;
use std::thread::Threads;
use table_schema::{Aggregate, Kind, Row, Widths};
use visit_trace::Trace;
use waldo_table::{Answered, AskFault, Pass, Prepared, Table, prepare};
use wire_line::Wire;

const WIDTHS: Widths = Widths {
    columns: 1,
    bits: [2, 0, 0, 0, 0, 0],
};

const BLANK: Predicate = Predicate {
    column: 0,
    kind: Kind::Point,
    low: 0,
    high: 0,
};

// How many rows have bucket 3, or the sum of their values.
pub fn query<R: Abort>(rt: &R, aggregate: Aggregate, table: &Table) -> Query
    ensures { Suits table.now.widths.columns table.now.widths.bits result }
{
    let bucket = Predicate {
        column: 0,
        kind: Kind::Point,
        low: 3,
        high: 3,
    };
    let query = Query {
        aggregate,
        count: 1,
        predicates: [bucket, BLANK, BLANK, BLANK],
    };
    assert!(rt; query.suits(table.widths()));
    query
}

// The seed of each query.
pub fn seed() -> Seed {
    Seed { words: [9; 8] }
}

// The key of a query.
pub fn key<R: Abort>(
    rt: &R,
    alloc: Global,
    table: &Table,
    aggregate: Aggregate,
) -> Result<u128, Memory> {
    let query = query(rt, aggregate, table);
    let keys = make_keys(alloc, &query, table.widths(), &seed())?;
    Ok(keys.key())
}

// A table for `capacity` rows.
pub fn open(alloc: Global, capacity: u32) -> Result<(Table, Pass), Memory>
    ensures of { IfOk result (λ r. IsOf r.0 r.1) }
    ensures room { IfOk result (λ r. r.1.sight.room ≡ capacity) }
{
    match Table::new(alloc, WIDTHS, capacity) {
        Ok(opened) => Ok(opened),
        Err(_) => Err(Memory),
    }
}

// A row with this bucket and this value, split by a seed of the value.
pub fn ready<R: Abort>(
    rt: &R,
    alloc: Global,
    table: &Table,
    bucket: u8,
    value: u32,
) -> Result<Prepared, Memory>
    ensures { IfOk result (λ p. p.widths ≡ table.now.widths) }
{
    let row = Row {
        columns: 1,
        buckets: [bucket, 0, 0, 0, 0, 0],
        value: i64::from(value),
    };
    assert!(rt; table.widths().holds(&row));
    prepare(alloc, table.widths(), &row, &Seed { words: [value; 8] })
}

// Appends such a row, and answers its place.
pub fn append<R: Abort + Wait>(
    rt: &R,
    alloc: Global,
    table: &Table,
    pass: &mut Pass,
    bucket: u8,
    value: u32,
) -> Result<u64, Memory>
    requires { IsOf table.now pass.old }
    ensures { IsOf table.now pass.new }
{
    let prepared = ready(rt, alloc, table, bucket, value)?;
    table.append(rt, pass, prepared).ok().ok_or(Memory)
}

// Asks through the table.
pub fn ask<R: Abort + Threads + Wait + Sync, W: Wire>(
    rt: &R,
    alloc: Global,
    table: &Table,
    pass: &mut Pass,
    aggregate: Aggregate,
    wire: &mut W,
    trace: &mut Trace,
) -> Result<Answered, AskFault>
    requires { IsOf table.now pass.old }
    ensures { IsOf table.now pass.new }
{
    let query = query(rt, aggregate, table);
    table.ask(rt, alloc, pass, &query, &seed(), wire, trace, 2)
}
