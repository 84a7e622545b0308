ghost use Rattle.std.specs.Prelude.{◌≡◌, ◌≤◌, ◌<◌, ◌*◌, length, map, IfOk};
ghost use Rattle.onehot_column.specs.Code.{width_of};
ghost use Rattle.server_rounds.specs.Shelves.{AreShelves};

use bucket_groups::*;
use prg_chacha::Seed;
use query_plan::{Keys, Predicate, Query, make_keys};
use ring128::{Memory, Words, add, mul, sub};
use scan_chunks::{Column, OwnedShelf, Shelf, Visit};
use server_rounds::Servers;
use std::alloc::Global;
use std::process::Abort;
use std::thread::Threads;
use table_schema::{Aggregate, Kind, Widths};
use visit_trace::Trace;
use wire_line::{RecordWire, Shift, ShiftWire, Shifts, Wire};

// A column of four buckets, and one of 256.
const FOUR: Widths = Widths {
    columns: 1,
    bits: [2, 0, 0, 0, 0, 0],
};

const MANY: Widths = Widths {
    columns: 1,
    bits: [8, 0, 0, 0, 0, 0],
};

// Three rows: bucket 3 with value 10, 1 with 20 and 3 with 5.
const CELLS: [u128; 12] = [0, 0, 0, 1, 0, 1, 0, 0, 0, 0, 0, 1];

const VALUES: [u128; 3] = [10, 20, 5];

const BLANK: Predicate = Predicate {
    column: 0,
    kind: Kind::Point,
    low: 0,
    high: 0,
};

// Share k of each number: the number and 7, or minus 4, or minus 3.
fn share(alloc: Global, numbers: &[u128], k: u8) -> Result<Words, Memory>
    ensures { IfOk result (λ w. length w ≡ length numbers.now) }
{
    let mut words = Vec::with_capacity(alloc, numbers.len())?;
    for number in numbers {
        words.push(match k {
            0 => add(*number, 7),
            1 => sub(0, 4),
            _ => sub(0, 3),
        })?;
    }
    Ok(Words::from_vec(words))
}

// What server k holds of a column.
fn column(alloc: Global, numbers: &[u128], width: u64, k: u8) -> Result<Column, Memory>
    requires k { k < 3 }
    ensures width { IfOk result (λ c. c.width ≡ width) }
    ensures first { IfOk result (λ c. length c.first ≡ length numbers.now) }
    ensures second { IfOk result (λ c. length c.second ≡ length numbers.now) }
{
    let first = share(alloc, numbers, k)?;
    let second = share(alloc, numbers, (k + 1) % 3)?;
    Ok(Column {
        width,
        first,
        second,
    })
}

// The shelf of server k.
fn shelf(
    alloc: Global,
    widths: &Widths,
    rows: u64,
    width: u64,
    cells: &[u128],
    values: &[u128],
    k: u8,
) -> Result<Vec<OwnedShelf>, Memory>
    requires k { k < 3 }
    requires few { rows ≤ 64 }
    requires columns { widths.now.columns ≡ 1 }
    requires width { width ≡ width_of widths.now 0 }
    requires wide { 0 < width }
    requires cells { length cells.now ≡ rows * width }
    requires values { length values.now ≡ rows }
    ensures { IfOk result (λ s. AreShelves widths.now rows (map ⟦<OwnedShelf as Shelf>⟧.held s.items)) }
{
    let _columns = widths.columns;
    let first = column(alloc, cells, width, k)?;
    let last = column(alloc, values, 1, k)?;
    let columns = vec![in alloc; first, last]?;
    let mut shelves = Vec::with_capacity(alloc, 1)?;
    shelves.push(OwnedShelf::new(alloc, rows, 0, columns))?;
    Ok(shelves)
}

// The keys of a query for the buckets up to `high`, or for that bucket alone.
fn keys<R: Abort>(
    rt: &R,
    alloc: Global,
    widths: &Widths,
    aggregate: Aggregate,
    kind: Kind,
    high: u8,
) -> Result<Keys, Memory>
    ensures widths { IfOk result (λ k. k.widths ≡ widths.now) }
{
    let low = if kind == Kind::Point { high } else { 0 };
    let first = Predicate {
        column: 0,
        kind,
        low,
        high,
    };
    let query = Query {
        aggregate,
        count: 1,
        predicates: [first, BLANK, BLANK, BLANK],
    };
    assert!(rt; query.suits(widths));
    make_keys(alloc, &query, widths, &Seed { words: [9; 8] })
}

// Both runs by the buckets of the column.
fn ask<R: Threads + Sync, W: Wire>(
    rt: &R,
    alloc: Global,
    keys: &Keys,
    rows: u64,
    width: u64,
    cells: &[u128],
    values: &[u128],
    wire: &mut W,
    trace: &mut Trace,
) -> Result<GroupTotals, Memory>
    requires few { rows ≤ 64 }
    requires columns { keys.now.widths.columns ≡ 1 }
    requires width { width ≡ width_of keys.now.widths 0 }
    requires wide { 0 < width }
    requires cells { length cells.now ≡ rows * width }
    requires values { length values.now ≡ rows }
    ensures { IfOk result (λ t. length t.total ≡ length t.weighted) }
{
    let widths = keys.widths();
    let zero = shelf(alloc, &widths, rows, width, cells, values, 0)?;
    let one = shelf(alloc, &widths, rows, width, cells, values, 1)?;
    let two = shelf(alloc, &widths, rows, width, cells, values, 2)?;
    let mut shelves = Servers { zero, one, two };
    group_runs(rt, alloc, &mut shelves, keys, 0, wire, trace)
}

fn good(total: i64) -> GroupAnswer {
    GroupAnswer::Good { total }
}

// What the client answers over a wire that alters nothing, how many messages there are, and how many visits of a server.
#[derive(Drop)]
struct Told {
    answers: GroupAnswers,
    messages: usize,
    visits: usize,
}

fn tell<R: Abort + Threads + Sync>(
    rt: &R,
    alloc: Global,
    keys: &Keys,
    rows: u64,
    width: u64,
    cells: &[u128],
    values: &[u128],
) -> Result<Told, Memory>
    requires few { rows ≤ 64 }
    requires columns { keys.now.widths.columns ≡ 1 }
    requires width { width ≡ width_of keys.now.widths 0 }
    requires wide { 0 < width }
    requires cells { length cells.now ≡ rows * width }
    requires values { length values.now ≡ rows }
{
    let mut wire = RecordWire::new(alloc);
    let mut trace = Trace::new(alloc);
    let totals = ask(
        rt, alloc, keys, rows, width, cells, values, &mut wire, &mut trace,
    )?;
    let answers = check_groups(alloc, &totals, keys.key())?;
    let visits: Vec<Visit> = trace.visits(1).collect(alloc)?;
    Ok(Told {
        answers,
        messages: wire.messages().len(),
        visits: visits.len(),
    })
}

// The sum of all rows by host: nothing, 20, nothing, and 10 + 5.
#[test]
fn a_sum_by_bucket(rt: HostRuntime) -> Result<(), Memory> {
    let alloc = rt.alloc();
    let widths = FOUR;
    let keys = keys(&rt, alloc, &widths, Aggregate::Sum, Kind::AtMost, 3)?;
    let told = tell(&rt, alloc, &keys, 3, 4, &CELLS, &VALUES)?;
    let wanted = [good(0), good(20), good(0), good(15)];
    assert!(rt; told.answers.as_slice() == wanted.as_slice());
    assert_eq!(rt; told.messages, 21);
    assert_eq!(rt; told.visits, 6);
    Ok(())
}

// How many rows have host 0 or 1, by host. No message goes around for the values, which no server visits.
#[test]
fn a_count_by_bucket(rt: HostRuntime) -> Result<(), Memory> {
    let alloc = rt.alloc();
    let widths = FOUR;
    let keys = keys(&rt, alloc, &widths, Aggregate::Count, Kind::AtMost, 1)?;
    let told = tell(&rt, alloc, &keys, 3, 4, &CELLS, &VALUES)?;
    let wanted = [good(0), good(1), good(0), good(0)];
    assert!(rt; told.answers.as_slice() == wanted.as_slice());
    assert_eq!(rt; told.messages, 15);
    assert_eq!(rt; told.visits, 4);
    Ok(())
}

// Two rows of 256 buckets: the last one with value 7, and the first one with 9.
#[test]
fn a_column_of_eight_bits(rt: HostRuntime) -> Result<(), Memory> {
    let alloc = rt.alloc();
    let widths = MANY;
    let keys = keys(&rt, alloc, &widths, Aggregate::Sum, Kind::AtMost, 255)?;
    let mut cells = vec![in alloc; 0; 512]?;
    cells[255] = 1;
    cells[256] = 1;
    let told = tell(&rt, alloc, &keys, 2, 256, cells.as_slice(), &[7, 9])?;
    let mut wanted = vec![in alloc; good(0); 256]?;
    wanted[0] = good(9);
    wanted[255] = good(7);
    assert!(rt; told.answers.as_slice() == wanted.as_slice());
    Ok(())
}

// Without rows each bucket has the total 0, and there is nothing to visit.
#[test]
fn an_empty_table(rt: HostRuntime) -> Result<(), Memory> {
    let alloc = rt.alloc();
    let widths = FOUR;
    let keys = keys(&rt, alloc, &widths, Aggregate::Count, Kind::Point, 3)?;
    let told = tell(&rt, alloc, &keys, 0, 4, &[], &[])?;
    let wanted = [good(0), good(0), good(0), good(0)];
    assert!(rt; told.answers.as_slice() == wanted.as_slice());
    assert_eq!(rt; told.messages, 15);
    assert_eq!(rt; told.visits, 0);
    Ok(())
}

// In each run a server visits the chunk of the predicate's column, that of the values, and that of the groups' column. It sees the
// 40 words of its keys, and in each run the bits and the products with the values, three words out and three in, and the four openings.
#[test]
fn a_server_sees_sizes(rt: HostRuntime) -> Result<(), Memory> {
    let alloc = rt.alloc();
    let widths = FOUR;
    let keys = keys(&rt, alloc, &widths, Aggregate::Sum, Kind::Point, 3)?;
    let mut wire = RecordWire::new(alloc);
    let mut trace = Trace::new(alloc);
    let _totals = ask(
        &rt, alloc, &keys, 3, 4, &CELLS, &VALUES, &mut wire, &mut trace,
    )?;
    let lengths: &[u64] = &[40, 3, 3, 3, 3, 4, 3, 3, 3, 3, 4];
    let host = Visit {
        column: 0,
        chunk: 0,
    };
    let value = Visit {
        column: 1,
        chunk: 0,
    };
    let visits: &[Visit] = &[host, value, host, host, value, host];
    for server in 0..3 {
        let seen: Vec<Visit> = trace.visits(server).collect(alloc)?;
        assert!(rt; seen.as_slice() == visits);
        assert!(rt; trace.lengths(server) == lengths);
    }
    Ok(())
}

// The opening of bucket 3 by server 0 in run 0, which is word 3 of message 9, becomes one greater. That bucket is refused, and each
// other one keeps its total.
#[test]
fn an_altered_bucket_is_refused_alone(rt: HostRuntime) -> Result<(), Memory> {
    let alloc = rt.alloc();
    let widths = FOUR;
    let keys = keys(&rt, alloc, &widths, Aggregate::Sum, Kind::AtMost, 3)?;
    let mut shifts = Shifts::new(alloc);
    shifts.push(Shift {
        message: 9,
        word: 3,
        amount: 1,
    })?;
    let mut wire = ShiftWire::over(alloc, RecordWire::new(alloc), shifts);
    let mut trace = Trace::new(alloc);
    let totals = ask(
        &rt, alloc, &keys, 3, 4, &CELLS, &VALUES, &mut wire, &mut trace,
    )?;
    let answers = check_groups(alloc, &totals, keys.key())?;
    let altered = GroupAnswer::Altered {
        total: 16,
        weighted: mul(15, keys.key()),
    };
    assert!(rt; answers.as_slice() == [good(0), good(20), good(0), altered].as_slice());
    assert_eq!(rt; wire.altered(), 1);
    Ok(())
}
