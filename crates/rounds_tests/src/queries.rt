ghost use Rattle.std.specs.Prelude.{◌≡◌, ◌<◌, ◌*◌, length, map, slice_index, IfOk};
ghost use Rattle.server_rounds.specs.Shelves.{AreShelves};

use prg_chacha::Seed;
use query_plan::{Keys, Predicate, Query, make_keys};
use ring128::{Memory, Words, add, mul, sub};
use scan_chunks::{Column, OwnedShelf, Shelf};
use server_rounds::*;
use std::alloc::Global;
use std::process::Abort;
use std::thread::Threads;
use table_schema::{Aggregate, Kind, Widths};
use visit_trace::Trace;
use wire_line::RecordWire;

// A column of four buckets and one of two.
const WIDTHS: Widths = Widths {
    columns: 2,
    bits: [2, 1, 0, 0, 0, 0],
};

// Three rows: buckets 3 and 0 with value 10, 1 and 1 with 20, 3 and 1 with 5.
const FIRST: [u128; 12] = [0, 0, 0, 1, 0, 1, 0, 0, 0, 0, 0, 1];

const SECOND: [u128; 6] = [1, 0, 0, 1, 0, 1];

const VALUES: [u128; 3] = [10, 20, 5];

const BLANK: Predicate = Predicate {
    column: 0,
    kind: Kind::Point,
    low: 0,
    high: 0,
};

// Share k of each number: the number and 7, or minus 4, or minus 3.
fn share(alloc: Global, numbers: &[u128], k: u8) -> Result<Words, Memory>
    ensures { IfOk result (λ w. length w ≡ length numbers.now) }
{
    let mut words = Vec::with_capacity(alloc, numbers.len())?;
    for number in numbers {
        words.push(match k {
            0 => add(*number, 7),
            1 => sub(0, 4),
            _ => sub(0, 3),
        })?;
    }
    Ok(Words::from_vec(words))
}

// What server k holds of a column.
fn column(alloc: Global, numbers: &[u128], width: u64, k: u8) -> Result<Column, Memory>
    requires long { length numbers.now ≡ 3 * width }
    requires k { k < 3 }
    ensures width { IfOk result (λ c. c.width ≡ width) }
    ensures first { IfOk result (λ c. length c.first ≡ 3 * width) }
    ensures second { IfOk result (λ c. length c.second ≡ 3 * width) }
{
    let first = share(alloc, numbers, k)?;
    let second = share(alloc, numbers, (k + 1) % 3)?;
    Ok(Column {
        width,
        first,
        second,
    })
}

// The shelf of server k.
fn shelf(alloc: Global, widths: &Widths, k: u8) -> Result<Vec<OwnedShelf>, Memory>
    requires k { k < 3 }
    requires columns { widths.now.columns ≡ 2 }
    requires first { slice_index widths.now.bits 0 ≡ 2 }
    requires second { slice_index widths.now.bits 1 ≡ 1 }
    ensures { IfOk result (λ s. AreShelves widths.now 3 (map ⟦<OwnedShelf as Shelf>⟧.held s.items)) }
{
    let _columns = widths.columns;
    let first = column(alloc, &FIRST, 4, k)?;
    let second = column(alloc, &SECOND, 2, k)?;
    let values = column(alloc, &VALUES, 1, k)?;
    let columns = vec![in alloc; first, second, values]?;
    let mut shelves = Vec::with_capacity(alloc, 1)?;
    shelves.push(OwnedShelf::new(alloc, 3, 0, columns))?;
    Ok(shelves)
}

fn servers(alloc: Global, widths: &Widths) -> Result<Servers<OwnedShelf>, Memory>
    requires columns { widths.now.columns ≡ 2 }
    requires first { slice_index widths.now.bits 0 ≡ 2 }
    requires second { slice_index widths.now.bits 1 ≡ 1 }
    ensures zero { IfOk result (λ s. AreShelves widths.now 3 (map ⟦<OwnedShelf as Shelf>⟧.held s.zero.items)) }
    ensures one { IfOk result (λ s. AreShelves widths.now 3 (map ⟦<OwnedShelf as Shelf>⟧.held s.one.items)) }
    ensures two { IfOk result (λ s. AreShelves widths.now 3 (map ⟦<OwnedShelf as Shelf>⟧.held s.two.items)) }
{
    let zero = shelf(alloc, widths, 0)?;
    let one = shelf(alloc, widths, 1)?;
    let two = shelf(alloc, widths, 2)?;
    Ok(Servers { zero, one, two })
}

// The keys of a query for bucket 3 of the first column and, with two predicates, at most bucket 0 of the second one.
fn keys<R: Abort>(
    rt: &R,
    alloc: Global,
    widths: &Widths,
    aggregate: Aggregate,
    count: u8,
) -> Result<Keys, Memory>
    ensures widths { IfOk result (λ k. k.widths ≡ widths.now) }
    ensures count { IfOk result (λ k. k.query.count ≡ count) }
{
    let first = Predicate {
        column: 0,
        kind: Kind::Point,
        low: 3,
        high: 3,
    };
    let second = Predicate {
        column: 1,
        kind: Kind::AtMost,
        low: 0,
        high: 0,
    };
    let second = if count == 2 { second } else { BLANK };
    let query = Query {
        aggregate,
        count,
        predicates: [first, second, BLANK, BLANK],
    };
    assert!(rt; query.suits(widths));
    make_keys(alloc, &query, widths, &Seed { words: [9; 8] })
}

// Both runs over the rows.
fn ask<R: Threads + Sync>(
    rt: &R,
    alloc: Global,
    widths: &Widths,
    keys: &Keys,
    wire: &mut RecordWire,
    trace: &mut Trace,
) -> Result<OpenedPair, Memory>
    requires widths { keys.now.widths ≡ widths.now }
    requires columns { widths.now.columns ≡ 2 }
    requires first { slice_index widths.now.bits 0 ≡ 2 }
    requires second { slice_index widths.now.bits 1 ≡ 1 }
{
    let mut shelves = servers(alloc, widths)?;
    both_runs(rt, alloc, &mut shelves, keys, wire, trace)
}

#[test]
fn both_runs_open_a_sum(rt: HostRuntime) -> Result<(), Memory> {
    let alloc = rt.alloc();
    let widths = WIDTHS;
    let keys = keys(&rt, alloc, &widths, Aggregate::Sum, 1)?;
    let mut wire = RecordWire::new(alloc);
    let mut trace = Trace::new(alloc);
    let pair = ask(&rt, alloc, &widths, &keys, &mut wire, &mut trace)?;
    assert_eq!(rt; pair.total, 15);
    assert_eq!(rt; pair.weighted, mul(15, keys.key()));
    assert_eq!(rt; wire.messages().len(), 15);
    Ok(())
}

#[test]
fn two_predicates_have_a_product(rt: HostRuntime) -> Result<(), Memory> {
    let alloc = rt.alloc();
    let widths = WIDTHS;
    let keys = keys(&rt, alloc, &widths, Aggregate::Count, 2)?;
    let mut wire = RecordWire::new(alloc);
    let mut trace = Trace::new(alloc);
    let pair = ask(&rt, alloc, &widths, &keys, &mut wire, &mut trace)?;
    assert_eq!(rt; pair.total, 1);
    assert_eq!(rt; pair.weighted, keys.key());
    assert_eq!(rt; wire.messages().len(), 27);
    Ok(())
}

// Run 0 of a query with two predicates, step by step.
fn run_of_two<R: Threads + Sync>(
    rt: &R,
    alloc: Global,
    widths: &Widths,
    keys: &Keys,
    wire: &mut RecordWire,
) -> Result<Opened, Memory>
    requires widths { keys.now.widths ≡ widths.now }
    requires count { keys.now.query.count ≡ 2 }
    requires columns { widths.now.columns ≡ 2 }
    requires first { slice_index widths.now.bits 0 ≡ 2 }
    requires second { slice_index widths.now.bits 1 ≡ 1 }
{
    let mut shelves = servers(alloc, widths)?;
    let mut trace = Trace::new(alloc);
    let ready = Ready::send(alloc, keys, 3, wire, &mut trace)?;
    let bits = ready.bits(rt, alloc, 0, &mut shelves, wire, &mut trace)?;
    let product = bits.product(rt, alloc, &ready, wire, &mut trace)?;
    let more = product.bits(rt, alloc, &ready, &mut shelves, wire, &mut trace)?;
    let whole = more.product(rt, alloc, &ready, wire, &mut trace)?;
    whole.reveal(rt, alloc, &ready, &mut shelves, wire, &mut trace)
}

#[test]
fn a_run_goes_from_state_to_state(rt: HostRuntime) -> Result<(), Memory> {
    let alloc = rt.alloc();
    let widths = WIDTHS;
    let keys = keys(&rt, alloc, &widths, Aggregate::Sum, 2)?;
    let mut wire = RecordWire::new(alloc);
    let opened = run_of_two(&rt, alloc, &widths, &keys, &mut wire)?;
    assert_eq!(rt; opened.total, 10);
    assert_eq!(rt; wire.messages().len(), 15);
    Ok(())
}
