ghost use Rattle.std.specs.Prelude.{◌≡◌, ◌≤◌, ◌+◌, ◌*◌, length, IfOk};
ghost use Rattle.scan_chunks.specs.Pieces.{chunks_of};

use super::*;
use ring128::{Memory, Words};
use std::alloc::Global;

// A column of two cells a row. Row r has the firsts r and 1, and the seconds 2 and r; the rows begin with `from`.
fn pairs(alloc: Global, rows: u64, from: u64) -> Result<Column, Memory>
    requires few { rows ≤ 65536 }
    requires small { from ≤ 65536 }
    ensures width { IfOk result (λ c. c.width ≡ 2) }
    ensures first { IfOk result (λ c. length c.first ≡ 2 * rows) }
    ensures second { IfOk result (λ c. length c.second ≡ 2 * rows) }
{
    let mut first = Vec::with_capacity(alloc, 2 * rows as usize)?;
    let mut second = Vec::with_capacity(alloc, 2 * rows as usize)?;
    for r in 0..rows {
        first.push(u128::from(from + r))?;
        first.push(1)?;
        second.push(2)?;
        second.push(u128::from(from + r))?;
    }
    Ok(Column {
        width: 2,
        first: Words::from_vec(first),
        second: Words::from_vec(second),
    })
}

// The column of the value, 7 and 9 in each row.
fn values(alloc: Global, rows: u64) -> Result<Column, Memory>
    requires { rows ≤ 65536 }
    ensures width { IfOk result (λ c. c.width ≡ 1) }
    ensures first { IfOk result (λ c. length c.first ≡ rows) }
    ensures second { IfOk result (λ c. length c.second ≡ rows) }
{
    Ok(Column {
        width: 1,
        first: Words::from_vec(vec![in alloc; 7; rows as usize]?),
        second: Words::from_vec(vec![in alloc; 9; rows as usize]?),
    })
}

// A shelf of these two columns.
fn shelf(alloc: Global, rows: u64, start: u32) -> Result<OwnedShelf, Memory>
    requires { start + chunks_of rows ≤ 1024 }
    ensures columns { IfOk result (λ s. (⟦<OwnedShelf as Shelf>⟧.held s).columns ≡ 1) }
    ensures pairs { IfOk result (λ s. (⟦<OwnedShelf as Shelf>⟧.held s).width 0 ≡ 2) }
    ensures values { IfOk result (λ s. (⟦<OwnedShelf as Shelf>⟧.held s).width 1 ≡ 1) }
{
    let mut columns = Vec::with_capacity(alloc, 2)?;
    columns.push(pairs(alloc, rows, 64 * u64::from(start))?)?;
    columns.push(values(alloc, rows)?)?;
    Ok(OwnedShelf::new(alloc, rows, start, columns))
}

fn tables(alloc: Global) -> Result<Tables, Memory>
    ensures zero { IfOk result (λ t. length t.zero ≡ 2) }
    ensures one { IfOk result (λ t. length t.one ≡ 2) }
{
    Ok(Tables {
        zero: Words::from_vec(vec![in alloc; 1, 10]?),
        one: Words::from_vec(vec![in alloc; 100, 1000]?),
    })
}

// By hand: r * 1 + 1 * 10 + 2 * 100 + r * 1000.
fn are_wanted(numbers: &Words, rows: u128) -> bool {
    numbers.len() as u128 == rows
        && numbers
            .as_slice()
            .iter()
            .enumerate()
            .all(|(r, x)| *x == 1001 * r as u128 + 210)
}

fn visit(column: u8, chunk: u32) -> Visit {
    Visit { column, chunk }
}

#[test]
fn a_scan_gives_a_number_a_row(rt: HostRuntime) -> Result<(), Memory> {
    let alloc = rt.alloc();
    for (rows, chunks) in [(0, 0), (1, 1), (64, 1), (65, 2), (130, 3)] {
        let mut whole = shelf(alloc, rows, 0)?;
        let numbers = scan_one(alloc, &mut whole, 0, &tables(alloc)?)?;
        assert!(rt; are_wanted(&numbers, u128::from(rows)), "{rows} rows");
        let wanted = [visit(0, 0), visit(0, 1), visit(0, 2)];
        assert_eq!(rt; whole.visits(), &wanted[..chunks], "{rows} rows");
    }
    Ok(())
}

#[test]
fn parts_are_scanned_as_the_whole(rt: HostRuntime) -> Result<(), Memory> {
    let alloc = rt.alloc();
    let mut parts = vec![in alloc; shelf(alloc, 64, 0)?, shelf(alloc, 1, 1)?]?;
    let numbers = scan_many(&rt, alloc, &mut parts, 0, &tables(alloc)?)?;
    assert!(rt; are_wanted(&numbers, 65));
    assert_eq!(rt; parts[0].visits(), [visit(0, 0)].as_slice());
    assert_eq!(rt; parts[1].visits(), [visit(0, 1)].as_slice());
    Ok(())
}

#[test]
fn a_column_is_read(rt: HostRuntime) -> Result<(), Memory> {
    let alloc = rt.alloc();
    let mut whole = shelf(alloc, 65, 3)?;
    assert_eq!(rt;
        (whole.rows(), whole.first(), whole.width(0), whole.width(1)),
        (65, 3, 2, 1)
    );
    let pairs = read_column(alloc, &mut whole, 1)?;
    assert_eq!(rt; pairs.len(), 65);
    assert!(rt; pairs.first.as_slice().iter().all(|x| *x == 7));
    assert!(rt; pairs.second.as_slice().iter().all(|x| *x == 9));
    assert_eq!(rt; whole.visits(), [visit(1, 3), visit(1, 4)].as_slice());
    Ok(())
}
