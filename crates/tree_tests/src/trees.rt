ghost use Rattle.std.specs.Prelude.{◌≡◌, ◌≤◌, ◌<◌, ◌*◌, length, IfOk};

use prg_chacha::Seed;
use query_plan::{Predicate, Query, make_keys};
use ring128::{Memory, Words, add, mul, sub};
use row_tree::{Node, RowTree, TreePair, Trees, cover, tree_runs};
use scan_chunks::{Column, OwnedShelf, Shelf};
use std::alloc::Global;
use std::process::Abort;
use std::test::Fail;
use table_schema::{Aggregate, Kind, Widths};
use wire_line::RecordWire;

// A column of four buckets.
const WIDTHS: Widths = Widths {
    columns: 1,
    bits: [2, 0, 0, 0, 0, 0],
};

const BLANK: Predicate = Predicate {
    column: 0,
    kind: Kind::Point,
    low: 0,
    high: 0,
};

const ROWS: [u64; 6] = [1, 8, 63, 64, 65, 65_536];

// Share k of the cells of rows, of which row i has bucket i modulo 4: a cell and 7, or minus 4, or minus 3.
fn share(alloc: Global, rows: u64, k: u8) -> Result<Words, Memory>
    requires few { rows ≤ 65536 }
    ensures { IfOk result (λ w. length w ≡ rows * 4) }
{
    let mut words = Vec::with_capacity(alloc, rows as usize * 4)?;
    for c in 0..rows as usize * 4 {
        let cell = if c / 4 % 4 == c % 4 { 1 } else { 0 };
        words.push(match k {
            0 => add(cell, 7),
            1 => sub(0, 4),
            _ => sub(0, 3),
        })?;
    }
    Ok(Words::from_vec(words))
}

// The values, which no tree reads.
fn values(alloc: Global, rows: u64) -> Result<Column, Memory>
    requires few { rows ≤ 65536 }
    ensures width { IfOk result (λ c. c.width ≡ 1) }
    ensures first { IfOk result (λ c. length c.first ≡ rows) }
    ensures second { IfOk result (λ c. length c.second ≡ rows) }
{
    let first = vec![in alloc; 0; rows as usize]?;
    let second = vec![in alloc; 0; rows as usize]?;
    Ok(Column {
        width: 1,
        first: Words::from_vec(first),
        second: Words::from_vec(second),
    })
}

// What server k holds of these rows.
fn shelf(alloc: Global, rows: u64, k: u8) -> Result<OwnedShelf, Memory>
    requires few { rows ≤ 65536 }
    requires k { k < 3 }
    ensures columns { IfOk result (λ s. let h = ⟦<OwnedShelf as Shelf>⟧.held s in h.columns ≡ 1) }
    ensures width { IfOk result (λ s. let h = ⟦<OwnedShelf as Shelf>⟧.held s in h.width 0 ≡ 4) }
    ensures rows { IfOk result (λ s. let h = ⟦<OwnedShelf as Shelf>⟧.held s in h.rows ≡ rows) }
{
    let column = Column {
        width: 4,
        first: share(alloc, rows, k)?,
        second: share(alloc, rows, (k + 1) % 3)?,
    };
    let columns = vec![in alloc; column, values(alloc, rows)?]?;
    Ok(OwnedShelf::new(alloc, rows, 0, columns))
}

// The tree of server k over these rows.
fn tree(alloc: Global, rows: u64, k: u8) -> Result<RowTree, Memory>
    requires few { rows ≤ 65536 }
    requires k { k < 3 }
    ensures rows { IfOk result (λ t. t.rows ≡ rows) }
    ensures width { IfOk result (λ t. t.width ≡ 4) }
{
    let mut shelf = shelf(alloc, rows, k)?;
    let mut tree = RowTree::new(alloc, 0, 4);
    tree.add_rows(alloc, &mut shelf)?;
    Ok(tree)
}

// What the rows of bucket 1 in a range come to, with how many messages there were and how many nodes each tree lent.
fn counted<R: Abort>(
    rt: &R,
    alloc: Global,
    rows: u64,
    low: u64,
    high: u64,
) -> Result<(TreePair, u128, usize, usize), Memory>
    requires few { rows ≤ 65536 }
    requires order { low ≤ high }
    requires there { high ≤ rows }
{
    let one = Predicate {
        column: 0,
        kind: Kind::Point,
        low: 1,
        high: 1,
    };
    let query = Query {
        aggregate: Aggregate::Count,
        count: 1,
        predicates: [one, BLANK, BLANK, BLANK],
    };
    assert!(rt; query.suits(&WIDTHS));
    let keys = make_keys(alloc, &query, &WIDTHS, &Seed { words: [9; 8] })?;
    let mut trees = Trees {
        zero: tree(alloc, rows, 0)?,
        one: tree(alloc, rows, 1)?,
        two: tree(alloc, rows, 2)?,
    };
    let mut wire = RecordWire::new(alloc);
    let pair = tree_runs(alloc, &mut trees, &keys, low, high, &mut wire)?;
    assert_eq!(rt; trees.zero.visits(), trees.one.visits());
    assert_eq!(rt; trees.zero.visits(), trees.two.visits());
    let nodes = trees.zero.visits().len();
    Ok((pair, keys.key(), wire.messages().len(), nodes))
}

// How many of the places from low to high - 1 have bucket 1.
fn plain(low: u64, high: u64) -> u128
    requires few { high ≤ 65536 }
{
    let mut count = 0;
    for place in low..high {
        if place % 4 == 1 {
            count += 1;
        }
    }
    count
}

// Asks over a range, which is there.
fn check_range<R: Abort>(
    rt: &R,
    alloc: Global,
    rows: u64,
    low: u64,
    high: u64,
) -> Result<(), Memory> {
    assert!(rt; low <= high && high <= rows && rows <= 65_536);
    let (pair, key, messages, nodes) = counted(rt, alloc, rows, low, high)?;
    let count = plain(low, high);
    assert_eq!(rt; pair.total, count, "{rows}: {low} to {high}");
    assert_eq!(rt; pair.weighted, mul(key, count), "{rows}: {low} to {high}");
    assert_eq!(rt; messages, 9);
    assert_eq!(rt; nodes, cover(alloc, low, high)?.len());
    Ok(())
}

// Whole ranges, empty ones, single places, and some in between.
#[test]
fn ranges_are_counted(rt: HostRuntime) -> Result<(), Fail> {
    let alloc = rt.alloc();
    for rows in ROWS {
        assert!(rt; 0 < rows && rows <= 65_536);
        let ranges = [
            (0, rows),
            (rows / 2, rows / 2),
            (rows - 1, rows),
            (rows / 3, rows - rows / 5),
        ];
        for (low, high) in ranges {
            check_range(&rt, alloc, rows, low, high)
                .ok()
                .ok_or("memory")?;
        }
    }
    Ok(())
}

// The list of a node is the sum of its rows: 16 rows have each bucket four times.
#[test]
fn a_node_is_the_sum_of_its_rows(rt: HostRuntime) -> Result<(), Fail> {
    let mut tree = tree(rt.alloc(), 64, 0).ok().ok_or("memory")?;
    let node = Node {
        height: 4,
        index: 2,
    };
    assert_eq!(rt; tree.rows(), 64);
    let lent = tree.node(node).ok().ok_or("memory")?;
    assert!(rt; lent.first == [116, 116, 116, 116].as_slice());
    let four = sub(0, 64);
    assert!(rt; lent.second == [four, four, four, four].as_slice());
    Ok(())
}
