ghost use Rattle.std.specs.Prelude.{◌≡◌, ◌≤◌, ◌<◌, ◌+◌, ◌*◌, ◌++◌, length, vec_len, vec_capacity, IfOk, OnOk, OnErr};
ghost use Rattle.list_facts.specs.Listed.{listed};
ghost use Rattle.scan_chunks.specs.Pieces.{row_of};
ghost use Rattle.scan_chunks.specs.Scan.{row_number, scan_of, visits_of, VisitsPart};

use crate::shelf::{Lent, Shelf};
use crate::tables::Tables;
use ring128::{Memory, Words, add, dot};
use std::alloc::Global;

/// A number a row: the dot product of the row's firsts in a column with the table `zero`, and that of its seconds with
/// the table `one`. Each chunk of the column is visited once, rising. The only error is out of memory; the visits are
/// then the first of these.
pub fn scan_one<S: Shelf>(
    alloc: Global,
    shelf: &mut S,
    column: u8,
    tables: &Tables,
) -> Result<Words, Memory>
    requires column { column ≤ (S.held shelf.old).columns }
    requires zero { length tables.now.zero ≡ (S.held shelf.old).width column }
    requires one { length tables.now.one ≡ (S.held shelf.old).width column }
    ensures held { S.held shelf.new ≡ S.held shelf.old }
    ensures numbers { IfOk result (λ w. w ≡ scan_of (S.held shelf.old) column tables.now.zero tables.now.one) }
    ensures visits { OnOk result (S.visited shelf.new ≡ S.visited shelf.old ++ visits_of (S.held shelf.old) column) }
    ensures part { OnErr result (VisitsPart (S.visited shelf.old) (S.visited shelf.new) (visits_of (S.held shelf.old) column)) }
{
    let mut numbers = Vec::new(alloc);
    append_scan(&mut numbers, shelf, column, tables)?;
    Ok(Words::from_vec(numbers))
}

/// Appends the numbers of a shelf.
pub(crate) fn append_scan<S: Shelf>(
    numbers: &mut Vec<u128>,
    shelf: &mut S,
    column: u8,
    tables: &Tables,
) -> Result<(), Memory>
    requires column { column ≤ (S.held shelf.old).columns }
    requires zero { length tables.now.zero ≡ (S.held shelf.old).width column }
    requires one { length tables.now.one ≡ (S.held shelf.old).width column }
    ensures held { S.held shelf.new ≡ S.held shelf.old }
    ensures numbers { OnOk result (numbers.new.items
        ≡ numbers.old.items ++ scan_of (S.held shelf.old) column tables.now.zero tables.now.one) }
    ensures visits { OnOk result (S.visited shelf.new ≡ S.visited shelf.old ++ visits_of (S.held shelf.old) column) }
    ensures part { OnErr result (VisitsPart (S.visited shelf.old) (S.visited shelf.new) (visits_of (S.held shelf.old) column)) }
{
    let rows = shelf.rows() as usize;
    let start = shelf.first();
    let width = shelf.width(column) as usize;
    numbers.reserve(rows)?;
    for c in 0..rows.div_ceil(64) {
        let lent = shelf.chunk(start + c as u32, column)?;
        let count = 64.min(rows - 64 * c);
        scan_chunk(numbers, &lent, count, width, tables);
    }
    Ok(())
}

// Appends a number for each row of a chunk.
fn scan_chunk(numbers: &mut Vec<u128>, lent: &Lent, count: usize, width: usize, tables: &Tables)
    requires zero { length tables.now.zero ≡ width }
    requires one { length tables.now.one ≡ width }
    requires first { length lent.now.first.now ≡ count * width }
    requires second { length lent.now.second.now ≡ count * width }
    requires room { vec_len numbers.old + count ≤ vec_capacity numbers.old }
    ensures numbers { numbers.new.items
        ≡ numbers.old.items ++ listed count (row_number tables.now.zero tables.now.one width lent.now.first.now lent.now.second.now) }
    ensures length { vec_len numbers.new ≡ vec_len numbers.old + count }
    ensures room { vec_capacity numbers.new ≡ vec_capacity numbers.old }
{
    let zero = tables.zero.as_slice();
    let one = tables.one.as_slice();
    for i in 0..count {
        let first = row(lent.first, i, count, width);
        let second = row(lent.second, i, count, width);
        numbers.push_reserved(add(dot(zero, first), dot(one, second)));
    }
}

/// Row i of `count` rows of a column of this width.
pub fn row(cells: &[u128], i: usize, count: usize, width: usize) -> &[u128]
    requires long { length cells.now ≡ count * width }
    requires there { i < count }
    ensures row { result.now ≡ row_of width i cells.now }
    ensures long { length result.now ≡ width }
{
    &cells[i * width..i * width + width]
}
