//! Running sums of rows: at each place of a row the sum of that place over this row and all rows before.
ghost use Rattle.std.specs.Prelude.{◌≡◌, ◌<◌, ◌≤◌, ◌+◌, ◌*◌, ◌^◌, ◌++◌, length, vec_len, vec_capacity, IfOk, OnOk, OnErr};
ghost use Rattle.list_facts.specs.Listed.{listed};
ghost use Rattle.ring128.specs.Ring.{minus, plus};
ghost use Rattle.scan_chunks.specs.Scan.{visits_of, VisitsPart};
ghost use Rattle.row_tree.specs.Running.{GrownFrom, before_of, cells_in, last_of};

use ring128::{Memory, add, sub};
use scan_chunks::Shelf;
use std::alloc::Global;

// The running sum of one more cell.
fn next(sums: &[u128], cell: u128, width: usize) -> u128
    requires some { 0 < width }
    ensures sum { result ≡ plus cell (last_of width sums.now (length sums.now)) }
    ensures small { cell < 2 ^ 128 }
{
    if sums.len() < width {
        cell
    } else {
        add(cell, sums[sums.len() - width])
    }
}

// Appends the running sums of more rows, for which there is room.
fn run_on(sums: &mut Vec<u128>, cells: &[u128], width: usize)
    requires some { 0 < width }
    requires room { vec_len sums.old + length cells.now ≤ vec_capacity sums.old }
    ensures cells { cells_in width sums.new.items ≡ cells_in width sums.old.items ++ cells.now }
    ensures grown { GrownFrom sums.old.items sums.new.items }
    ensures room { vec_capacity sums.new ≡ vec_capacity sums.old }
{
    for cell in cells {
        let sum = next(sums.as_slice(), *cell, width);
        sums.push_reserved(sum);
    }
}

/// Appends the running sums of a shelf's rows at a column, for which there is room, chunk by chunk from what the shelf lends. Each
/// chunk of the column is visited once, rising. The only error is out of memory, by the shelf; the sums of the first chunks were
/// then appended, and the visits are the first of these.
pub(crate) fn run_chunks<S: Shelf>(
    shelf: &mut S,
    column: u8,
    width: usize,
    first: &mut Vec<u128>,
    second: &mut Vec<u128>,
) -> Result<(), Memory>
    requires some { 0 < width }
    requires column { column ≤ (S.held shelf.old).columns }
    requires width { (S.held shelf.old).width column ≡ width }
    requires first_room { vec_len first.old + (S.held shelf.old).rows * width ≤ vec_capacity first.old }
    requires second_room { vec_len second.old + (S.held shelf.old).rows * width ≤ vec_capacity second.old }
    ensures held { S.held shelf.new ≡ S.held shelf.old }
    ensures first { let pieces = (S.held shelf.old).pieces in
        OnOk result (cells_in width first.new.items ≡ cells_in width first.old.items ++ pieces.first column) }
    ensures second { let pieces = (S.held shelf.old).pieces in
        OnOk result (cells_in width second.new.items ≡ cells_in width second.old.items ++ pieces.second column) }
    ensures first_grown { GrownFrom first.old.items first.new.items }
    ensures second_grown { GrownFrom second.old.items second.new.items }
    ensures visits { OnOk result (S.visited shelf.new ≡ S.visited shelf.old ++ visits_of (S.held shelf.old) column) }
    ensures part { OnErr result (VisitsPart (S.visited shelf.old) (S.visited shelf.new) (visits_of (S.held shelf.old) column)) }
{
    let rows = shelf.rows() as usize;
    let start = shelf.first();
    for c in 0..rows.div_ceil(64) {
        let lent = shelf.chunk(start + c as u32, column)?;
        run_on(first, lent.first, width);
        run_on(second, lent.second, width);
    }
    Ok(())
}

// A cell of the sum of the rows before a place.
fn total_before(sums: &[u128], rows: usize, width: usize, place: usize, bucket: usize) -> u128
    requires long { length sums.now ≡ rows * width }
    requires place { place ≤ rows }
    requires bucket { bucket < width }
    ensures { result ≡ before_of width sums.now place bucket }
{
    if place == 0 {
        0
    } else {
        sums[(place - 1) * width + bucket]
    }
}

/// The sum of the rows from a place to the one before another.
pub(crate) fn sum_between(
    alloc: Global,
    sums: &[u128],
    rows: usize,
    width: usize,
    from: usize,
    to: usize,
) -> Result<Vec<u128>, Memory>
    requires long { length sums.now ≡ rows * width }
    requires from { from ≤ rows }
    requires to { to ≤ rows }
    ensures { IfOk result (λ words. words.items
        ≡ listed width (λ b. minus (before_of width sums.now to b) (before_of width sums.now from b))) }
{
    let mut words = Vec::with_capacity(alloc, width)?;
    for b in 0..width {
        let all = total_before(sums, rows, width, to, b);
        let less = total_before(sums, rows, width, from, b);
        words.push(sub(all, less))?;
    }
    Ok(words)
}
