//! What a server does with its shelves.
ghost use Rattle.std.specs.Prelude.{◌≡◌, ◌*◌, ◌<◌, ◌≤◌, [], ◌∷◌, map, length, All, IfOk};
ghost use Rattle.list_facts.specs.Count.{total};
ghost use Rattle.list_facts.specs.Listed.{listed};
ghost use Rattle.share_product.specs.Product.{inner_of};
ghost use Rattle.scan_chunks.specs.Shelf.{IsShelf};
ghost use Rattle.scan_chunks.specs.Scan.{row_number};
ghost use Rattle.onehot_column.specs.Code.{width_of};
ghost use Rattle.server_rounds.specs.Shelves.{AreShelves, pieces_of};
ghost use Rattle.server_rounds.specs.Visits.{AreVisited};

use crate::plan::Plan;
use crate::values::inner_of_values;
use replicated_share::PairList;
use ring128::{Memory, Words};
use scan_chunks::{Shelf, read_column};
use std::alloc::Global;

/// How many rows shelves have together. Each says of itself that its columns are as long as its rows are wide.
pub fn count_rows<S: Shelf>(shelves: &[S]) -> u64
    requires { total (λ s. (S.held s).rows) shelves.now ≤ 65536 }
    ensures count { result ≡ total (λ s. (S.held s).rows) shelves.now }
    ensures shelves { All (λ s. IsShelf (S.held s)) shelves.now }
{
    let mut count = 0;
    for shelf in shelves {
        count += shelf.rows();
    }
    count
}

/// How many rows a server's shelves have, which is what the plan says.
pub(crate) fn rows_together<S: Shelf>(plan: &Plan, shelves: &[S]) -> u64
    requires { AreShelves plan.now.widths plan.now.rows (map S.held shelves.now) }
    ensures count { result ≡ plan.now.rows }
    ensures few { result ≤ 65536 }
    ensures shelves { All (λ s. IsShelf (S.held s)) shelves.now }
{
    plan.rows();
    count_rows(shelves)
}

/// The pairs of a server's rows at a column, row after row; the value's column is the last one.
pub(crate) fn read_cells<S: Shelf>(
    alloc: Global,
    plan: &Plan,
    shelves: &mut Vec<S>,
    column: u8,
) -> Result<PairList, Memory>
    requires shelves { AreShelves plan.now.widths plan.now.rows (map S.held shelves.old.items) }
    requires column { column ≤ plan.now.widths.columns }
    ensures held { map S.held shelves.new.items ≡ map S.held shelves.old.items }
    ensures first { IfOk result (λ p. p.first ≡ (pieces_of (map S.held shelves.old.items)).first column) }
    ensures second { IfOk result (λ p. p.second ≡ (pieces_of (map S.held shelves.old.items)).second column) }
    ensures long { IfOk result (λ p. length p.first ≡ plan.now.rows * width_of plan.now.widths column) }
    ensures visits { AreVisited S.held S.visited (column ∷ []) shelves.old.items shelves.new.items result }
{
    let rows = rows_together(plan, shelves.as_slice()) as usize;
    let mut first = Vec::with_capacity(alloc, rows)?;
    let mut second = Vec::with_capacity(alloc, rows)?;
    for i in 0..shelves.len() {
        let values = read_column(alloc, &mut shelves[i], column)?;
        first.extend_from_slice(values.first.as_slice())?;
        second.extend_from_slice(values.second.as_slice())?;
    }
    Ok(PairList {
        first: Words::from_vec(first),
        second: Words::from_vec(second),
    })
}

/// A server's part of the sum of the values of its rows, with a pair a row.
pub(crate) fn sum_values<S: Shelf>(
    plan: &Plan,
    pairs: &PairList,
    shelves: &mut Vec<S>,
) -> Result<u128, Memory>
    requires pairs { length pairs.now.first ≡ plan.now.rows }
    requires shelves { AreShelves plan.now.widths plan.now.rows (map S.held shelves.old.items) }
    ensures held { map S.held shelves.new.items ≡ map S.held shelves.old.items }
    ensures sum { let pieces = pieces_of (map S.held shelves.old.items) in
        let value = plan.now.widths.columns in
        IfOk result (λ n. n ≡ inner_of pairs.now.first pairs.now.second (pieces.first value) (pieces.second value)) }
    ensures visits { AreVisited S.held S.visited (plan.now.widths.columns ∷ []) shelves.old.items shelves.new.items result }
{
    let (first, second) = (pairs.first.as_slice(), pairs.second.as_slice());
    let sum = inner_of_values(plan.value(), first, second, shelves.as_mut_slice())?;
    Ok(sum)
}
