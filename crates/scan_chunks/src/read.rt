ghost use Rattle.std.specs.Prelude.{◌≡◌, ◌≤◌, ◌++◌, length, IfOk, OnOk, OnErr};
ghost use Rattle.scan_chunks.specs.Scan.{visits_of, VisitsPart};

use crate::shelf::Shelf;
use replicated_share::PairList;
use ring128::{Memory, Words};
use std::alloc::Global;

/// The pairs of a column, row after row. Each chunk of the column is visited once, rising. The only error
/// is out of memory; the visits are then the first of these.
pub fn read_column<S: Shelf>(alloc: Global, shelf: &mut S, column: u8) -> Result<PairList, Memory>
    requires column { column ≤ (S.held shelf.old).columns }
    ensures held { S.held shelf.new ≡ S.held shelf.old }
    ensures first { IfOk result (λ p. p.first ≡ (S.held shelf.old).pieces.first column) }
    ensures second { IfOk result (λ p. p.second ≡ (S.held shelf.old).pieces.second column) }
    ensures visits { OnOk result (S.visited shelf.new ≡ S.visited shelf.old ++ visits_of (S.held shelf.old) column) }
    ensures part { OnErr result (VisitsPart (S.visited shelf.old) (S.visited shelf.new) (visits_of (S.held shelf.old) column)) }
{
    let rows = shelf.rows() as usize;
    let start = shelf.first();
    let mut first = Vec::with_capacity(alloc, rows)?;
    let mut second = Vec::with_capacity(alloc, rows)?;
    for c in 0..rows.div_ceil(64) {
        let lent = shelf.chunk(start + c as u32, column)?;
        first.extend_from_slice(lent.first)?;
        second.extend_from_slice(lent.second)?;
    }
    Ok(PairList {
        first: Words::from_vec(first),
        second: Words::from_vec(second),
    })
}
