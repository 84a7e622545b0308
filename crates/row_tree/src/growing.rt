//! A tree over the rows of several shelves.
ghost use Rattle.std.specs.Prelude.{◌≡◌, ◌+◌, ◌≤◌, ◌++◌, All, OnOk, map};
ghost use Rattle.scan_chunks.specs.Shelf.{Held};
ghost use Rattle.server_rounds.specs.Shelves.{pieces_of, rows_of};

use crate::tree::RowTree;
use ring128::Memory;
use scan_chunks::Shelf;
use std::alloc::Global;

/// Appends the rows of shelves, one shelf's after another's. The only error is out of memory; the rows of the first shelves were then
/// appended.
pub fn add_shelves<S: Shelf>(
    alloc: Global,
    tree: &mut RowTree,
    shelves: &mut Vec<S>,
) -> Result<(), Memory>
    requires columns { All (λ (h : Held). tree.old.column ≤ h.columns) (map S.held shelves.old.items) }
    requires width { All (λ (h : Held). h.width tree.old.column ≡ tree.old.width) (map S.held shelves.old.items) }
    requires few { tree.old.rows + rows_of (map S.held shelves.old.items) ≤ 65536 }
    ensures rows { let pieces = pieces_of (map S.held shelves.old.items) in OnOk result (tree.new ≡ record tree.old {
      rows = tree.old.rows + rows_of (map S.held shelves.old.items);
      first = tree.old.first ++ pieces.first tree.old.column;
      second = tree.old.second ++ pieces.second tree.old.column;
    }) }
{
    for i in 0..shelves.len() {
        tree.add_rows(alloc, &mut shelves[i])?;
    }
    Ok(())
}
