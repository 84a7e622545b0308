//! Laws of the definitions, as functions without effect.

ghost use Rattle.std.specs.Prelude.{◌≤◌, ◌<◌, ◌+◌, ◌*◌, ◌^◌, length};
ghost use Rattle.row_tree.specs.Cover.{cover_of};
ghost use Rattle.row_tree.specs.Laws.{CoverTiles, TreesOpen};

/// The places of the nodes of a range, one node's after another's, are just those of the range, in order.
pub fn cover_tiles()
    ensures { CoverTiles }
{}

/// Where there are at least 2^height rows, and fewer than 2^(height + 1), a range has at most 2 * (height + 1) nodes.
pub fn cover_bound(rows: u64, low: u64, high: u64, height: u8)
    requires order { low ≤ high }
    requires there { high ≤ rows }
    requires few { rows ≤ 65536 }
    requires least { 2 ^ height ≤ rows }
    requires below { rows < 2 ^ (height + 1) }
    ensures { length (cover_of low high) ≤ 2 * (height + 1) }
{}

/// Where nothing was altered, run 0 opens the number of the rows in the range that pass, and run 1 the key times it.
pub fn trees_open()
    ensures { TreesOpen }
{}
