//! A query with one predicate over three trees.
ghost use Rattle.std.specs.Prelude.{◌≡◌, ◌≤◌, All, List, IfOk, length};
ghost use Rattle.std.specs.List.{flat_map};
ghost use Rattle.onehot_column.specs.Code.{width_of};
ghost use Rattle.wire_line.specs.declared.message.Message.{Message};
ghost use Rattle.wire_line.specs.Messages.{Went};
ghost use Rattle.transcript.specs.Setup.{column_of};
ghost use Rattle.server_rounds.specs.Plans.{sizes_for};
ghost use Rattle.row_tree.specs.Cover.{cover_of, places_of};
ghost use Rattle.row_tree.specs.Rounds.{IsTreePart, IsTreeTranscript, sides_over, tree_opened};
ghost use Rattle.row_tree.specs.Sides.{AreSums};
ghost use Rattle.row_tree.specs.Sums.{sum_rows};
ghost use Rattle.row_tree.specs.Tree.{AreVisited, IsThere, IsVisited};

use crate::covering::cover;
use crate::exchange::{TreePair, exchange};
use crate::node::Node;
use crate::opening::Sums;
use crate::ranging::add_nodes;
use crate::tree::RowTree;
use query_plan::Keys;
use ring128::Memory;
use std::alloc::Global;
use wire_line::Wire;

/// The trees of the three servers, over one column.
#[derive(Drop)]
pub struct Trees {
    pub zero: RowTree,
    pub one: RowTree,
    pub two: RowTree,
}

// The sums of the three servers.
#[derive(Drop)]
struct ThreeSums {
    zero: Sums,
    one: Sums,
    two: Sums,
}

// A server's two sums over nodes that are there.
fn node_sums(alloc: Global, tree: &mut RowTree, nodes: &[Node]) -> Result<Sums, Memory>
    requires there { All (IsThere tree.old.rows) nodes.now }
    ensures first { IfOk result (λ s. s.first.items ≡ sum_rows tree.old.width tree.old.first (flat_map places_of nodes.now)) }
    ensures second { IfOk result (λ s. s.second.items ≡ sum_rows tree.old.width tree.old.second (flat_map places_of nodes.now)) }
    ensures visits { IsVisited nodes.now tree.old tree.new result }
{
    let width = tree.width() as usize;
    let mut first = vec![in alloc; 0; width]?;
    let mut second = vec![in alloc; 0; width]?;
    add_nodes(tree, nodes, first.as_mut_slice(), second.as_mut_slice())?;
    Ok(Sums { first, second })
}

// The sums of the three servers over the range.
fn range_sums(alloc: Global, trees: &mut Trees, low: u64, high: u64) -> Result<ThreeSums, Memory>
    requires one { trees.old.one.rows ≡ trees.old.zero.rows }
    requires two { trees.old.two.rows ≡ trees.old.zero.rows }
    requires order { low ≤ high }
    requires there { high ≤ trees.old.zero.rows }
    ensures zero { IfOk result (λ s. AreSums trees.old.zero low high s.zero) }
    ensures one { IfOk result (λ s. AreSums trees.old.one low high s.one) }
    ensures two { IfOk result (λ s. AreSums trees.old.two low high s.two) }
    ensures visits { AreVisited (cover_of low high) trees.old trees.new result }
{
    trees.zero.rows();
    let nodes = cover(alloc, low, high)?;
    let zero = node_sums(alloc, &mut trees.zero, nodes.as_slice())?;
    let one = node_sums(alloc, &mut trees.one, nodes.as_slice())?;
    let two = node_sums(alloc, &mut trees.two, nodes.as_slice())?;
    Ok(ThreeSums { zero, one, two })
}

/// Counts the rows at the places from low to high - 1 that pass the one predicate of a query. Each server sums the lists of the
/// nodes of the range, each node once for both runs, and nine messages are carried: three of keys, and in run 0 and then run 1 a word
/// of each server to the client. The trees are over one column, that of the predicate, and have the same number of rows. The only
/// error is out of memory; the messages and each tree's visits are then the first of these.
pub fn tree_runs<W: Wire>(
    alloc: Global,
    trees: &mut Trees,
    keys: &Keys,
    low: u64,
    high: u64,
    wire: &mut W,
) -> Result<TreePair, Memory>
    requires one { trees.old.one.rows ≡ trees.old.zero.rows }
    requires two { trees.old.two.rows ≡ trees.old.zero.rows }
    requires width { trees.old.zero.width ≡ width_of keys.now.widths (column_of (sizes_for keys.now trees.old.zero.rows) 0) }
    requires one_width { trees.old.one.width ≡ trees.old.zero.width }
    requires two_width { trees.old.two.width ≡ trees.old.zero.width }
    requires order { low ≤ high }
    requires there { high ≤ trees.old.zero.rows }
    ensures messages { let s = sides_over keys.now trees.old.zero trees.old.one trees.old.two low high in
        (ms : List Message) × Went W.sight wire.old ms wire.new
        × IsTreePart s ms
        × IfOk result (λ pair. IsTreeTranscript s ms × (pair.total ≡ tree_opened ms 0) × (pair.weighted ≡ tree_opened ms 1)) }
    ensures visits { AreVisited (cover_of low high) trees.old trees.new result }
{
    let rows = trees.zero.rows();
    let sums = range_sums(alloc, trees, low, high)?;
    let pair = exchange(alloc, keys, rows, &sums.zero, &sums.one, &sums.two, wire)?;
    Ok(pair)
}
