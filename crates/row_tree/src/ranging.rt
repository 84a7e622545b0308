//! The sum of the lists of some nodes.
ghost use Rattle.std.specs.Prelude.{◌≡◌, [], All, OnOk};
ghost use Rattle.std.specs.List.{flat_map};
ghost use Rattle.row_tree.specs.Cover.{places_of};
ghost use Rattle.row_tree.specs.Sums.{sum_rows};
ghost use Rattle.row_tree.specs.Tree.{IsThere, IsVisited};

use crate::node::Node;
use crate::tree::RowTree;
use ring128::{Memory, add_into};

/// Adds the lists of nodes that are there to two lists of zeros. Each node is visited once, in order. The only error is out of
/// memory; the first of these nodes were then visited.
pub(crate) fn add_nodes(
    tree: &mut RowTree,
    nodes: &[Node],
    first: &mut [u128],
    second: &mut [u128],
) -> Result<(), Memory>
    requires there { All (IsThere tree.old.rows) nodes.now }
    requires first { first.old ≡ sum_rows tree.old.width tree.old.first [] }
    requires second { second.old ≡ sum_rows tree.old.width tree.old.second [] }
    ensures first { OnOk result (first.new ≡ sum_rows tree.old.width tree.old.first (flat_map places_of nodes.now)) }
    ensures second { OnOk result (second.new ≡ sum_rows tree.old.width tree.old.second (flat_map places_of nodes.now)) }
    ensures visits { IsVisited nodes.now tree.old tree.new result }
{
    for node in nodes {
        let lent = tree.node(*node)?;
        add_into(first, lent.first);
        add_into(second, lent.second);
    }
    Ok(())
}
