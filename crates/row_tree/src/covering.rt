ghost use Rattle.std.specs.Prelude.{◌≡◌, ◌+◌, ◌<◌, ◌≤◌, ◌^◌, IfOk, IsTrue, ◌↔◌};
ghost use Rattle.row_tree.specs.Cover.{can_begin, cover_of, first_node, height_at};

use crate::node::Node;
use ring128::Memory;
use std::alloc::Global;

// Whether a node of this height can begin the cover of the places from low to high - 1.
fn begins(low: u64, high: u64, height: u8) -> bool
    requires height { height ≤ 16 }
    requires few { high ≤ 65536 }
    requires low { low ≤ high }
    ensures { result ≡ can_begin low high height }
{
    let size = 1u64 << height;
    low % size == 0 && low + size <= high
}

// The height of the first node.
fn height_of(low: u64, high: u64) -> u8
    requires few { high ≤ 65536 }
    requires some { low < high }
    ensures value { result ≡ height_at low high }
    ensures small { result ≤ 16 }
    ensures within { low + 2 ^ result ≤ high }
{
    let mut height = 16;
    while height > 0 && !begins(low, high, height) {
        height -= 1;
    }
    height
}

// The first node.
fn first(low: u64, high: u64) -> Node
    requires few { high ≤ 65536 }
    requires some { low < high }
    ensures node { result ≡ first_node low high }
    ensures small { result.height ≤ 16 }
    ensures within { low + 2 ^ result.height ≤ high }
{
    let height = height_of(low, high);
    Node {
        height,
        index: (low / (1u64 << height)) as u32,
    }
}

/// The nodes that the places from low to high - 1 are cut into, in the order of their places: each is the greatest that begins where
/// the one before it ends. The only error is out of memory.
pub fn cover(alloc: Global, low: u64, high: u64) -> Result<Vec<Node>, Memory>
    requires order { low ≤ high }
    requires few { high ≤ 65536 }
    ensures { IfOk result (λ nodes. nodes.items ≡ cover_of low high) }
{
    let mut nodes = Vec::new(alloc);
    let mut place = low;
    while place < high {
        let node = first(place, high);
        nodes.push(node)?;
        place += 1u64 << node.height;
    }
    Ok(nodes)
}
