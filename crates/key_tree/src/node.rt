ghost use Rattle.std.specs.Prelude.{◌≡◌};

use crate::Level;
use prg_chacha::{Seed, Side, convert, expand, xor};
use ring128::{Party, add};

/// A node of one party: its seed, and its control bit, which says whether the party takes the
/// corrections here.
#[derive(Clone, Copy, Debug, PartialEq, Eq)]
pub struct Node {
    pub seed: Seed,
    pub bit: bool,
}

impl Node {
    ghost use Rattle.key_tree.specs.Tree.{step, start, leaf_number, corrected};

    /// The node where a party starts: its root, with the bit set for party 1.
    pub fn start(party: Party, root: &Seed) -> Node
        ensures { result ≡ start party root.now }
    {
        Node {
            seed: *root,
            bit: party == Party::One,
        }
    }

    /// The child on a side, with the correction of the level taken where the bit is set.
    #[tactic(auto, unfolding(crate::specs::Tree::step))]
    pub fn step(&self, level: &Level, side: Side) -> Node
        ensures { result ≡ step level.now side self.now }
    {
        let (left, right) = self.children(level);
        match side {
            Side::Left => left,
            Side::Right => right,
        }
    }

    /// The children on the left and on the right, each as [`Node::step`] gives it, for the price of one
    /// expansion.
    #[tactic(auto, unfolding(crate::specs::Tree::step))]
    pub fn children(&self, level: &Level) -> (Node, Node)
        ensures left { result.0 ≡ step level.now Side.Left self.now }
        ensures right { result.1 ≡ step level.now Side.Right self.now }
    {
        let children = expand(&self.seed);
        let left = Node {
            seed: children.left,
            bit: children.left_bit,
        };
        let right = Node {
            seed: children.right,
            bit: children.right_bit,
        };
        (
            left.corrected(self.bit, level, Side::Left),
            right.corrected(self.bit, level, Side::Right),
        )
    }

    /// The number that is drawn at a leaf: what its seed converts to, plus the last word where its bit
    /// is set.
    pub fn number(&self, last: u128) -> u128
        ensures { result ≡ leaf_number last self.now }
    {
        let correction = if self.bit { last } else { 0 };
        add(convert(&self.seed), correction)
    }

    // The node with the correction of a level for a side, where it is wanted.
    fn corrected(&self, wanted: bool, level: &Level, side: Side) -> Node
        ensures { result ≡ corrected wanted level.now side self.now }
    {
        if wanted {
            Node {
                seed: xor(&self.seed, &level.seed),
                bit: self.bit != level.control(side),
            }
        } else {
            *self
        }
    }
}
