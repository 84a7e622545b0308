ghost use Rattle.std.specs.Prelude.{◌≡◌};

use crate::Node;
use crate::key_level::KeyLevel;
use prg_chacha::{Seed, Side, expand, xor};
use ring128::{Memory, Party};

/// The correction of a level: a seed, and a control bit for either side.
#[derive(Clone, Copy, Debug, PartialEq, Eq)]
pub struct Level {
    pub seed: Seed,
    pub left: bool,
    pub right: bool,
}

impl Level {
    ghost use Rattle.key_tree.specs.Tree.{control, level_between};

    /// The correction below the nodes of party 0 and party 1 that keeps their bits apart on the side
    /// `keep` and makes their nodes one on the other side.
    #[tactic(auto, unfolding(crate::specs::Tree::level_between))]
    pub fn between(keep: Side, zero: &Node, one: &Node) -> Level
        ensures { result ≡ level_between keep zero.now one.now }
    {
        let zeros = expand(&zero.seed);
        let ones = expand(&one.seed);
        let seed = match keep {
            Side::Left => xor(&zeros.right, &ones.right),
            Side::Right => xor(&zeros.left, &ones.left),
        };
        let keeps_left = keep == Side::Left;
        Level {
            seed,
            left: (zeros.left_bit != ones.left_bit) != keeps_left,
            right: (zeros.right_bit != ones.right_bit) == keeps_left,
        }
    }

    /// The control bit for a side.
    pub fn control(&self, side: Side) -> bool
        ensures { result ≡ control self.now side }
    {
        match side {
            Side::Left => self.left,
            Side::Right => self.right,
        }
    }
}

// The levels of point keys, whose walks carry nodes.
impl KeyLevel for Level {
    ghost use Rattle.key_tree.specs.Tree.{start, step, leaf_number};
    ghost use Rattle.key_tree.specs.KeyWords.{level_words, level_read};
    ghost use Rattle.std.proofs.Common.{rules};

    type Place = Node;

    ghost WIDTH = { 3 };

    ghost top = { start };

    ghost below = { step };

    ghost number = { leaf_number };

    ghost words = { level_words };

    ghost read = { level_read };

    ghost wide = { Prim.search rules };

    ghost long = { Prim.search rules };

    const WIDTH: usize = 3;

    fn top(party: Party, root: &Seed) -> Node {
        Node::start(party, root)
    }

    fn below(&self, place: &Node, side: Side) -> Node {
        place.step(self, side)
    }

    fn both(&self, place: &Node) -> (Node, Node) {
        place.children(self)
    }

    fn number(last: u128, place: &Node) -> u128 {
        place.number(last)
    }

    fn push_words(&self, to: &mut Vec<u128>) -> Result<(), Memory> {
        let (low, high) = self.seed.halves();
        to.push(low)?;
        to.push(high)?;
        to.push(u128::from(self.left) + 2 * u128::from(self.right))?;
        Ok(())
    }

    fn read(from: &[u128]) -> Level {
        Level {
            seed: Seed::from_halves(from[0], from[1]),
            left: from[2] % 2 == 1,
            right: from[2] / 2 % 2 == 1,
        }
    }
}
