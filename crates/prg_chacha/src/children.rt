ghost use Rattle.std.specs.Prelude.{◌≡◌};
ghost use Rattle.prg_chacha.specs.Prg.{child_of, bit_of};
ghost use Rattle.prg_chacha.specs.declared.side.Side.{Side};

use crate::Seed;
use crate::draw::{eight, rng_at};

/// The two children of a seed, each with its control bit.
#[derive(Clone, Copy, Debug, PartialEq, Eq)]
pub struct Children {
    pub left: Seed,
    pub left_bit: bool,
    pub right: Seed,
    pub right_bit: bool,
}

/// The children of a seed: words 0 to 7 and 8 to 15 of stream 0. The lowest bit of a child's first word is
/// its control bit, and is cleared in the child.
#[tactic(auto, unfolding(crate::specs::Prg::child_of, crate::specs::Prg::bit_of, crate::specs::Prg::eight_at))]
pub fn expand(seed: &Seed) -> Children
    ensures left { result.left ≡ child_of seed.now Side.Left }
    ensures left_bit { result.left_bit ≡ bit_of seed.now Side.Left }
    ensures right { result.right ≡ child_of seed.now Side.Right }
    ensures right_bit { result.right_bit ≡ bit_of seed.now Side.Right }
{
    let mut rng = rng_at(seed, 0, 0);
    let (left, left_bit) = eight(&mut rng).split_bit();
    let (right, right_bit) = eight(&mut rng).split_bit();
    Children {
        left,
        left_bit,
        right,
        right_bit,
    }
}
