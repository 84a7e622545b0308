// The numbers that keys draw at a node: one at a leaf, and one for each side above.

ghost use Rattle.std.specs.Prelude.{◌≡◌};
ghost use Rattle.prg_chacha.specs.Prg.{convert_of, strand_of};

use crate::draw::{number, rng_at};
use crate::{Seed, Side};

/// The number of a seed at a leaf: words 0 to 3 of stream 1.
#[tactic(auto, unfolding(crate::specs::Prg::convert_of))]
pub fn convert(seed: &Seed) -> u128
    ensures { result ≡ convert_of seed.now }
{
    number(&mut rng_at(seed, 1, 0))
}

/// The number of a seed for a side: of stream 1 the words 4 to 7 on the left, 8 to 11 on the right.
#[tactic(auto, unfolding(crate::specs::Prg::strand_of))]
pub fn strand(seed: &Seed, side: Side) -> u128
    ensures { result ≡ strand_of seed.now side }
{
    let place = match side {
        Side::Left => 4,
        Side::Right => 8,
    };
    number(&mut rng_at(seed, 1, place))
}

/// The numbers of a seed for the left and for the right side, drawn from one generator.
#[tactic(auto, unfolding(crate::specs::Prg::strand_of))]
pub fn strands(seed: &Seed) -> (u128, u128)
    ensures left { result.0 ≡ strand_of seed.now Side.Left }
    ensures right { result.1 ≡ strand_of seed.now Side.Right }
{
    let mut rng = rng_at(seed, 1, 4);
    let left = number(&mut rng);
    let right = number(&mut rng);
    (left, right)
}
