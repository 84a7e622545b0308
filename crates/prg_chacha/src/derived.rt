// Seeds for other uses, each with a stream of its own.

ghost use Rattle.std.specs.Prelude.{◌≡◌, ◌^◌, ◌<◌, ◌≤◌};
ghost use Rattle.prg_chacha.specs.Prg.{derive_of};

use crate::Seed;
use crate::draw::{eight, rng_at};

/// The seed of a kind of use and two numbers: words 0 to 7 of the stream `kind * 2^56 + a * 2^40 + b`.
/// Since `kind` is at least 1, that stream is none of those that the other calls read.
#[tactic(auto, unfolding(crate::specs::Prg::derive_of))]
pub fn derive(seed: &Seed, kind: u8, a: u16, b: u64) -> Seed
    requires kind { 1 ≤ kind }
    requires number { b < 2 ^ 40 }
    ensures { result ≡ derive_of seed.now kind a b }
{
    let stream = (u64::from(kind) << 56) + (u64::from(a) << 40) + b;
    eight(&mut rng_at(seed, stream, 0))
}
