ghost use Rattle.std.specs.Prelude.{◌≡◌};
ghost use Rattle.replicated_share.specs.Pairs.{reveal_of, added_pair, scaled_pair};

use ring128::{add, mul};

/// A server's two shares of a number: its own, and that of the next server.
#[derive(Clone, Copy, Debug, PartialEq, Eq)]
pub struct Pair {
    pub first: u128,
    pub second: u128,
}

/// The number whose shares servers 0, 1 and 2 hold: the sum of their firsts.
pub fn reveal(p0: Pair, p1: Pair, p2: Pair) -> u128
    ensures { result ≡ reveal_of p0 p1 p2 }
{
    add(add(p0.first, p1.first), p2.first)
}

/// A server's shares of the sum of two numbers.
pub fn add_pairs(a: Pair, b: Pair) -> Pair
    ensures { result ≡ added_pair a b }
{
    Pair {
        first: add(a.first, b.first),
        second: add(a.second, b.second),
    }
}

/// A server's shares of a number times a factor that all know.
pub fn scale_pair(a: Pair, by: u128) -> Pair
    ensures { result ≡ scaled_pair by a }
{
    Pair {
        first: mul(a.first, by),
        second: mul(a.second, by),
    }
}
