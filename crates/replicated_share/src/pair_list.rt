ghost use Rattle.std.specs.Prelude.{◌≡◌, ◌<◌, ◌↔◌, IsTrue, [], length, slice_index};

use crate::pair::Pair;
use ring128::Words;

/// A server's two shares of each number of a list, as two lists of one length.
#[derive(Drop)]
pub struct PairList {
    pub first: Words,
    pub second: Words,
    pub ghost lengths: { length first ≡ length second },
}

impl PairList {
    /// How many pairs there are.
    pub fn len(&self) -> usize
        ensures { result ≡ length self.now.first }
    {
        self.first.len()
    }

    /// Whether there is none.
    pub fn is_empty(&self) -> bool
        ensures { IsTrue result ↔ (self.now.first ≡ []) }
    {
        self.first.is_empty()
    }

    /// The pair at a place.
    pub fn at(&self, i: usize) -> Pair
        requires { i < length self.now.first }
        ensures first { result.first ≡ slice_index self.now.first i }
        ensures second { result.second ≡ slice_index self.now.second i }
    {
        Pair {
            first: self.first.as_slice()[i],
            second: self.second.as_slice()[i],
        }
    }
}
