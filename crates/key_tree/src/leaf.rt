// What the two parties draw at their leaves.

ghost use Rattle.std.specs.Prelude.{◌≡◌};
ghost use Rattle.key_tree.specs.Tree.{signed, of_party, last_for};

use crate::Node;
use prg_chacha::convert;
use ring128::{Party, add, neg, sub};

/// A number, or its negative where a bit is set.
pub fn signed(bit: bool, v: u128) -> u128
    ensures { result ≡ signed bit v }
{
    if bit { neg(v) } else { v }
}

/// What a party makes of the number that it draws: party 0 takes it as it is, party 1 its negative.
pub fn of_party(party: Party, v: u128) -> u128
    ensures { result ≡ of_party party v }
{
    match party {
        Party::Zero => v,
        Party::One => neg(v),
    }
}

/// The last word of two keys: it makes the numbers of the two parties add up to the weight at their
/// leaves, where `total` has been added on the way down.
pub fn last_word(weight: u128, total: u128, zero: &Node, one: &Node) -> u128
    ensures { result ≡ last_for weight total zero.now one.now }
{
    let gap = sub(convert(&one.seed), convert(&zero.seed));
    signed(one.bit, add(sub(gap, total), weight))
}
