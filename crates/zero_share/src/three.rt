//! Parts of zero of all three servers, where their seeds are at hand in one process.
ghost use Rattle.std.specs.Prelude.{◌≡◌, ◌≤◌, ◌+◌, ◌^◌, length};
ghost use Rattle.ring128.specs.Ring.{sums};
ghost use Rattle.zero_share.specs.Zero.{parts_of};

use crate::seeds::ZeroSeeds;
use prg_chacha::{Pads, Seed};
use ring128::{add, sub};

/// Adds to the words of each of three servers, place by place, the server's parts at the counters from `start` on: one each, in order,
/// as each would by [`ZeroSeeds::add_parts`]. Where each server's next seed is the own seed of the server after it, the pads of each
/// seed are made once for the two servers that hold it.
pub fn add_parts_of_three(
    zero: &ZeroSeeds,
    one: &ZeroSeeds,
    two: &ZeroSeeds,
    start: u64,
    at_zero: &mut [u128],
    at_one: &mut [u128],
    at_two: &mut [u128],
)
    requires one { length at_one.old ≡ length at_zero.old }
    requires two { length at_two.old ≡ length at_zero.old }
    requires counters { start + length at_zero.old ≤ 2 ^ 64 }
    ensures zero { at_zero.new ≡ sums at_zero.old (parts_of zero.now.own zero.now.next start (length at_zero.old)) }
    ensures one { at_one.new ≡ sums at_one.old (parts_of one.now.own one.now.next start (length at_one.old)) }
    ensures two { at_two.new ≡ sums at_two.old (parts_of two.now.own two.now.next start (length at_two.old)) }
{
    if zero.next == one.own && one.next == two.own && two.next == zero.own {
        add_round(
            &zero.own, &one.own, &two.own, start, at_zero, at_one, at_two,
        );
    } else {
        zero.add_parts(start, at_zero);
        one.add_parts(start, at_one);
        two.add_parts(start, at_two);
    }
}

// The same of servers with these own seeds, each of which also holds the seed of the server after it.
fn add_round(
    zero: &Seed,
    one: &Seed,
    two: &Seed,
    start: u64,
    at_zero: &mut [u128],
    at_one: &mut [u128],
    at_two: &mut [u128],
)
    requires one { length at_one.old ≡ length at_zero.old }
    requires two { length at_two.old ≡ length at_zero.old }
    requires counters { start + length at_zero.old ≤ 2 ^ 64 }
    ensures zero { at_zero.new ≡ sums at_zero.old (parts_of zero.now one.now start (length at_zero.old)) }
    ensures one { at_one.new ≡ sums at_one.old (parts_of one.now two.now start (length at_one.old)) }
    ensures two { at_two.new ≡ sums at_two.old (parts_of two.now zero.now start (length at_two.old)) }
{
    let mut of_zero = Pads::new(zero, start);
    let mut of_one = Pads::new(one, start);
    let mut of_two = Pads::new(two, start);
    for i in 0..at_zero.len() {
        let (p, q, r) = (of_zero.next(), of_one.next(), of_two.next());
        at_zero[i] = add(at_zero[i], sub(p, q));
        at_one[i] = add(at_one[i], sub(q, r));
        at_two[i] = add(at_two[i], sub(r, p));
    }
}
