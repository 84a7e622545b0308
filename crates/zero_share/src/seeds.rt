ghost use Rattle.std.specs.Prelude.{◌≡◌, ◌≤◌, ◌+◌, ◌^◌, length};
ghost use Rattle.ring128.specs.Ring.{sums};
ghost use Rattle.zero_share.specs.Zero.{part_of, parts_of};

use prg_chacha::{Pads, Seed, pad};
use ring128::{add, sub};

/// The two seeds from which a server makes its parts of zero: its own, and that of the next server.
#[derive(Clone, Copy, Debug, PartialEq, Eq)]
pub struct ZeroSeeds {
    pub own: Seed,
    pub next: Seed,
}

impl ZeroSeeds {
    /// The part at a counter: the own seed's pad minus the next server's.
    pub fn part(&self, c: u64) -> u128
        ensures { result ≡ part_of self.now.own self.now.next c }
    {
        sub(pad(&self.own, c), pad(&self.next, c))
    }

    /// Adds to the words, place by place, the parts at the counters from `start` on: one each, in order.
    pub fn add_parts(&self, start: u64, to: &mut [u128])
        requires { start + length to.old ≤ 2 ^ 64 }
        ensures { to.new ≡ sums to.old (parts_of self.now.own self.now.next start (length to.old)) }
    {
        let mut own = Pads::new(&self.own, start);
        let mut next = Pads::new(&self.next, start);
        for word in to.iter_mut() {
            let mine = own.next();
            let theirs = next.next();
            *word = add(*word, sub(mine, theirs));
        }
    }
}
