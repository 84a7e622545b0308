ghost use Rattle.std.specs.Prelude.{◌≡◌};
ghost use Rattle.std.proofs.Common.{refl, ◌∙◌};

use crate::message::Peer;
use crate::wire::Wire;
use ring128::Memory;

/// A wire over one that is lent: its list, its count and its carry are those of that wire.
#[derive(Drop)]
pub struct LentWire<'a, W> {
    pub inner: &'a mut W,
}

impl<'a, W: Wire> LentWire<'a, W> {
    /// The wire over this one.
    pub fn over(inner: &'a mut W) -> LentWire<'a, W>
        ensures same_wire { result.inner.ghost_name ≡ inner.entry.ghost_name }
        ensures value { result.inner.now ≡ inner.old }
    {
        LentWire { inner }
    }
}

impl<'a, W: Wire> Wire for LentWire<'a, W> {
    ghost use Rattle.wire_line.specs.Shown.{sight_lent};

    ghost sight = { sight_lent W.sight };

    fn altered(&self) -> u64 {
        self.inner.altered()
    }

    fn carry(&mut self, sender: Peer, receiver: Peer, words: &mut [u128]) -> Result<(), Memory> {
        self.inner.carry(sender, receiver, words)
    }

    ghost none_passes = { λ w. (refl, W.none_passes w.inner.now) };

    ghost both_pass = { λ w v u ms ns p q. (q.0 ∙ p.0, W.both_pass w.inner.now v.inner.now u.inner.now ms ns p.1 q.1) };
}
