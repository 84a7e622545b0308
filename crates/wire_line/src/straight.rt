ghost use Rattle.std.specs.Prelude.{◌≡◌, ⊤, None, IsOk};

use crate::message::Peer;
use crate::wire::Wire;
use ring128::Memory;

/// A wire that alters nothing and reports nothing. Its count is always 0, and it takes no memory.
#[derive(Drop)]
pub struct StraightWire;

impl StraightWire {
    /// A wire.
    pub fn new() -> StraightWire {
        StraightWire
    }
}

impl Wire for StraightWire {
    ghost sight = { record { reported = λ _. None; alterations = λ _. 0; passes = λ _ _ _. ⊤ } };

    fn altered(&self) -> u64 {
        0
    }

    /// Always Ok, and the words stay.
    fn carry(&mut self, _sender: Peer, _receiver: Peer, words: &mut [u128]) -> Result<(), Memory>
        ensures ok { IsOk result }
        ensures same { words.new ≡ words.old }
    {
        Ok(())
    }

    ghost none_passes = { λ _. tt };

    ghost both_pass = { λ _ _ _ _ _ _ _. tt };
}
